//! The assembler's own operations by their first letter, in each letter the short ones first. The lists stand in the
//! specification; that these rows say the same is proved.
ghost use Rattle.std.specs.Prelude.{◌≡◌};
ghost use Rattle.instruction_table.specs.Others as rows;

use crate::Operation;
use crate::Operation::{Both, Conditional, LeftOut, Ordinary, Silent};

/// A name and what it means.
pub type Other = (&'static str, Operation);

/// The rows of names that begin with a letter.
#[tactic(auto, unfolding(crate::specs::Others::rows_of, crate::specs::Others::by_letter))]
pub fn rows_of(letter: u8) -> &'static [Other]
    ensures { rows.pairs result.now ≡ rows.rows_of letter }
{
    match letter {
        b'A' => &A,
        b'C' => &C,
        b'D' => &D,
        b'E' => &E,
        b'G' => &G,
        b'I' => &I,
        b'L' => &L,
        b'M' => &M,
        b'O' => &O,
        b'P' => &P,
        b'R' => &R,
        b'S' => &S,
        b'T' => &T,
        b'U' => &U,
        b'W' => &W,
        b'X' => &X,
        _ => &[],
    }
}

const A: [Other; 10] = [
    ("AGO", Conditional),
    ("AIF", Conditional),
    ("ACTR", Conditional),
    ("ANOP", Conditional),
    ("ADATA", LeftOut),
    ("ALIAS", Silent),
    ("AMODE", Silent),
    ("AREAD", LeftOut),
    ("AINSERT", LeftOut),
    ("ACONTROL", LeftOut),
];

const C: [Other; 10] = [
    ("CCW", LeftOut),
    ("COM", LeftOut),
    ("CXD", LeftOut),
    ("CCW0", LeftOut),
    ("CCW1", LeftOut),
    ("CNOP", LeftOut),
    ("COPY", Both),
    ("CATTR", LeftOut),
    ("CSECT", Ordinary),
    ("CEJECT", LeftOut),
];

const D: [Other; 5] = [
    ("DC", Ordinary),
    ("DS", Ordinary),
    ("DXD", LeftOut),
    ("DROP", Ordinary),
    ("DSECT", Ordinary),
];

const E: [Other; 6] = [
    ("END", Ordinary),
    ("EQU", Ordinary),
    ("EJECT", Silent),
    ("ENTRY", Ordinary),
    ("EXTRN", Ordinary),
    ("EXITCTL", LeftOut),
];

const G: [Other; 3] = [
    ("GBLA", Conditional),
    ("GBLB", Conditional),
    ("GBLC", Conditional),
];

const I: [Other; 2] = [("ICTL", LeftOut), ("ISEQ", LeftOut)];

const L: [Other; 5] = [
    ("LCLA", Conditional),
    ("LCLB", Conditional),
    ("LCLC", Conditional),
    ("LOCTR", LeftOut),
    ("LTORG", Ordinary),
];

const M: [Other; 5] = [
    ("MEND", Conditional),
    ("MACRO", Conditional),
    ("MEXIT", Conditional),
    ("MHELP", LeftOut),
    ("MNOTE", Both),
];

const O: [Other; 2] = [("ORG", Ordinary), ("OPSYN", LeftOut)];

const P: [Other; 4] = [
    ("POP", LeftOut),
    ("PUSH", LeftOut),
    ("PRINT", Silent),
    ("PUNCH", LeftOut),
];

const R: [Other; 3] = [("REPRO", LeftOut), ("RMODE", Silent), ("RSECT", LeftOut)];

const S: [Other; 7] = [
    ("SETA", Conditional),
    ("SETB", Conditional),
    ("SETC", Conditional),
    ("SETAF", LeftOut),
    ("SETCF", LeftOut),
    ("SPACE", Silent),
    ("START", Ordinary),
];

const T: [Other; 1] = [("TITLE", Silent)];

const U: [Other; 1] = [("USING", Ordinary)];

const W: [Other; 1] = [("WXTRN", Ordinary)];

const X: [Other; 1] = [("XATTR", LeftOut)];
