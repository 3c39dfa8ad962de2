//! What there is after some statements, and what is kept of a statement.

use constant_grammar::Formula;
use constant_operands::ConstantOperand;
use hl_base::Name;
use literal_places::{LiteralUse, Literals};
use note_rows::Row;
use ordinary_symbols::Symbols;
use section_table::{Place, SectionTable};
use std::alloc::Global;
use trace_values::Reloc;

/// What there is behind some statements: the sections, the symbols, the literals, and how many symbols are external.
#[derive(Drop)]
pub struct State {
    pub sections: SectionTable,
    pub symbols: Symbols,
    pub literals: Literals,
    pub externals: u32,
}

/// What a statement leaves to be judged when all symbols are known.
#[derive(Drop)]
pub enum Left {
    Nothing,
    /// The constants of DC, DS or of literals, without those that cannot be read.
    Operands(Vec<ConstantOperand>),
    /// Symbols that are to be defined.
    Names(Vec<Name>),
    /// An expression of any value.
    Expression(Formula),
    /// EQU: the place of the symbol that it defines, if it does, and the expression of its length.
    Equated(Option<usize>, Option<Formula>),
}

/// A statement that is laid out.
#[derive(Drop)]
pub struct Laid {
    /// Where it stands, if there is a section: ORG and the statements of sections where they lead, all others where they are met,
    /// behind their own alignment.
    pub place: Option<Place>,
    /// How many bytes it takes from there on.
    pub bytes: u32,
    /// The value of `*` in its expressions, if there is a section.
    pub here: Option<Reloc>,
    /// Of each literal of its operands, in order, which one of a pool it is; none for one that was refused.
    pub uses: Vec<Option<LiteralUse>>,
    /// What is said of its places.
    pub said: Vec<Row>,
    /// What is said of the symbols that it defines.
    pub said_of_symbols: Vec<Row>,
    pub left: Left,
}

impl State {
    ghost use Rattle.std.specs.Prelude.{◌≡◌};
    ghost use Rattle.section_steps.specs.States as spec;
    ghost use Rattle.section_steps.specs.Views.{state_of};

    /// What there is before the first statement. It takes no memory.
    pub fn new(alloc: Global) -> State
        ensures { state_of result ≡ spec.nothing_yet }
    {
        State {
            sections: SectionTable::new(alloc),
            symbols: Symbols::new(alloc),
            literals: Literals::new(alloc),
            externals: 0,
        }
    }
}
