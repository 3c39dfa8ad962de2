//! What the name of an operation means.
ghost use Rattle.std.specs.Prelude.{◌≡◌, ◌<◌, slice_get, slice_index, length, MatchOption};
ghost use Rattle.instruction_table.specs.Instructions.{instructions, look_up, padded, format_at, format_beside};
ghost use Rattle.instruction_table.specs.Operations.{operation_of, other_operation};
ghost use Rattle.instruction_table.specs.Places.{place_of};
ghost use Rattle.instruction_table.specs.Others.{meaning_in, pairs, rows_of};

use crate::others::{Other, rows_of};
use crate::rows::{CLASSES, FORMATS, INSTRUCTIONS, PLACES, Row, SHIFTS};
use crate::{Format, Operation};
use hl_base::Name;

/// What a name means as an operation.
pub fn operation(op: &Name) -> Operation
    ensures { result ≡ operation_of op.now }
{
    match find(op) {
        Some(format) => Operation::Machine(format),
        None => other_operation(op.text()),
    }
}

/// The format of a machine instruction; `None` for every other name.
pub fn find(op: &Name) -> Option<Format>
    ensures { result ≡ look_up op.now instructions }
{
    match padded(op.text().as_bytes()) {
        Some(mnemonic) => format_of(mnemonic),
        None => None,
    }
}

/// The format of a mnemonic, by the one row that it can have.
fn format_of(mnemonic: [u8; 8]) -> Option<Format>
    ensures { result ≡ format_at (slice_get INSTRUCTIONS (place_of mnemonic)) mnemonic }
{
    match INSTRUCTIONS.get(place_of(mnemonic)) {
        Some(row) => format_beside(row, mnemonic),
        None => None,
    }
}

/// The format in a row, if the row is that of this mnemonic.
fn format_beside(row: &Row, mnemonic: [u8; 8]) -> Option<Format>
    ensures { result ≡ format_beside row.now mnemonic }
{
    if row.mnemonic == mnemonic {
        FORMATS.get(row.format as usize).copied()
    } else {
        None
    }
}

/// A name in a column of eight characters; `None` where it is longer.
fn padded(name: &[u8]) -> Option<[u8; 8]>
    ensures { MatchOption result (8 < length name.now) (λ column. column ≡ padded name.now) }
{
    if name.len() > 8 {
        return None;
    }
    let mut column = [b' '; 8];
    column[..name.len()].copy_from_slice(name);
    Some(column)
}

/// Where the row of a mnemonic stands, if it has one.
fn place_of(mnemonic: [u8; 8]) -> usize
    ensures { result ≡ place_of mnemonic }
{
    let number = u64::from_be_bytes(mnemonic) as usize;
    (number % PLACES + SHIFTS[number % CLASSES] as usize) % PLACES
}

/// What a name means that is no machine instruction.
fn other_operation(name: &str) -> Operation
    ensures { result ≡ other_operation name.now }
{
    meaning_in(rows_of(first_of(name.as_bytes())), name)
}

/// The first byte of a name; 0 where it has none.
fn first_of(name: &[u8]) -> u8
    ensures { result ≡ slice_index name.now 0 }
{
    if name.is_empty() { 0 } else { name[0] }
}

/// The meaning of a name in these rows.
fn meaning_in(mut rows: &[Other], name: &str) -> Operation
    ensures { result ≡ meaning_in name.now (pairs rows.entry.now) }
{
    while let [row, rest @ ..] = rows {
        if row.0 == name {
            return row.1;
        }
        rows = rest;
    }
    Operation::Unknown
}
