//! What definitions say, and the numbers by which they are told apart.
ghost use Rattle.std.specs.Prelude.{◌≡◌, ◌↔◌, IsTrue, map};
ghost use Rattle.std.specs.Str.{chars};
ghost use Rattle.macro_library.specs.Contents as contents;

use hl_base::Text;
use hlasm_statements::ColumnFault;
use statement_listing::Line;

/// FNV's factor for 64 bits.
const FACTOR: u64 = 1_099_511_628_211;

/// The number of what stood before, and of one number more.
fn mixed(start: u64, next: u64) -> u64
    ensures { result ≡ contents.mixed start next }
{
    start.wrapping_mul(FACTOR).wrapping_add(next)
}

/// The same for the characters of a text.
fn text_number(start: u64, text: &str) -> u64
    ensures { result ≡ contents.text_number start (chars text.now) }
{
    let mut number = start;
    for character in text.chars() {
        number = mixed(number, u64::from(u32::from(character)));
    }
    number
}

/// The same for what a line says.
pub(crate) fn line_number(start: u64, line: &Line) -> u64
    ensures { result ≡ contents.written_number start (contents.written line.now) }
{
    let origin = line.origin();
    let statement = line.statement();
    let start = mixed(
        mixed(start, u64::from(origin.path.0)),
        u64::from(origin.line),
    );
    let label = text_number(start, statement.label.as_str());
    let op = text_number(label, statement.op.as_str());
    text_number(op, statement.operands.as_str())
}

/// Whether two texts have the same characters.
fn same_text(one: &Text, other: &Text) -> bool
    ensures { IsTrue result ↔ (one.now ≡ other.now) }
{
    one.as_str() == other.as_str()
}

/// Whether the columns of two statements have the same faults.
fn same_faults(one: &[ColumnFault], other: &[ColumnFault]) -> bool
    ensures { IsTrue result ↔ (one.now ≡ other.now) }
{
    let mut left = one;
    let mut right = other;
    while let [first, rest @ ..] = left {
        let [second, behind @ ..] = right else {
            return false;
        };
        if *first != *second {
            return false;
        }
        left = rest;
        right = behind;
    }
    right.is_empty()
}

/// Whether two lines say the same at the same place.
pub(crate) fn same_line(one: &Line, other: &Line) -> bool
    ensures { IsTrue result ↔ (contents.written one.now ≡ contents.written other.now) }
{
    let (at, other_at) = (one.origin(), other.origin());
    let (first, second) = (one.statement(), other.statement());
    at.path.0 == other_at.path.0
        && at.line == other_at.line
        && first.shape == second.shape
        && same_text(&first.label, &second.label)
        && same_text(&first.op, &second.op)
        && same_text(&first.operands, &second.operands)
        && same_faults(first.faults.as_slice(), second.faults.as_slice())
}

/// Whether lines say the same at the same places.
pub(crate) fn same_lines(one: &[Line], other: &[Line]) -> bool
    ensures { IsTrue result ↔ (map contents.written one.now ≡ map contents.written other.now) }
{
    let mut left = one;
    let mut right = other;
    while let [first, rest @ ..] = left {
        let [second, behind @ ..] = right else {
            return false;
        };
        if !same_line(first, second) {
            return false;
        }
        left = rest;
        right = behind;
    }
    right.is_empty()
}
