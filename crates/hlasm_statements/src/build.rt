//! The statement that some lines make up.
ghost use Rattle.std.specs.Prelude.{◌≡◌, false, ◌<◌, ◌+◌, [], ◌∷◌, ◌++◌, ◌&&◌, not, ◌==◌, map, take, length, IfOk, OnOk};
ghost use Rattle.std.specs.List.{list_any};
ghost use Rattle.std.specs.Str.{chars};
ghost use Rattle.hlasm_statements.specs.Faults as spec;
ghost use Rattle.hlasm_statements.specs.Fields as fields;
ghost use Rattle.hlasm_statements.specs.Reading.{IsRead, whole_source, bodies_of};
ghost use Rattle.hl_base.specs.Symbols.{symbol_of};
ghost use Rattle.hlasm_statements.specs.Building.{is_plain, empty_statement, filled_statement, whole_statement, AddsAlternate};
ghost use Rattle.hlasm_statements.specs.Statements.{lines_read};

use crate::column::{is_all_blank, split_columns};
use crate::places::Places;
use crate::reader::Reader;
use crate::shape::opening;
use crate::{Faults, Shape, Statement, Statements};
use hl_base::{Name, OutOfMemory, Text};
use instruction_table::{Operation, operation};
use std::alloc::Global;

/// How many continuation lines of a statement in the standard format are read.
const LINES_READ: usize = 9;

/// Behind how many columns a continuation line's text begins.
const MARGIN: usize = 15;

/// The column in which it begins.
const TEXT_COLUMN: u32 = 16;

/// A line number so many lines on. `OutOfMemory` where a `u32` does not count that far.
pub fn count_on(number: u32, count: usize) -> Result<u32, OutOfMemory>
    ensures { IfOk result (λ n. n ≡ number + count) }
{
    let count = u32::try_from(count).map_err(|_| OutOfMemory)?;
    number.checked_add(count).ok_or(OutOfMemory)
}

/// The continuation lines that are read in the standard format.
fn lines_read<'b, 'a>(rest: &'b [&'a str]) -> &'b [&'a str]
    ensures { bodies_of result.now ≡ take lines_read (bodies_of rest.now) }
{
    if rest.len() > LINES_READ {
        return &rest[..LINES_READ];
    }
    rest
}

/// Whether columns 1 to 15 of a line have text.
fn has_margin_text(body: &str) -> bool
    ensures { result ≡ spec.has_margin_text (chars body.now) }
{
    let (margin, _) = split_columns(body, MARGIN);
    !is_all_blank(margin)
}

fn have_margin_text(mut rest: &[&str]) -> bool
    ensures { result ≡ list_any spec.has_margin_text (bodies_of rest.entry.now) }
{
    while let [body, more @ ..] = rest {
        if has_margin_text(body) {
            return true;
        }
        rest = more;
    }
    false
}

/// Whether statements with this operation are in the alternate format.
fn is_alternate_operation(op: &Text) -> bool
    ensures { result ≡ fields.is_alternate_operation op.now }
{
    if op.is_empty() {
        return false;
    }
    let text = op.as_str();
    if has_ampersand(text) {
        return false;
    }
    is_alternate_name(text)
}

fn has_ampersand(text: &str) -> bool
    ensures { result ≡ list_any (λ c. c == 38) (chars text.now) }
{
    text.chars().any(|c| c == '&')
}

fn is_alternate_name(text: &str) -> bool
    ensures { result ≡ fields.is_alternate_name (symbol_of text.now) }
{
    match Name::read(text) {
        None => true,
        Some(name) => is_alternate(operation(&name)),
    }
}

fn is_alternate(meaning: Operation) -> bool
    ensures { result ≡ fields.is_alternate_meaning meaning }
{
    match meaning {
        Operation::Conditional | Operation::LeftOut | Operation::Unknown => true,
        Operation::Ordinary | Operation::Both | Operation::Silent | Operation::Machine(_) => false,
    }
}

/// Whether there are continuation lines, and the operation is one of the alternate format.
fn goes_on_with(rest: &[&str], op: &Text) -> bool
    ensures { result ≡ (not (length (bodies_of rest.now) == 0) && fields.is_alternate_operation op.now) }
{
    !rest.is_empty() && is_alternate_operation(op)
}

/// Reads the fields of lines that are all read, where nothing is read so far. What an `Err` leaves is of no use.
fn read_fields(
    reader: &mut Reader,
    alternate: bool,
    number: u32,
    first: &str,
    rest: &[&str],
) -> Result<(), OutOfMemory>
    requires { IsRead reader.old alternate [] }
    ensures { OnOk result (IsRead reader.new alternate (whole_source number (chars first.now ∷ bodies_of rest.now))) }
{
    reader.read_part(alternate, first, number, 1)?;
    let mut line = number;
    for body in rest {
        line = line.checked_add(1).ok_or(OutOfMemory)?;
        let (_, part) = split_columns(body, MARGIN);
        reader.read_part(alternate, part, line, TEXT_COLUMN)?;
    }
    Ok(())
}

/// A statement without fields.
fn without_fields(alloc: Global, first: u32, last: u32, shape: Shape, faults: Faults) -> Statement
    ensures { result ≡ empty_statement first last shape faults }
{
    Statement {
        first,
        last,
        shape,
        label: Text::new(alloc),
        op: Text::new(alloc),
        operands: Text::new(alloc),
        faults,
        label_places: Places::new(alloc),
        op_places: Places::new(alloc),
        operand_places: Places::new(alloc),
    }
}

/// A statement with the fields that were read.
fn with_fields(first: u32, last: u32, reader: Reader, faults: Faults) -> Statement
    ensures { result ≡ filled_statement first last reader faults }
{
    Statement {
        first,
        last,
        shape: Shape::Plain,
        label: reader.label,
        op: reader.op,
        operands: reader.operands,
        faults,
        label_places: reader.label_places,
        op_places: reader.op_places,
        operand_places: reader.operand_places,
    }
}

fn is_plain(shape: Shape) -> bool
    ensures { result ≡ is_plain shape }
{
    match shape {
        Shape::Plain => true,
        Shape::Comment | Shape::InnerComment | Shape::Blank => false,
    }
}

/// Adds the plain statement of the first line and of the lines that continue it, in the alternate format.
#[inline(never)]
fn push_alternate(
    statements: &mut Statements,
    alloc: Global,
    number: u32,
    last: u32,
    first: &str,
    rest: &[&str],
    is_marked: bool,
) -> Result<(), OutOfMemory>
    ensures { OnOk result (AddsAlternate statements.old statements.new number last is_marked (chars first.now) (bodies_of rest.now)) }
{
    let mut whole = Reader::new(alloc);
    read_fields(&mut whole, true, number, first, rest)?;
    let faults = Faults::of(have_margin_text(rest), false, is_marked);
    statements.push(with_fields(number, last, whole, faults))
}

/// Adds the statement of the first line and of the lines that continue it, of which the last is marked or not.
#[inline(always)]
fn push_statement(
    statements: &mut Statements,
    alloc: Global,
    number: u32,
    first: &str,
    rest: &[&str],
    is_marked: bool,
) -> Result<(), OutOfMemory>
    ensures { OnOk result (statements.new ≡ statements.old ++ whole_statement number is_marked (chars first.now ∷ bodies_of rest.now) ∷ []) }
{
    let last = count_on(number, rest.len())?;
    let read = lines_read(rest);
    let faults = Faults::of(have_margin_text(read), rest.len() > LINES_READ, is_marked);
    let shape = opening(first);
    if !is_plain(shape) {
        return statements.push(without_fields(alloc, number, last, shape, faults));
    }
    let mut standard = Reader::new(alloc);
    read_fields(&mut standard, false, number, first, read)?;
    if standard.is_blank() {
        return statements.push(without_fields(alloc, number, last, Shape::Blank, faults));
    }
    if !goes_on_with(rest, &standard.op) {
        return statements.push(with_fields(number, last, standard, faults));
    }
    push_alternate(statements, alloc, number, last, first, rest, is_marked)
}

/// Adds the statement of one line that does not go on, of which columns 1 to 71 are given. What an `Err` leaves is of no use.
pub fn push_line(
    statements: &mut Statements,
    alloc: Global,
    number: u32,
    body: &str,
) -> Result<(), OutOfMemory>
    ensures { OnOk result (statements.new ≡ statements.old ++ whole_statement number false (chars body.now ∷ []) ∷ []) }
{
    push_statement(statements, alloc, number, body, &[], false)
}

/// Adds the statement of some lines, of which columns 1 to 71 are given. What an `Err` leaves is of no use.
pub fn push_lines(
    statements: &mut Statements,
    alloc: Global,
    number: u32,
    bodies: &[&str],
    is_marked: bool,
) -> Result<(), OutOfMemory>
    requires { 0 < length bodies.now }
    ensures { OnOk result (statements.new ≡ statements.old ++ whole_statement number is_marked (bodies_of bodies.now) ∷ []) }
{
    push_statement(
        statements,
        alloc,
        number,
        bodies[0],
        &bodies[1..],
        is_marked,
    )
}
