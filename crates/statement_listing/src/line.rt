//! One line of a list: a statement, where it stands, and how it is read.
ghost use Rattle.std.specs.Prelude.{◌≡◌, ◌↔◌, ◌<◌, length, IfOk, IsTrue, Some, option_copied, option_map};
ghost use Rattle.statement_reading.specs.Views.{reading_of};
ghost use Rattle.statement_listing.specs.Listings.{Listed, is_plain, processed};

use crate::source::Source;
use hl_base::{Origin, OutOfMemory, Text};
use hlasm_statements::{Shape, Statement};
use statement_reading::ReadStatement;
use std::alloc::Global;
use std::marker::Model;
use std::rc::Rc;

/// A statement with the place where it stands, which was read once. Contracts see these two. It is shared: `share` takes no
/// memory.
#[derive(Drop)]
pub struct Line {
    source: Rc<Source>,
    at: usize,
    reading: Option<Rc<ReadStatement>>,
}

impl Model for Line {
    ghost use Rattle.std.specs.Prelude.{◌≡◌, ◌<◌, length, option_map};
    ghost use Rattle.statement_reading.specs.Views.{reading_of};
    ghost use Rattle.statement_listing.specs.Listings.{Listed, processed};
    ghost use Rattle.statement_listing.specs.Sources.{listed_at, statement_at};

    ghost Value = { Listed };

    ghost view = { λ l. listed_at l.source.value l.at };

    ghost invariant = { λ l. (l.at < length l.source.value.statements) × (option_map (λ r. reading_of r.value) l.reading ≡ processed (statement_at l.source.value l.at)) };
}

/// Whether statements of a shape are processed.
fn is_plain(shape: Shape) -> bool
    ensures { result ≡ is_plain shape }
{
    match shape {
        Shape::Plain => true,
        Shape::Comment | Shape::InnerComment | Shape::Blank => false,
    }
}

/// Whether two texts have the same characters.
fn same_text(one: &Text, other: &Text) -> bool
    ensures { IsTrue result ↔ (one.now ≡ other.now) }
{
    one.as_str() == other.as_str()
}

/// Whether two statements say the same, so that they are read alike.
fn says_the_same(one: &Statement, other: &Statement) -> bool
    ensures { IsTrue result → processed one.now ≡ processed other.now }
{
    one.shape == other.shape
        && same_text(&one.operands, &other.operands)
        && same_text(&one.op, &other.op)
        && same_text(&one.label, &other.label)
}

/// How a statement is read, if it is processed.
fn read(alloc: Global, statement: &Statement) -> Result<Option<Rc<ReadStatement>>, OutOfMemory>
    ensures { IfOk result (λ read. option_map (λ r. reading_of r.value) read ≡ processed statement.now) }
{
    if !is_plain(statement.shape) {
        return Ok(None);
    }
    let reading = ReadStatement::of(alloc, statement)?;
    Ok(Some(Rc::new(alloc, reading)?))
}

/// The same, where a line is at hand that was read as this statement is.
fn read_like(
    alloc: Global,
    statement: &Statement,
    like: Option<&Line>,
) -> Result<Option<Rc<ReadStatement>>, OutOfMemory>
    requires like { (line : Listed) → option_copied like ≡ Some line → processed line.statement ≡ processed statement.now }
    ensures { IfOk result (λ read. option_map (λ r. reading_of r.value) read ≡ processed statement.now) }
{
    match like {
        Some(line) => line.shared_reading(),
        None => read(alloc, statement),
    }
}

/// The line of this number, if a statement says what it says.
fn line_at<'a>(lines: &'a [Line], number: usize, statement: &Statement) -> Option<&'a Line>
    ensures { (line : Listed) → option_copied result ≡ Some line → processed line.statement ≡ processed statement.now }
{
    match lines.get(number) {
        Some(line) if says_the_same(line.statement(), statement) => Some(line),
        _ => None,
    }
}

/// A line that says what a statement says: the one with its number from the front, or the one with its number from the back,
/// where so many statements are left.
fn line_like<'a>(
    lines: &'a [Line],
    statement: &Statement,
    at: usize,
    left: usize,
) -> Option<&'a Line>
    ensures { (line : Listed) → option_copied result ≡ Some line → processed line.statement ≡ processed statement.now }
{
    if let Some(line) = line_at(lines, at, statement) {
        return Some(line);
    }
    if left > lines.len() {
        return None;
    }
    line_at(lines, lines.len() - left, statement)
}

impl Line {
    ghost use Rattle.statement_listing.specs.Sources.{listed_at};

    /// The line of a text with this number, from 0, where lines that were read before are at hand.
    pub(crate) fn read(
        alloc: Global,
        source: &Rc<Source>,
        at: usize,
        earlier: &[Line],
    ) -> Result<Line, OutOfMemory>
        requires { at < length source.now.value.statements }
        ensures { IfOk result (λ l. l ≡ listed_at source.now.value at) }
    {
        let statements = source.statements.as_slice();
        let statement = &statements[at];
        let like = line_like(earlier, statement, at, statements.len() - at);
        let reading = read_like(alloc, statement, like)?;
        Ok(Line {
            source: source.clone()?,
            at,
            reading,
        })
    }

    /// How it is read, shared.
    fn shared_reading(&self) -> Result<Option<Rc<ReadStatement>>, OutOfMemory>
        ensures { IfOk result (λ read. option_map (λ r. reading_of r.value) read ≡ processed self.now.statement) }
    {
        match &self.reading {
            Some(reading) => Ok(Some(reading.clone()?)),
            None => Ok(None),
        }
    }

    /// The same line. It takes no memory; an `Err` comes only where it is shared more often than can be counted.
    pub fn share(&self) -> Result<Line, OutOfMemory>
        ensures { IfOk result (λ l. l ≡ self.now) }
    {
        Ok(Line {
            source: self.source.clone()?,
            at: self.at,
            reading: self.shared_reading()?,
        })
    }

    /// The statement.
    pub fn statement(&self) -> &Statement
        ensures { result.now ≡ self.now.statement }
    {
        &self.source.statements.as_slice()[self.at]
    }

    /// Where it stands.
    pub fn origin(&self) -> Origin
        ensures { result ≡ self.now.origin }
    {
        Origin {
            path: self.source.path,
            line: self.statement().first,
        }
    }

    /// Whether it is processed.
    pub(crate) fn is_processed(&self) -> bool
        ensures { result ≡ is_plain self.now.statement.shape }
    {
        self.reading.is_some()
    }

    /// How it is read; `None` exactly where it is not processed, as a comment or a blank statement.
    pub fn reading(&self) -> Option<&ReadStatement>
        ensures { option_map (λ r. reading_of r.now) result ≡ processed self.now.statement }
    {
        match &self.reading {
            Some(reading) => Some(reading),
            None => None,
        }
    }
}
