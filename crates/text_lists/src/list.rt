//! The statements of one text.
ghost use Rattle.std.specs.Prelude.{◌≡◌, ℕ, IfOk, OnOk, MatchOption, slice_get};
ghost use Rattle.std.specs.Option.{option_copied};
ghost use Rattle.std.specs.List.{find};
ghost use Rattle.std.specs.Map.{lookup};
ghost use Rattle.std.specs.Str.{chars};
ghost use Rattle.hlasm_statements.specs.Statements.{statements_of};
ghost use Rattle.statement_listing.specs.Listings.{listing_of};
ghost use Rattle.text_lists.specs.Lists as lists;
ghost use Rattle.text_lists.specs.Numbers as index;

use hl_base::{OutOfMemory, PathId};
use hlasm_statements::read_statements;
use indexmap::IndexMap;
use statement_listing::{Line, Listing};
use std::alloc::Global;
use std::marker::Model;

/// The statements of a text, with an index of the lines in which they begin. Contracts see the list.
#[derive(Drop)]
pub(crate) struct TextList {
    list: Listing,
    numbers: IndexMap<u32, u32>,
}

impl Model for TextList {
    ghost use Rattle.std.specs.Prelude.{List};
    ghost use Rattle.statement_listing.specs.Listings.{Listed};
    ghost use Rattle.text_lists.specs.Lists.{AreWhole};
    ghost use Rattle.text_lists.specs.Numbers.{IsIndex};

    ghost Value = { List Listed };

    ghost view = { λ t. t.list };

    ghost invariant = { λ t. IsIndex t.numbers.entries t.list × AreWhole t.list };
}

/// A number in 32 bits.
fn number_of(number: usize) -> Result<u32, OutOfMemory>
    ensures { IfOk result (λ n. n ≡ number) }
{
    match u32::try_from(number) {
        Ok(number) => Ok(number),
        Err(_) => Err(OutOfMemory),
    }
}

/// Notes the number of the statement that begins in a line, unless another one does.
fn note(numbers: &mut IndexMap<u32, u32>, line: u32, number: usize) -> Result<(), OutOfMemory>
    ensures { OnOk result ((n : ℕ) → lookup (index.is_line n) numbers.new.entries ≡ index.noted (lookup (index.is_line n) numbers.old.entries) n line number) }
{
    if numbers.get(&line).is_some() {
        return Ok(());
    }
    let number = number_of(number)?;
    numbers.insert(line, number)?;
    Ok(())
}

/// The numbers of the statements by the lines in which they begin.
fn numbers_of(alloc: Global, lines: &[Line]) -> Result<IndexMap<u32, u32>, OutOfMemory>
    ensures { IfOk result (λ found. index.IsIndex found.entries lines.now) }
{
    let mut found = IndexMap::new(alloc);
    for (number, line) in lines.iter().enumerate() {
        note(&mut found, line.origin().line, number)?;
    }
    Ok(found)
}

impl TextList {
    /// The statements of the text of a path. `OutOfMemory` also where there are more than a `u32` counts.
    pub(crate) fn of(alloc: Global, path: PathId, text: &str) -> Result<TextList, OutOfMemory>
        ensures { IfOk result (λ list. list ≡ listing_of path (statements_of (chars text.now))) }
    {
        let statements = read_statements(alloc, text)?;
        let list = Listing::of(alloc, path, statements)?;
        let numbers = numbers_of(alloc, list.lines())?;
        Ok(TextList { list, numbers })
    }

    /// The list.
    pub(crate) fn list(&self) -> &Listing
        ensures { result.now ≡ self.now }
    {
        &self.list
    }

    /// The number, from 0, of the statement that begins in a line.
    pub(crate) fn number_at(&self, line: u32) -> Option<u32>
        ensures { result ≡ lists.number_in line self.now }
    {
        self.numbers.get(&line).copied()
    }

    /// The statement of a number, from 0.
    fn numbered(&self, number: u32) -> Option<&Line>
        ensures found { option_copied result ≡ slice_get self.now number }
        ensures whole { MatchOption result (Unit {0}) (λ one. lists.IsWhole one.now.statement) }
    {
        match self.list.lines().get(number as usize) {
            Some(line) => Some(line),
            None => None,
        }
    }

    /// The statement that begins in a line.
    pub(crate) fn line_at(&self, line: u32) -> Option<&Line>
        ensures found { option_copied result ≡ find (lists.begins_in line) self.now }
        ensures whole { MatchOption result (Unit {0}) (λ one. lists.IsWhole one.now.statement) }
    {
        match self.number_at(line) {
            Some(number) => self.numbered(number),
            None => None,
        }
    }
}
