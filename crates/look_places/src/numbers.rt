//! The numbers of the statements that are processed.
ghost use Rattle.std.specs.Prelude.{◌≡◌, ◌++◌, [], ◌∷◌, IfOk, OnOk};
ghost use Rattle.statement_listing.specs.Listings.{is_plain};
ghost use Rattle.look_places.specs.Places.{numbers};

use hl_base::OutOfMemory;
use hlasm_statements::{Shape, Statement};
use std::alloc::Global;

/// Whether a statement of this shape is processed.
fn is_plain(shape: Shape) -> bool
    ensures { result ≡ is_plain shape }
{
    match shape {
        Shape::Plain => true,
        Shape::Comment | Shape::InnerComment | Shape::Blank => false,
    }
}

/// Adds a number behind others.
fn push(numbers: &mut Vec<u32>, number: u32) -> Result<(), OutOfMemory>
    ensures { OnOk result (numbers.new.items ≡ numbers.old.items ++ number ∷ []) }
{
    numbers.push(number)?;
    Ok(())
}

/// The numbers of those of some statements that are processed, counted from 0. Numbers that do not fit their type count as
/// want of memory.
pub(crate) fn numbers_of(alloc: Global, statements: &[Statement]) -> Result<Vec<u32>, OutOfMemory>
    ensures { IfOk result (λ found. found.items ≡ numbers 0 statements.now) }
{
    let mut found = Vec::new(alloc);
    let mut at: u32 = 0;
    let mut left = statements;
    while let [statement, rest @ ..] = left {
        if is_plain(statement.shape) {
            push(&mut found, at)?;
        }
        at = at.checked_add(1).ok_or(OutOfMemory)?;
        left = rest;
    }
    Ok(found)
}
