//! Which lines of a list are processed.
ghost use Rattle.std.specs.Prelude.{◌≡◌, IfOk, length, slice_get};
ghost use Rattle.statement_listing.specs.Sources.{IsNumbering};

use crate::Line;
use crate::index::number_of;
use hl_base::OutOfMemory;
use std::alloc::Global;

/// The numbers of the lines that are processed, and of each line how many are processed before it.
#[derive(Drop)]
pub(crate) struct Numbering {
    numbers: Vec<u32>,
    before: Vec<u32>,
}

impl Numbering {
    /// That of these lines. `OutOfMemory` also where a `u32` does not count them.
    pub(crate) fn of(alloc: Global, lines: &[Line]) -> Result<Numbering, OutOfMemory>
        ensures { IfOk result (λ n. IsNumbering n lines.now) }
    {
        let mut numbers = Vec::new(alloc);
        let mut before = Vec::with_capacity(alloc, lines.len())?;
        for (at, line) in lines.iter().enumerate() {
            let place = number_of(numbers.as_slice().len())?;
            before.push(place)?;
            if line.is_processed() {
                numbers.push(number_of(at)?)?;
            }
        }
        Ok(Numbering { numbers, before })
    }

    /// The number of the line that is processed at a place.
    pub(crate) fn number(&self, place: u32) -> Option<u32>
        ensures { result ≡ slice_get self.now.numbers.items place }
    {
        self.numbers.get(place as usize).copied()
    }

    /// How many lines are processed.
    pub(crate) fn count(&self) -> usize
        ensures { result ≡ length self.now.numbers.items }
    {
        self.numbers.len()
    }

    /// How many lines are processed before the one with this number, if there is one.
    pub(crate) fn place(&self, line: u32) -> Option<u32>
        ensures { result ≡ slice_get self.now.before.items line }
    {
        self.before.get(line as usize).copied()
    }
}
