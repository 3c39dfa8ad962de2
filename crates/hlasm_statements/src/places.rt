//! Where the characters of a field stand.
ghost use Rattle.std.specs.Prelude.{◌≡◌, ◌<◌, [], ◌++◌, length, slice_index_or, OnOk};

use crate::run::Run;
use hl_base::OutOfMemory;
use std::alloc::Global;
use std::marker::Model;
use std::mem;

/// Lines and columns of characters, one for each. Contracts see the list of pairs.
#[derive(Drop)]
pub struct Places {
    full: Vec<Run>,
    last: Run,
}

impl Model for Places {
    ghost use Rattle.std.specs.Prelude.{ℕ, List};
    ghost use Rattle.hlasm_statements.specs.Places.{places_in};

    ghost Value = { List (ℕ × ℕ) };

    ghost view = { λ s. places_in s.full.items s.last };
}

impl Places {
    ghost use Rattle.hlasm_statements.specs.Places.{side_by_side};

    /// No place.
    pub fn new(alloc: Global) -> Places
        ensures { result ≡ [] }
    {
        Places {
            full: Vec::new(alloc),
            last: Run::none(),
        }
    }

    /// Adds places side by side in a line, from a column on, behind those that are there. What an `Err` leaves is of no use.
    pub fn push(&mut self, line: u32, column: u32, count: u32) -> Result<(), OutOfMemory>
        ensures { OnOk result (self.new ≡ self.old ++ side_by_side line column count) }
    {
        let run = Run {
            line,
            from: column,
            to: column.checked_add(count).ok_or(OutOfMemory)?,
        };
        let last = mem::replace(&mut self.last, run);
        if last.from < last.to {
            self.full.push(last)?;
        }
        Ok(())
    }

    /// The place of the character with this number, from 0. Past the last one the answer is of no use.
    pub fn at(&self, index: u32) -> (u32, u32)
        ensures { index < length self.now → result ≡ slice_index_or self.now index result }
    {
        let mut left = index;
        for run in &self.full {
            let count = run.to - run.from;
            if left < count {
                return (run.line, run.from + left);
            }
            left -= count;
        }
        self.last.at(left)
    }
}
