//! Lookahead by the places of processed statements.
ghost use Rattle.std.specs.Prelude.{◌≡◌, ℕ, List, IfOk, slice_get};
ghost use Rattle.std.specs.Str.{chars};
ghost use Rattle.hlasm_statements.specs.Statements.{statements_of};
ghost use Rattle.look_places.specs.Places.{look_behind};

use crate::numbers::numbers_of;
use hl_base::{Attr, Name, OutOfMemory};
use hlasm_statements::read_statements;
use lookahead_scan::LookIndex;
use std::alloc::Global;
use text_pool::Present;

/// What a look ahead finds behind each processed statement of a text.
#[derive(Drop)]
pub struct Foresight {
    pub(crate) index: LookIndex,
    pub(crate) numbers: Vec<u32>,
}

impl Foresight {
    ghost use Rattle.look_places.specs.Finding.{foresees};

    /// Reads the statements of a text, and the members that they copy.
    pub fn of<P: Present>(alloc: Global, text: &str, present: &P) -> Result<Foresight, OutOfMemory>
        ensures { IfOk result (λ f. (name : List ℕ) (place : ℕ) → foresees f name place
            ≡ look_behind (P.members present.now) (statements_of (chars text.now)) name place) }
    {
        let statements = read_statements(alloc, text)?;
        let numbers = numbers_of(alloc, statements.as_slice())?;
        let index = LookIndex::build(alloc, &statements, present)?;
        Ok(Foresight { index, numbers })
    }

    /// The number of the statement that is processed at a place.
    fn number(&self, place: u32) -> Option<u32>
        ensures { result ≡ slice_get self.now.numbers.items place }
    {
        self.numbers.get(place as usize).copied()
    }

    /// What a name means that is looked for behind the statement that is processed at this place, counted from 0.
    pub fn find(&self, name: &Name, place: u32) -> Option<Attr>
        ensures { result ≡ foresees self.now name.now place }
    {
        match self.number(place) {
            Some(number) => self.index.find(name, number),
            None => None,
        }
    }
}
