//! Places in a row, each under a number: those of one number are found from the last to the first.
ghost use Rattle.std.specs.Prelude.{◌≡◌, ◌<◌, [], ◌∷◌, ◌++◌, OnOk, OnErr, length, take, slice_index};
ghost use Rattle.expansion_memo.specs.Latest.{latest};

use hl_base::OutOfMemory;
use std::alloc::Global;
use std::collections::HashMap;
use std::marker::Model;

/// A place: its number, and the last place before it with the same number.
#[derive(Drop)]
struct Link {
    number: u64,
    before: Option<usize>,
}

/// The numbers of places. Contracts see the list of them.
#[derive(Drop)]
pub(crate) struct NumberIndex {
    newest: HashMap<u64, usize>,
    links: Vec<Link>,
}

impl Model for NumberIndex {
    ghost use Rattle.std.specs.Prelude.{ℕ, List};

    ghost Value = { List ℕ };

    ghost use Rattle.expansion_memo.specs.Links.{numbers_of, IsIndex};

    ghost view = { λ x. numbers_of x.links.items };

    ghost invariant = { λ x. IsIndex x.newest x.links.items };
}

impl NumberIndex {
    /// No place.
    pub(crate) fn new(alloc: Global) -> NumberIndex
        ensures { result ≡ [] }
    {
        NumberIndex {
            newest: HashMap::new(alloc),
            links: Vec::new(alloc),
        }
    }

    /// The last place with a number.
    pub(crate) fn last(&self, number: u64) -> Option<usize>
        ensures { result ≡ latest number self.now }
    {
        self.newest.get(&number).copied()
    }

    /// The last place before one that has its number.
    pub(crate) fn before(&self, place: usize) -> Option<usize>
        requires inside { place < length self.now }
        ensures { result ≡ latest (slice_index self.now place) (take place self.now) }
    {
        self.links[place].before
    }

    /// One place more. An `Err` changes nothing.
    pub(crate) fn push(&mut self, number: u64) -> Result<(), OutOfMemory>
        ensures ok { OnOk result (self.new ≡ self.old ++ number ∷ []) }
        ensures err { OnErr result (self.new ≡ self.old) }
    {
        let place = self.links.len();
        self.links.reserve(1)?;
        let before = self.newest.insert(number, place)?;
        self.links.push_reserved(Link { number, before });
        Ok(())
    }
}
