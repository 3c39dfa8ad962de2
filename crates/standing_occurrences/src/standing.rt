//! Occurrences of which each is the first of its place.
ghost use Rattle.std.specs.Prelude.{◌≡◌, ◌<◌, [], ◌∷◌, ◌++◌, IfOk, OnOk, OnErr, vec_len, vec_capacity};
ghost use Rattle.standing_occurrences.specs.Standing.{standing, with_first};

use crate::place::Place;
use hl_base::OutOfMemory;
use indexmap::IndexSet;
use std::alloc::Global;
use std::marker::Model;
use trace_values::Occurrence;

/// The occurrences that stand, in the order of processing. Contracts see the list.
#[derive(Drop)]
pub struct Standing {
    occurrences: Vec<Occurrence>,
    // The place of each, in the same order.
    places: IndexSet<Place>,
}

impl Model for Standing {
    ghost use Rattle.std.specs.Prelude.{◌≡◌, List, map};
    ghost use Rattle.trace_values.specs.declared.occurrence.Occurrence.{Occurrence};
    ghost use Rattle.standing_occurrences.specs.Kept.{place_of};

    ghost Value = { List Occurrence };

    ghost view = { λ s. s.occurrences.items };

    ghost invariant = { λ s. s.places.keys ≡ map place_of s.occurrences.items };
}

impl Standing {
    /// No occurrence. It takes no memory.
    pub fn new(alloc: Global) -> Standing
        ensures { result ≡ [] }
    {
        Standing {
            occurrences: Vec::new(alloc),
            places: IndexSet::new(alloc),
        }
    }

    /// An occurrence comes behind those that were taken: it stands if no other stands at its place. An `Err` changes
    /// nothing.
    pub fn push(&mut self, occurrence: Occurrence) -> Result<(), OutOfMemory>
        ensures ok { OnOk result (self.new ≡ with_first self.old occurrence) }
        ensures err { OnErr result (self.new ≡ self.old) }
    {
        self.occurrences.reserve(1)?;
        if self.places.insert(Place::of(&occurrence))? {
            push_within(&mut self.occurrences, occurrence);
        }
        Ok(())
    }

    /// Those of some occurrences that stand.
    pub fn of(alloc: Global, occurrences: &[Occurrence]) -> Result<Standing, OutOfMemory>
        ensures { IfOk result (λ kept. kept ≡ standing occurrences.now) }
    {
        let mut kept = Standing::new(alloc);
        for occurrence in occurrences {
            kept.push(occurrence.copy())?;
        }
        Ok(kept)
    }

    /// Those that stand, in the order of processing.
    pub fn as_slice(&self) -> &[Occurrence]
        ensures { result.now ≡ self.now }
    {
        self.occurrences.as_slice()
    }
}

/// An occurrence goes last, for which there is room.
fn push_within(occurrences: &mut Vec<Occurrence>, occurrence: Occurrence)
    requires { vec_len occurrences.old < vec_capacity occurrences.old }
    ensures { occurrences.new.items ≡ occurrences.old.items ++ occurrence ∷ [] }
{
    occurrences.push_reserved(occurrence);
}
