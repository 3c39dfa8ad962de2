//! The kept outcomes, and how one that holds is found.
ghost use Rattle.std.specs.Prelude.{◌≡◌, ◌≤◌, Some, [], ◌∷◌, ◌++◌, IfOk, OnOk, OnErr, MatchOption, map, option_map};
ghost use Rattle.expansion_memo.specs.Entries.{kept_by, kept_of};
ghost use Rattle.asking_core.specs.Runs.{deepest_depth};
ghost use Rattle.expansion_memo.specs.Kept.{HoldsThere, NoneHolds, kept_at, while_live};

use crate::entry::Entry;
use crate::find::{find_under, found_number, here_number};
use crate::firsts::Firsts;
use crate::number_index::NumberIndex;
use asking_core::World;
use hl_base::OutOfMemory;
use kept_values::Kept;
use std::alloc::Global;
use std::marker::Model;
use trace_arena::TraceArena;

/// Kept outcomes. Contracts see the list of them, with nothing at the places of those that were given up.
#[derive(Drop)]
pub(crate) struct Table<C: Kept, K: Kept, V: Kept> {
    entries: Vec<Option<Entry<C, K, V>>>,
    // The numbers under which the entries are found.
    answers: NumberIndex,
    firsts: Firsts<K>,
}

impl<C: Kept, K: Kept, V: Kept> Model for Table<C, K, V> {
    ghost use Rattle.std.specs.Prelude.{Option, List};
    ghost use Rattle.expansion_memo.specs.Kept.{KeptOutcome};
    ghost use Rattle.expansion_memo.specs.Codes.{kept_code};

    ghost Value = { List (Option KeptOutcome) };

    ghost coded = { kept_code };

    ghost use Rattle.expansion_memo.specs.Entries.{kept_of, IsFindable};

    ghost view = { λ t. kept_of C.code t.entries.items };

    ghost invariant = { λ t. IsFindable C.number_of V.number_of (kept_of C.code t.entries.items) t.answers t.firsts.numbers t.firsts.keys };
}

impl<C: Kept, K: Kept, V: Kept> Table<C, K, V> {
    /// Nothing is kept.
    pub(crate) fn new(alloc: Global) -> Table<C, K, V>
        ensures { result ≡ [] }
    {
        Table {
            entries: Vec::new(alloc),
            answers: NumberIndex::new(alloc),
            firsts: Firsts::new(alloc),
        }
    }

    /// The entry at a place.
    pub(crate) fn entry(&self, place: usize) -> Option<&Entry<C, K, V>>
        ensures { option_map (λ e. kept_by C.code e.now) result ≡ kept_at self.now place }
    {
        if place >= self.entries.len() {
            return None;
        }
        self.entries[place].as_ref()
    }

    /// Where an outcome of an equal call is kept that holds, the newest first.
    pub(crate) fn find<W: World<Key = K, Value = V>>(
        &self,
        alloc: Global,
        call: &C,
        world: &mut W,
        fuel: u32,
        depth: u32,
    ) -> Result<Option<usize>, OutOfMemory>
        requires depth { depth ≤ deepest_depth }
        ensures found { IfOk result (λ r. MatchOption r
            (NoneHolds W.model (W.state world.old) fuel depth (C.code call.now) self.now)
            (HoldsThere W.model (W.state world.old) fuel depth (C.code call.now) self.now)) }
        ensures kept { W.state world.new ≡ W.state world.old }
    {
        let start = call.number();
        let entries = self.entries.as_slice();
        let mut next = self.firsts.last(start);
        while let Some(first) = next {
            let number = here_number(alloc, start, self.firsts.key(first), world)?;
            let found = find_under(
                alloc,
                entries,
                &self.answers,
                number,
                call,
                world,
                fuel,
                depth,
            )?;
            if let Some(place) = found {
                return Ok(Some(place));
            }
            next = self.firsts.before(first);
        }
        Ok(None)
    }

    /// One outcome more is kept. An `Err` changes nothing.
    pub(crate) fn keep(&mut self, alloc: Global, entry: Entry<C, K, V>) -> Result<(), OutOfMemory>
        ensures ok { OnOk result (self.new ≡ self.old ++ Some (kept_by C.code entry) ∷ []) }
        ensures err { OnErr result (self.new ≡ self.old) }
    {
        let start = entry.call.number();
        let read = entry.summary.read().as_slice();
        let number = found_number(start, read);
        self.entries.reserve(1)?;
        self.firsts.list(alloc, start, read)?;
        self.answers.push(number)?;
        self.entries.push_reserved(Some(entry));
        Ok(())
    }

    /// Gives up the outcomes whose nodes are no longer live. It takes no memory.
    pub(crate) fn give_up_dead<I: Drop>(&mut self, arena: &TraceArena<I>)
        ensures { self.new ≡ map (while_live arena.now.nodes) self.old }
    {
        give_up_all(&mut self.entries, arena);
    }
}

/// Gives up an entry, if there is one and its node is no longer live.
fn give_up<C: Kept, K: Kept, V: Kept, I: Drop>(
    entry: &mut Option<Entry<C, K, V>>,
    arena: &TraceArena<I>,
)
    ensures { option_map (kept_by C.code) entry.new ≡ while_live arena.now.nodes (option_map (kept_by C.code) entry.old) }
{
    let dead = match entry {
        Some(entry) => !arena.live(entry.node),
        None => false,
    };
    if dead {
        *entry = None;
    }
}

/// Gives up all entries whose nodes are no longer live.
fn give_up_all<C: Kept, K: Kept, V: Kept, I: Drop>(
    entries: &mut Vec<Option<Entry<C, K, V>>>,
    arena: &TraceArena<I>,
)
    ensures { kept_of C.code entries.new.items ≡ map (while_live arena.now.nodes) (kept_of C.code entries.old.items) }
{
    for place in 0..entries.len() {
        give_up(&mut entries[place], arena);
    }
}
