//! Which kept outcome holds: that of the newest first, and none but those of an equal number and first answer are looked at.
ghost use Rattle.std.specs.Prelude.{◌≡◌, ◌↔◌, ℕ, ◌≤◌, IfOk, IsTrue, MatchOption, length, option_map};
ghost use Rattle.kept_values.specs.Trees.{mixed};
ghost use Rattle.asking_core.specs.Runs.{deepest_depth};
ghost use Rattle.asking_core.specs.Places.{pairs_of};
ghost use Rattle.expansion_memo.specs.Kept.{HoldsThere, found_number};
ghost use Rattle.expansion_memo.specs.Finding.{here_number, NoneUnder, HoldsIn};
ghost use Rattle.expansion_memo.specs.Entries.{kept_by, kept_of};

use crate::entry::Entry;
use crate::number_index::NumberIndex;
use asking_core::{Noted, World};
use hl_base::OutOfMemory;
use kept_values::Kept;
use std::alloc::Global;

/// FNV's factor for 64 bits.
const FACTOR: u64 = 1_099_511_628_211;

/// The number of what stood before, and of one number more.
fn mixed(start: u64, next: u64) -> u64
    ensures { result ≡ mixed start next }
{
    start.wrapping_mul(FACTOR).wrapping_add(next)
}

/// The number under which an outcome is found that read this.
pub(crate) fn found_number<K: Kept, V: Kept>(start: u64, read: &[Noted<K, V>]) -> u64
    ensures { result ≡ found_number start V.number_of (pairs_of K.code V.code read.now) }
{
    if read.len() == 0 {
        return start;
    }
    mixed(start, read[0].value.number())
}

/// The number under which an outcome that holds is found, where this key was read first.
pub(crate) fn here_number<K: Kept, V: Kept, W: World<Key = K, Value = V>>(
    alloc: Global,
    start: u64,
    key: &Option<K>,
    world: &mut W,
) -> Result<u64, OutOfMemory>
    ensures number { IfOk result (λ n. n ≡ here_number W.model (W.state world.old) start V.number_of (option_map K.code key.now)) }
    ensures kept { W.state world.new ≡ W.state world.old }
{
    match key {
        Some(key) => {
            let value = world.ask(alloc, key)?;
            Ok(mixed(start, value.number()))
        }
        None => Ok(start),
    }
}

/// The last place under a number at which a kept outcome of the call holds.
pub(crate) fn find_under<C: Kept, K: Kept, V: Kept, W: World<Key = K, Value = V>>(
    alloc: Global,
    entries: &[Option<Entry<C, K, V>>],
    answers: &NumberIndex,
    number: u64,
    call: &C,
    world: &mut W,
    fuel: u32,
    depth: u32,
) -> Result<Option<usize>, OutOfMemory>
    requires depth { depth ≤ deepest_depth }
    requires long { length answers.now ≡ length entries.now }
    ensures found { IfOk result (λ r. MatchOption r
        (NoneUnder W.model (W.state world.old) fuel depth (C.code call.now) (kept_of C.code entries.now) answers.now number)
        (HoldsThere W.model (W.state world.old) fuel depth (C.code call.now) (kept_of C.code entries.now))) }
    ensures kept { W.state world.new ≡ W.state world.old }
{
    let mut next = answers.last(number);
    while let Some(place) = next {
        if holds_there(alloc, &entries[place], call, world, fuel, depth)? {
            return Ok(Some(place));
        }
        next = answers.before(place);
    }
    Ok(None)
}

/// Whether an outcome is kept there, is one of this call and holds.
fn holds_there<C: Kept, K: Kept, V: Kept, W: World<Key = K, Value = V>>(
    alloc: Global,
    entry: &Option<Entry<C, K, V>>,
    call: &C,
    world: &mut W,
    fuel: u32,
    depth: u32,
) -> Result<bool, OutOfMemory>
    requires depth { depth ≤ deepest_depth }
    ensures answer { IfOk result (λ b. IsTrue b ↔ HoldsIn W.model (W.state world.old) fuel depth (C.code call.now) (option_map (kept_by C.code) entry.now)) }
    ensures kept { W.state world.new ≡ W.state world.old }
{
    match entry {
        Some(entry) => entry.holds(alloc, call, world, fuel, depth),
        None => Ok(false),
    }
}
