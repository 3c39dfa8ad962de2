//! What was put, by keys.
ghost use Rattle.std.specs.Prelude.{◌≡◌, ℕ, Option, Some, None, OnOk, OnErr, option_map};
ghost use Rattle.kept_values.specs.Trees.{Tree, Pair, look_up};
ghost use Rattle.kept_values.specs.Keys.{key_tree};
ghost use Rattle.call_sites.specs.Values.{known_tree};
ghost use Rattle.asking_core.specs.Places.{pairs_of};
ghost use Rattle.program_world.specs.World.{with_put};
ghost use Rattle.program_world.specs.Puts.{IsPut, Finds};

use asking_core::Noted;
use call_sites::Known;
use hl_base::{Key, OutOfMemory};
use kept_values::Kept;
use std::alloc::Global;
use std::collections::HashMap;

/// What was put: the pairs of keys and values by the numbers of the keys. Nearly always one key has a number.
#[derive(Drop)]
pub(crate) struct Puts {
    pub(crate) by_number: HashMap<u64, Vec<Noted<Key, Known>>>,
}

/// The place of a key among pairs.
fn place_in(pairs: &[Noted<Key, Known>], key: &Key) -> Option<usize>
    ensures { Finds (pairs_of key_tree known_tree pairs.now) (key_tree key.now) result }
{
    for (place, noted) in pairs.iter().enumerate() {
        if noted.key.same(key) {
            return Some(place);
        }
    }
    None
}

/// Puts a value among the pairs of its key's number. An `Err` changes nothing.
fn put_among(pairs: &mut Vec<Noted<Key, Known>>, key: Key, value: Known) -> Result<(), OutOfMemory>
    ensures ok { OnOk result (IsPut (pairs_of key_tree known_tree pairs.old.items) (pairs_of key_tree known_tree pairs.new.items) (key_tree key) (known_tree value)) }
    ensures err { OnErr result (pairs.new.items ≡ pairs.old.items) }
{
    match place_in(pairs.as_slice(), &key) {
        Some(place) => pairs[place] = Noted { key, value },
        None => pairs.push(Noted { key, value })?,
    }
    Ok(())
}

impl Puts {
    ghost use Rattle.program_world.specs.Puts.{held_by};

    /// Nothing was put.
    pub(crate) fn new(alloc: Global) -> Puts
        ensures { held_by result ≡ (λ _. None) }
    {
        Puts {
            by_number: HashMap::new(alloc),
        }
    }

    /// What was put for a key.
    pub(crate) fn get(&self, key: &Key) -> Option<&Known>
        ensures { option_map (λ value. known_tree value.now) result ≡ held_by self.now (key_tree key.now) }
    {
        let pairs = self.by_number.get(&key.number())?;
        let place = place_in(pairs.as_slice(), key)?;
        Some(&pairs[place].value)
    }

    /// Puts a value for a key. An `Err` changes nothing.
    pub(crate) fn put(&mut self, alloc: Global, key: Key, value: Known) -> Result<(), OutOfMemory>
        ensures ok { OnOk result (held_by self.new ≡ with_put (held_by self.old) (key_tree key) (known_tree value)) }
        ensures err { OnErr result (held_by self.new ≡ held_by self.old) }
    {
        let number = key.number();
        if let Some(pairs) = self.by_number.get_mut(&number) {
            return put_among(pairs, key, value);
        }
        let mut pairs = Vec::with_capacity(alloc, 1)?;
        pairs.push(Noted { key, value })?;
        self.by_number.insert(number, pairs)?;
        Ok(())
    }
}
