//! Footprints: what a run read of its world, each key once, in the order of the first questions.
ghost use Rattle.std.specs.Prelude.{◌≡◌, ◌↔◌, ℕ, ◌+◌, ◌<◌, ◌≤◌, [], ◌++◌, Bool, IfOk, OnOk, OnErr, IsTrue, length};
ghost use Rattle.kept_values.specs.Trees.{Tree, Pair};
ghost use Rattle.asking_core.specs.Worlds.{Holds};
ghost use Rattle.asking_core.specs.Footprints.{noted, merged};
ghost use Rattle.std.specs.Prelude.{is_some, true};
ghost use Rattle.asking_core.specs.Places.{few, StaysFound, IsFound, pairs_of};
ghost use Rattle.kept_values.specs.Trees.{look_up};

use crate::World;
use hl_base::OutOfMemory;
use kept_values::Kept;
use std::alloc::Global;
use std::collections::HashMap;
use std::marker::Model;

/// The first so many pairs are looked through one by one; those behind them are found by the numbers of their keys.
const FEW: usize = 8;

/// A key and the answer that was noted for it.
#[derive(Drop)]
pub struct Noted<K, V> {
    pub key: K,
    pub value: V,
}

/// What a run read of its world. Contracts see the list of its pairs.
#[derive(Drop)]
pub struct Footprint<K: Kept, V: Kept> {
    pairs: Vec<Noted<K, V>>,
    places: HashMap<u64, usize>,
}

impl<K: Kept, V: Kept> Model for Footprint<K, V> {
    ghost use Rattle.std.specs.Prelude.{List};
    ghost use Rattle.asking_core.specs.declared.footprint.Noted.{Noted};
    ghost use Rattle.asking_core.specs.Places.{AreFound, numbers_of};

    ghost Value = { List (Noted K V) };

    ghost view = { λ f. f.pairs.items };

    ghost invariant = { λ f. AreFound (numbers_of K.code K.number_of f.pairs.items) f.places };
}

/// Whether a key is among these pairs.
fn is_among<K: Kept, V: Kept>(pairs: &[Noted<K, V>], key: &K) -> bool
    ensures { result ≡ is_some (look_up (pairs_of K.code V.code pairs.now) (K.code key.now)) }
{
    for noted in pairs {
        if noted.key.same(key) {
            return true;
        }
    }
    false
}

/// Whether the pair at a place is there and has this key.
fn is_at<K: Kept, V: Kept>(pairs: &[Noted<K, V>], place: usize, key: &K) -> bool
    ensures { IsTrue result → is_some (look_up (pairs_of K.code V.code pairs.now) (K.code key.now)) ≡ true }
{
    if place >= pairs.len() {
        return false;
    }
    pairs[place].key.same(key)
}

/// Lets the number of the key that is noted at a place be found, where that is behind the first few.
fn let_find(places: &mut HashMap<u64, usize>, place: usize, number: u64) -> Result<(), OutOfMemory>
    ensures stays { StaysFound places.old places.new }
    ensures found { OnOk result (few ≤ place → IsFound places.new number) }
{
    if place >= FEW {
        places.insert(number, place)?;
    }
    Ok(())
}

impl<K: Kept, V: Kept> Footprint<K, V> {
    ghost use Rattle.asking_core.specs.Places.{pairs_of};

    /// Nothing is noted.
    pub fn new(alloc: Global) -> Footprint<K, V>
        ensures { result ≡ [] }
    {
        Footprint {
            pairs: Vec::new(alloc),
            places: HashMap::new(alloc),
        }
    }

    /// The pairs, in the order in which they were noted.
    pub fn as_slice(&self) -> &[Noted<K, V>]
        ensures { result.now ≡ self.now }
    {
        self.pairs.as_slice()
    }

    /// Whether a key is noted.
    pub fn is_noted(&self, key: &K) -> bool
        ensures { result ≡ is_some (look_up (pairs_of K.code V.code self.now) (K.code key.now)) }
    {
        let pairs = self.pairs.as_slice();
        if pairs.len() <= FEW {
            return is_among(pairs, key);
        }
        if is_among(&pairs[..FEW], key) {
            return true;
        }
        match self.places.get(&key.number()) {
            Some(place) => is_at(pairs, *place, key) || is_among(&pairs[FEW..], key),
            None => false,
        }
    }

    /// Notes the answer to a key, unless one is noted. An `Err` changes nothing.
    pub fn note_answer(&mut self, key: K, value: V) -> Result<(), OutOfMemory>
        ensures ok { OnOk result (pairs_of K.code V.code self.new ≡ noted (pairs_of K.code V.code self.old) (record { key = K.code key; value = V.code value })) }
        ensures err { OnErr result (self.new ≡ self.old) }
    {
        if self.is_noted(&key) {
            return Ok(());
        }
        let place = self.pairs.len();
        let_find(&mut self.places, place, key.number())?;
        self.pairs.push(Noted { key, value })?;
        Ok(())
    }

    /// Notes what a nested call read, pair by pair. Where there is no memory, the first of them may be noted.
    pub fn merge_child(&mut self, alloc: Global, child: &Footprint<K, V>) -> Result<(), OutOfMemory>
        ensures { OnOk result (pairs_of K.code V.code self.new ≡ merged (pairs_of K.code V.code self.old) (pairs_of K.code V.code child.now)) }
    {
        for noted in child.as_slice() {
            self.note_answer(noted.key.copy(alloc)?, noted.value.copy(alloc)?)?;
        }
        Ok(())
    }

    /// Whether a world answers each noted key as was noted. It asks no further than the first that it does not.
    pub fn holds_in<W: World<Key = K, Value = V>>(
        &self,
        alloc: Global,
        world: &mut W,
    ) -> Result<bool, OutOfMemory>
        ensures answer { IfOk result (λ b. IsTrue b ↔ Holds W.model (W.state world.old) (pairs_of K.code V.code self.now)) }
        ensures kept { W.state world.new ≡ W.state world.old }
    {
        for noted in self.pairs.as_slice() {
            let value = world.ask(alloc, &noted.key)?;
            if !value.same(&noted.value) {
                return Ok(false);
            }
        }
        Ok(true)
    }
}
