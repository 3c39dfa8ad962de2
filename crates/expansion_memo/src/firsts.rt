//! The keys that calls read first, by the numbers of the calls: nearly always one for all equal calls.
ghost use Rattle.std.specs.Prelude.{◌≡◌, ◌<◌, [], IsTrue, OnOk, IfOk, length, take, slice_index, slice_index_or, option_map};
ghost use Rattle.kept_values.specs.Trees.{Tree};
ghost use Rattle.asking_core.specs.Places.{pairs_of};
ghost use Rattle.expansion_memo.specs.Kept.{first_key, IsListed};
ghost use Rattle.expansion_memo.specs.Latest.{latest};
ghost use Rattle.expansion_memo.specs.Firsts.{StaysListed};

use crate::number_index::NumberIndex;
use asking_core::Noted;
use hl_base::OutOfMemory;
use kept_values::Kept;
use std::alloc::Global;
use std::marker::Model;

/// Numbers of calls, each with the key that a call of it read first, if it read any.
#[derive(Drop)]
pub(crate) struct Firsts<K: Kept> {
    numbers: NumberIndex,
    keys: Vec<Option<K>>,
}

impl<K: Kept> Model for Firsts<K> {
    ghost use Rattle.std.specs.Prelude.{◌≡◌, length};
    ghost use Rattle.expansion_memo.specs.Firsts.{FirstKeys, firsts_code, keys_of};

    ghost Value = { FirstKeys };

    ghost coded = { firsts_code };

    ghost view = { λ f. record { numbers = f.numbers; keys = keys_of K.code f.keys.items } };

    ghost invariant = { λ f. length f.numbers ≡ length f.keys.items };
}

/// Whether a key is the one that was read first.
fn is_first<K: Kept, V: Kept>(key: &Option<K>, read: &[Noted<K, V>]) -> bool
    ensures { IsTrue result → option_map K.code key.now ≡ first_key (pairs_of K.code V.code read.now) }
{
    if read.len() == 0 {
        return key.is_none();
    }
    match key {
        Some(key) => key.same(&read[0].key),
        None => false,
    }
}

/// The key that was read first.
fn copy_first<K: Kept, V: Kept>(
    alloc: Global,
    read: &[Noted<K, V>],
) -> Result<Option<K>, OutOfMemory>
    ensures { IfOk result (λ key. option_map K.code key ≡ first_key (pairs_of K.code V.code read.now)) }
{
    if read.len() == 0 {
        return Ok(None);
    }
    Ok(Some(read[0].key.copy(alloc)?))
}

impl<K: Kept> Firsts<K> {
    /// Nothing is listed.
    pub(crate) fn new(alloc: Global) -> Firsts<K>
        ensures { result ≡ record { numbers = []; keys = [] } }
    {
        Firsts {
            numbers: NumberIndex::new(alloc),
            keys: Vec::new(alloc),
        }
    }

    /// The last place of a number.
    pub(crate) fn last(&self, number: u64) -> Option<usize>
        ensures { result ≡ latest number self.now.numbers }
    {
        self.numbers.last(number)
    }

    /// The last place before one that has its number.
    pub(crate) fn before(&self, place: usize) -> Option<usize>
        requires inside { place < length self.now.numbers }
        ensures { result ≡ latest (slice_index self.now.numbers place) (take place self.now.numbers) }
    {
        self.numbers.before(place)
    }

    /// The key at a place.
    pub(crate) fn key(&self, place: usize) -> &Option<K>
        requires inside { place < length self.now.numbers }
        ensures { option_map K.code result.now ≡ slice_index_or self.now.keys place None }
    {
        &self.keys[place]
    }

    /// Lists the key that a call of this number read first, unless it is listed. What was listed stays.
    pub(crate) fn list<V: Kept>(
        &mut self,
        alloc: Global,
        number: u64,
        read: &[Noted<K, V>],
    ) -> Result<(), OutOfMemory>
        ensures listed { OnOk result (IsListed self.new.numbers self.new.keys number (first_key (pairs_of K.code V.code read.now))) }
        ensures stays { StaysListed self.old self.new }
    {
        if self.is_listed(number, read) {
            return Ok(());
        }
        let key = copy_first(alloc, read)?;
        self.push(number, key)
    }

    /// One key more.
    fn push(&mut self, number: u64, key: Option<K>) -> Result<(), OutOfMemory>
        ensures listed { OnOk result (IsListed self.new.numbers self.new.keys number (option_map K.code key)) }
        ensures stays { StaysListed self.old self.new }
    {
        self.keys.reserve(1)?;
        self.numbers.push(number)?;
        self.keys.push_reserved(key);
        Ok(())
    }

    /// Whether the key is listed. It is compared with those of its number alone.
    fn is_listed<V: Kept>(&self, number: u64, read: &[Noted<K, V>]) -> bool
        ensures { IsTrue result → IsListed self.now.numbers self.now.keys number (first_key (pairs_of K.code V.code read.now)) }
    {
        let mut next = self.numbers.last(number);
        while let Some(place) = next {
            if is_first(&self.keys[place], read) {
                return true;
            }
            next = self.numbers.before(place);
        }
        false
    }
}
