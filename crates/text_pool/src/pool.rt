//! The pool: a text is found by its number, and its number by the text.
ghost use Rattle.std.specs.Prelude.{ℕ, ◌≡◌, ◌↔◌, ◌+◌, ◌-◌, ◌<◌, ◌≤◌, ◌^◌, length, IfOk, OnErr, IsErrOf, encode_utf8_all, slice_get};
ghost use Rattle.std.specs.Str.{chars, IsUtf8};
ghost use Rattle.std.specs.String.{string_bytes, string_len};
ghost use Rattle.std.specs.Rc.{rc_str_bytes};
ghost use Rattle.std.specs.Option.{option_map};
ghost use Rattle.std.specs.FinMap as map;
ghost use Rattle.hl_base.specs.Texts as texts;
ghost use Rattle.text_pool.specs.Marks.{mark_of};
ghost use Rattle.text_pool.specs.Pool.{IsLive, text_of, owners_of, with_owners, IsInterned, TextsDiffer, AllOwned};
ghost use Rattle.text_pool.specs.declared.fault.PoolFault.TheVariants.{TooLong};

use crate::PoolFault;
use crate::entry::{Entry, Key};
use crate::starts::{line_at, line_starts};
use hl_base::{OutOfMemory, TextId};
use slab::Slab;
use std::alloc::Global;
use std::collections::BTreeMap;
use std::marker::Model;
use std::rc::RcStr;

/// The greatest length of a text, in bytes of UTF-8.
pub const LONGEST_TEXT: usize = 4 * 1024 * 1024;

/// Texts, each held once, with a count of its owners. Contracts see the map of the live numbers.
#[derive(Drop)]
pub struct TextPool {
    entries: Slab<Entry>,
    // The numbers of the entries by their texts, which share their memory.
    numbers: BTreeMap<Key, u32>,
    alloc: Global,
}

impl Model for TextPool {
    ghost use Rattle.text_pool.specs.Marks.{mark_of};
    ghost use Rattle.text_pool.specs.Pool.{Pool, pool_code};

    ghost Value = { Pool };

    ghost coded = { pool_code };

    ghost use Rattle.text_pool.specs.Entries.{pool_of, IsIndexed};

    ghost view = { λ p. pool_of p.entries };

    ghost invariant = { λ p. IsIndexed p.entries p.numbers };
}

impl TextPool {
    /// A pool where no text is live. It takes no memory.
    pub fn new(alloc: Global) -> TextPool
        ensures { result ≡ map.empty }
    {
        TextPool {
            entries: Slab::new(alloc),
            numbers: BTreeMap::new(alloc),
            alloc,
        }
    }

    /// The number of a text, which has one owner more: that of the equal live text, or one that was free. An `Err`
    /// changes nothing. Where all numbers are in use, or a text's count of owners is full, there is no memory.
    pub fn intern(&mut self, alloc: Global, text: &str) -> Result<TextId, PoolFault>
        ensures too_long { IsErrOf result TooLong ↔ LONGEST_TEXT < length text.now }
        ensures interned { IfOk result (λ id. IsInterned self.old self.new (chars text.now) id.0) }
        ensures kept { OnErr result (self.new ≡ self.old) }
    {
        if text.len() > LONGEST_TEXT {
            return Err(PoolFault::TooLong);
        }
        let key = Key::of(RcStr::from_str(alloc, text)?);
        self.take_in(key)
    }

    /// The same of a text that is given away: the pool holds it and makes no copy.
    pub fn intern_owned(&mut self, text: String) -> Result<TextId, PoolFault>
        ensures too_long { IsErrOf result TooLong ↔ LONGEST_TEXT < string_len text }
        ensures interned { IfOk result (λ id. IsInterned self.old self.new (chars (string_bytes text)) id.0) }
        ensures kept { OnErr result (self.new ≡ self.old) }
    {
        if text.as_str().len() > LONGEST_TEXT {
            return Err(PoolFault::TooLong);
        }
        let key = Key::of(RcStr::from_string(text)?);
        self.take_in(key)
    }

    /// The text of a live number.
    pub fn text(&self, id: TextId) -> &str
        requires live { IsLive self.now id.0 }
        ensures characters { chars result.now ≡ text_of self.now id.0 }
        ensures bytes { result.now ≡ encode_utf8_all (text_of self.now id.0) }
        ensures short { length result.now ≤ LONGEST_TEXT }
    {
        self.entries[id.0 as usize].key.text.as_str()
    }

    /// A line of a live text, counted from 0, without its end (Language Server Protocol 3.17, "Text Documents"). The lines
    /// before it are not gone through.
    pub fn line(&self, id: TextId, n: u32) -> Option<&str>
        requires live { IsLive self.now id.0 }
        ensures { option_map (λ line. chars line.now) result ≡ slice_get (texts.lines (text_of self.now id.0)) n }
    {
        let entry = &self.entries[id.0 as usize];
        line_at(entry.key.text.as_str(), entry.starts.as_slice(), n)
    }

    /// The text of a live number for an owner that outlives the pool's. It is the pool's own copy, shared.
    pub fn shared(&self, _alloc: Global, id: TextId) -> Result<RcStr, OutOfMemory>
        requires live { IsLive self.now id.0 }
        ensures characters { IfOk result (λ text. chars (rc_str_bytes text) ≡ text_of self.now id.0) }
        ensures bytes { IfOk result (λ text. rc_str_bytes text ≡ encode_utf8_all (text_of self.now id.0)) }
    {
        Ok(self.entries[id.0 as usize].key.text.clone()?)
    }

    /// One owner more of a live text. It takes no memory.
    pub fn retain(&mut self, id: TextId)
        requires live { IsLive self.old id.0 }
        requires room { owners_of self.old id.0 < 2 ^ 64 - 1 }
        ensures { self.new ≡ with_owners self.old id.0 (owners_of self.old id.0 + 1) }
    {
        self.entries[id.0 as usize].owners += 1;
    }

    /// One owner less of a live text. With the last the number is free, and so is the memory of a text that is not
    /// shared.
    pub fn release(&mut self, id: TextId)
        requires live { IsLive self.old id.0 }
        ensures last { owners_of self.old id.0 ≡ 1 → self.new ≡ map.remove self.old id.0 }
        ensures others { 1 < owners_of self.old id.0 →
            self.new ≡ with_owners self.old id.0 (owners_of self.old id.0 - 1) }
    {
        let key = id.0 as usize;
        if self.owners(id) > 1 {
            self.entries[key].owners -= 1;
            return;
        }
        let entry = self.entries.remove(key);
        let _ = self.numbers.remove(&entry.key);
    }

    /// How many own a live text.
    fn owners(&self, id: TextId) -> u64
        requires live { IsLive self.now id.0 }
        ensures { result ≡ owners_of self.now id.0 }
    {
        self.entries[id.0 as usize].owners
    }

    /// One owner more of the live text of a number; no memory where its count is full.
    fn own(&mut self, number: u32) -> Result<TextId, PoolFault>
        requires live { IsLive self.old number }
        ensures ok { IfOk result (λ id. (id.0 ≡ number)
            × (self.new ≡ with_owners self.old number (owners_of self.old number + 1))) }
        ensures err { OnErr result (self.new ≡ self.old) }
        ensures short { ¬ (IsErrOf result TooLong) }
    {
        let id = TextId(number);
        if self.owners(id) == u64::MAX {
            return Err(PoolFault::OutOfMemory);
        }
        self.retain(id);
        Ok(id)
    }

    /// The number of a text that is not too long.
    fn take_in(&mut self, key: Key) -> Result<TextId, PoolFault>
        requires utf8 { IsUtf8 (rc_str_bytes key.text) }
        requires short { length (rc_str_bytes key.text) ≤ LONGEST_TEXT }
        requires marked { key.mark ≡ mark_of (rc_str_bytes key.text) }
        ensures ok { IfOk result (λ id. IsInterned self.old self.new (chars (rc_str_bytes key.text)) id.0) }
        ensures err { OnErr result (self.new ≡ self.old) }
        ensures short { ¬ (IsErrOf result TooLong) }
    {
        match self.numbers.get(&key) {
            Some(number) => {
                let number = *number;
                self.own(number)
            }
            None => self.admit(key),
        }
    }

    /// A free number for a text that is not live, with one owner.
    fn admit(&mut self, key: Key) -> Result<TextId, PoolFault>
        requires utf8 { IsUtf8 (rc_str_bytes key.text) }
        requires short { length (rc_str_bytes key.text) ≤ LONGEST_TEXT }
        requires marked { key.mark ≡ mark_of (rc_str_bytes key.text) }
        requires absent { (id : ℕ) → IsLive self.old id → ¬ (text_of self.old id ≡ chars (rc_str_bytes key.text)) }
        ensures ok { IfOk result (λ id. IsInterned self.old self.new (chars (rc_str_bytes key.text)) id.0) }
        ensures err { OnErr result (self.new ≡ self.old) }
        ensures short { ¬ (IsErrOf result TooLong) }
    {
        let Ok(number) = u32::try_from(self.entries.vacant_key()) else {
            return Err(PoolFault::OutOfMemory);
        };
        let starts = line_starts(self.alloc, key.text.as_str())?;
        let sought = Key {
            mark: key.mark,
            text: key.text.clone()?,
        };
        self.entries.reserve(1)?;
        self.numbers.insert(sought, number)?;
        let entry = Entry {
            key,
            starts,
            owners: 1,
        };
        self.entries.insert_reserved(entry);
        Ok(TextId(number))
    }
}

/// Equal live texts have equal numbers, and each has an owner. It does nothing; its contract is the claim.
pub fn live_texts_differ(pool: &TextPool)
    ensures differ { TextsDiffer pool.now }
    ensures owned { AllOwned pool.now }
{
    let _ = &pool.entries;
}
