//! Lists of indices that lead forward and backward, over memory that is taken before it is needed.
ghost use Rattle.std.specs.Prelude.{ℕ, ◌≡◌, ◌+◌, ◌<◌, ◌≤◌, max, [], ◌∷◌, ◌++◌, length, OnOk, OnErr};
ghost use Rattle.std.specs.Option.{ForSome};
ghost use Rattle.chain_arena.specs.Lists.{list_at, first_of, after, without, IsIn, SameLists, Changes};
ghost use Rattle.chain_arena.specs.Index.{IsReady, IsUnlisted, IsListed, at, head_at, pointed, choose};

use hl_base::OutOfMemory;
use std::alloc::Global;
use std::marker::Model;

/// The ends of one list, and how many indices stand in it.
#[derive(Clone, Copy)]
pub(crate) struct Head {
    first: Option<u32>,
    last: Option<u32>,
    len: u32,
}

/// Lists under numbers. An index stands in one of them at most.
#[derive(Drop)]
pub(crate) struct IndexLists {
    heads: Vec<Head>,
    nexts: Vec<Option<u32>>,
    previous: Vec<Option<u32>>,
}

impl Model for IndexLists {
    ghost use Rattle.chain_arena.specs.Index.{Lists, lists_of, IsIndex};

    ghost Value = { Lists };

    ghost view = { λ s. lists_of s.heads.items s.nexts.items };

    ghost invariant = { λ s. IsIndex s.heads.items s.nexts.items s.previous.items };
}

impl IndexLists {
    pub(crate) fn new(alloc: Global) -> IndexLists
        ensures { SameLists [] result.lists }
    {
        IndexLists {
            heads: Vec::new(alloc),
            nexts: Vec::new(alloc),
            previous: Vec::new(alloc),
        }
    }

    /// Takes the memory for an index in a list. An `Err` comes also where one more could not be counted there.
    pub(crate) fn prepare(&mut self, list: u32, index: u32) -> Result<(), OutOfMemory>
        ensures ready { OnOk result (IsReady self.new list index) }
        ensures same { SameLists self.old.lists self.new.lists }
    {
        self.cover(list)?;
        self.make_room(index)?;
        if self.count(list) == u32::MAX {
            return Err(OutOfMemory);
        }
        Ok(())
    }

    /// Adds an index that stands in no list behind those of this one.
    pub(crate) fn push_last(&mut self, list: u32, index: u32)
        requires ready { IsReady self.old list index }
        requires unlisted { IsUnlisted self.old index }
        ensures changes { Changes self.old.lists self.new.lists list (list_at self.old.lists list ++ index ∷ []) }
    {
        let head = self.heads[list as usize];
        point(&mut self.nexts, Some(index), None);
        point(&mut self.previous, Some(index), head.last);
        point(&mut self.nexts, head.last, Some(index));
        let first = choose(head.last, Some(index), head.first);
        let len = head.len + 1;
        self.heads[list as usize] = Head {
            first,
            last: Some(index),
            len,
        };
    }

    /// Takes an index out of its list.
    pub(crate) fn remove(&mut self, list: u32, index: u32)
        requires listed { IsIn index (list_at self.old.lists list) }
        ensures changes { Changes self.old.lists self.new.lists list (without index (list_at self.old.lists list)) }
        ensures unlisted { IsUnlisted self.new index }
    {
        let head = self.heads[list as usize];
        let before = self.previous[index as usize];
        let behind = self.nexts[index as usize];
        point(&mut self.nexts, before, behind);
        point(&mut self.previous, behind, before);
        let first = choose(before, behind, head.first);
        let last = choose(behind, before, head.last);
        let len = head.len - 1;
        self.heads[list as usize] = Head { first, last, len };
    }

    /// The first of a list.
    pub(crate) fn first(&self, list: u32) -> Option<u32>
        ensures { result ≡ first_of (list_at self.now.lists list) }
    {
        match self.heads.get(list as usize) {
            Some(head) => head.first,
            None => None,
        }
    }

    /// The one behind an index in its list.
    pub(crate) fn next(&self, index: u32) -> Option<u32>
        requires listed { IsListed self.now index }
        ensures { (n : ℕ) → IsIn index (list_at self.now.lists n) → result ≡ after index (list_at self.now.lists n) }
    {
        self.nexts[index as usize]
    }

    /// How many indices stand in a list.
    pub(crate) fn count(&self, list: u32) -> u32
        ensures { result ≡ length (list_at self.now.lists list) }
    {
        match self.heads.get(list as usize) {
            Some(head) => head.len,
            None => 0,
        }
    }

    /// Takes the memory for a list.
    fn cover(&mut self, list: u32) -> Result<(), OutOfMemory>
        ensures covered { OnOk result (list < length self.new.lists) }
        ensures same { SameLists self.old.lists self.new.lists }
        ensures room { self.new.room ≡ self.old.room }
    {
        extend_heads(&mut self.heads, list as usize + 1)
    }

    /// Takes the memory for an index.
    fn make_room(&mut self, index: u32) -> Result<(), OutOfMemory>
        ensures room { OnOk result (index < self.new.room) }
        ensures same { self.new.lists ≡ self.old.lists }
    {
        extend_links(&mut self.previous, index as usize + 1)?;
        extend_links(&mut self.nexts, index as usize + 1)
    }
}

/// Has so many heads at least; those that come are of empty lists.
fn extend_heads(heads: &mut Vec<Head>, len: usize) -> Result<(), OutOfMemory>
    ensures long { OnOk result (len ≤ length heads.new.items) }
    ensures same { (n : ℕ) → head_at heads.new.items n ≡ head_at heads.old.items n }
{
    if heads.len() < len {
        let none = Head {
            first: None,
            last: None,
            len: 0,
        };
        heads.resize(len, none)?;
    }
    Ok(())
}

/// Has so many neighbours at least; those that come are none.
fn extend_links(links: &mut Vec<Option<u32>>, len: usize) -> Result<(), OutOfMemory>
    ensures long { OnOk result (length links.new.items ≡ max (length links.old.items) len) }
    ensures same { (x : ℕ) → at links.new.items x ≡ at links.old.items x }
    ensures kept { OnErr result (links.new.items ≡ links.old.items) }
{
    if links.len() < len {
        links.resize(len, None)?;
    }
    Ok(())
}

/// Writes the neighbour of an index, if there is one to write at.
fn point(links: &mut Vec<Option<u32>>, from: Option<u32>, to: Option<u32>)
    requires within { ForSome from (λ x. x < length links.old.items) }
    ensures { links.new.items ≡ pointed links.old.items from to }
{
    if let Some(index) = from {
        links[index as usize] = to;
    }
}

/// The end of a list: the one that is given, where it has no neighbour, and else the one that it was.
fn choose(neighbour: Option<u32>, given: Option<u32>, was: Option<u32>) -> Option<u32>
    ensures { result ≡ choose neighbour given was }
{
    match neighbour {
        None => given,
        Some(_) => was,
    }
}
