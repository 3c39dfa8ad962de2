//! Links by their numbers, each in the list of its left and of its right number.
ghost use Rattle.std.specs.Prelude.{◌≡◌, List, [], ◌∷◌, Some, None, length, IfOk, IfErr, OnErr, IfSome};
ghost use Rattle.std.specs.Option.{option_map, ForSome};
ghost use Rattle.slab.specs.Slab.{get, HasRoomFor, SameValues};
ghost use Rattle.chain_arena.specs.Lists.{list_at, first_of, after, SameLists};
ghost use Rattle.chain_arena.specs.Index.{IsReady};
ghost use Rattle.chain_arena.specs.Chains.{IsLive, HasLeft, HasRight, AreListed, IsSame, IsAdded, IsUnlinked, IsCleared};

use crate::index::IndexLists;
use crate::link::{Link, LinkId};
use hl_base::OutOfMemory;
use slab::Slab;
use std::alloc::Global;
use std::marker::Model;

/// Links that stand in two lists each. Contracts see the live links by their numbers, and for each left and each right
/// number the list of its links, which is empty until one is added.
#[derive(Drop)]
pub struct Chains<T> {
    links: Slab<Link<T>>,
    lefts: IndexLists,
    rights: IndexLists,
}

impl<T> Model for Chains<T> {
    ghost use Rattle.chain_arena.specs.Chains.{Chains, AreListed};

    ghost Value = { Chains T };

    ghost view = { λ c. record { links = c.links; lefts = c.lefts.lists; rights = c.rights.lists } };

    ghost invariant = { λ c. AreListed (record { links = c.links; lefts = c.lefts.lists; rights = c.rights.lists }) };
}

impl<T> Chains<T> {
    /// No link. It takes no memory.
    pub fn new(alloc: Global) -> Chains<T>
        ensures links { result.links.slots ≡ [] }
        ensures lefts { SameLists [] result.lefts }
        ensures rights { SameLists [] result.rights }
    {
        Chains {
            links: Slab::new(alloc),
            lefts: IndexLists::new(alloc),
            rights: IndexLists::new(alloc),
        }
    }

    /// Adds a link, the last in the list of its left and of its right number. An `Err` gives the item back and changes
    /// nothing; it comes also where all numbers of links are in use. The lists take memory by the greatest left and the
    /// greatest right number that was ever given, so numbers should be small.
    pub fn add(&mut self, _alloc: Global, left: u32, right: u32, item: T) -> Result<LinkId, T>
        ensures ok { IfOk result (λ id. IsAdded self.old self.new (record { left = left; right = right; item = item }) id.0) }
        ensures err { OnErr result (IsSame self.old self.new) }
        ensures returned { IfErr result (λ back. back ≡ item) }
    {
        let Ok(number) = prepare(
            &mut self.links,
            &mut self.lefts,
            &mut self.rights,
            left,
            right,
        ) else {
            return Err(item);
        };
        self.links.insert_reserved(Link { left, right, item });
        self.lefts.push_last(left, number);
        self.rights.push_last(right, number);
        Ok(LinkId(number))
    }

    /// Takes a link out of both of its lists, and gives what it carried.
    pub fn unlink(&mut self, link: LinkId) -> T
        requires live { IsLive self.old link.0 }
        ensures item { IfSome (get self.old.links link.0) (λ was. result ≡ was.item) }
        ensures unlinked { IfSome (get self.old.links link.0) (λ was. IsUnlinked self.old self.new link.0 was) }
    {
        let Link { left, right, item } = self.links.remove(link.0 as usize);
        self.lefts.remove(left, link.0);
        self.rights.remove(right, link.0);
        item
    }

    /// The first link of a left number.
    pub fn first_left(&self, left: u32) -> Option<LinkId>
        ensures first { option_map (λ id. id.0) result ≡ first_of (list_at self.now.lefts left) }
        ensures live { IfSome result (λ id. HasLeft self.now left id.0) }
    {
        match self.lefts.first(left) {
            Some(number) => Some(LinkId(number)),
            None => None,
        }
    }

    /// The next link of the same left number.
    pub fn next_left(&self, link: LinkId) -> Option<LinkId>
        requires live { IsLive self.now link.0 }
        ensures next { IfSome (get self.now.links link.0) (λ this.
            option_map (λ id. id.0) result ≡ after link.0 (list_at self.now.lefts this.left)) }
        ensures live { ForSome (get self.now.links link.0) (λ this. IfSome result (λ id. HasLeft self.now this.left id.0)) }
    {
        match self.lefts.next(link.0) {
            Some(number) => Some(LinkId(number)),
            None => None,
        }
    }

    /// The first link of a right number.
    pub fn first_right(&self, right: u32) -> Option<LinkId>
        ensures first { option_map (λ id. id.0) result ≡ first_of (list_at self.now.rights right) }
        ensures live { IfSome result (λ id. HasRight self.now right id.0) }
    {
        match self.rights.first(right) {
            Some(number) => Some(LinkId(number)),
            None => None,
        }
    }

    /// The next link of the same right number.
    pub fn next_right(&self, link: LinkId) -> Option<LinkId>
        requires live { IsLive self.now link.0 }
        ensures next { IfSome (get self.now.links link.0) (λ this.
            option_map (λ id. id.0) result ≡ after link.0 (list_at self.now.rights this.right)) }
        ensures live { ForSome (get self.now.links link.0) (λ this. IfSome result (λ id. HasRight self.now this.right id.0)) }
    {
        match self.rights.next(link.0) {
            Some(number) => Some(LinkId(number)),
            None => None,
        }
    }

    /// What a link carries.
    pub fn item(&self, link: LinkId) -> &T
        requires live { IsLive self.now link.0 }
        ensures { IfSome (get self.now.links link.0) (λ this. result.now ≡ this.item) }
    {
        &self.links[link.0 as usize].item
    }
}

impl<T: Drop> Chains<T> {
    /// Takes out every link of a right number, and gives their number.
    pub fn unlink_right(&mut self, right: u32) -> u32
        ensures count { result ≡ length (list_at self.old.rights right) }
        ensures cleared { IsCleared self.old self.new right }
    {
        let count = self.rights.count(right);
        while let Some(link) = self.first_right(right) {
            links_are_listed(self);
            let _ = self.unlink(link);
        }
        count
    }
}

/// The list of each number has the live links of that number, and nothing else. It does nothing; its contract is the
/// claim.
pub fn links_are_listed<T>(chains: &Chains<T>)
    ensures { AreListed chains.now }
{
    let _ = &chains.links;
}

/// The number of the next link, once there is memory for it and for its places in both lists.
fn prepare<T>(
    links: &mut Slab<Link<T>>,
    lefts: &mut IndexLists,
    rights: &mut IndexLists,
    left: u32,
    right: u32,
) -> Result<u32, OutOfMemory>
    ensures links { SameValues links.old links.new }
    ensures lefts { SameLists lefts.old.lists lefts.new.lists }
    ensures rights { SameLists rights.old.lists rights.new.lists }
    ensures number { IfOk result (λ id. id ≡ links.new.vacant_key) }
    ensures room { IfOk result (λ _. HasRoomFor links.new 1) }
    ensures left { IfOk result (λ id. IsReady lefts.new left id) }
    ensures right { IfOk result (λ id. IsReady rights.new right id) }
{
    let Ok(number) = u32::try_from(links.vacant_key()) else {
        return Err(OutOfMemory);
    };
    links.reserve(1)?;
    lefts.prepare(left, number)?;
    rights.prepare(right, number)?;
    Ok(number)
}
