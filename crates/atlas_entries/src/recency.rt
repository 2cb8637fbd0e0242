//! Entries in the order of their use, by links between them: each call takes a few steps, however many entries there
//! are.
ghost use Rattle.std.specs.Prelude.{◌≡◌, ◌≢◌, ◌⊎◌, ◌+◌, ◌<◌, ◌≤◌, max, ℕ, List, [], ◌∷◌, ◌++◌, length, IsTrue, ◌↔◌, IfErr};
ghost use Rattle.std.specs.Prelude.{Err, IfOk, IfSome, IsOkUnless, OnErr, OnOk, vec_capacity};
ghost use Rattle.atlas_search.specs.Numbers.{occurs, without};
ghost use Rattle.atlas_entries.specs.Orders.{IsEntry, IsFreshNumber, newest_of, gone, with_newest, oldest_of};
ghost use Rattle.atlas_entries.specs.Orders.{used, with_reserve};
ghost use Rattle.atlas_entries.specs.Limits.{IsWithoutNumber};
ghost use Rattle.atlas_entries.specs.Rings.{HasSpare, IsInRing, IsRing, next_at, no_entry};
ghost use Rattle.atlas_entries.specs.declared.error.CacheError.TheVariants.{Memory, Numbers};

pub mod links;

use crate::error::CacheError;
use crate::recency::links::{Link, NO_ENTRY, push_front, read_link, set_next, unlink};
use std::alloc::{AllocError, Allocator, Global};
use std::marker::Model;

/// The numbers of entries in the order of their use. The number of an entry that is gone is given to a later one.
/// Contracts see an `Order`: the numbers, the most recently used first, how many were ever given out, and for how many more
/// entries there is memory in reserve.
#[derive(Drop)]
pub struct Recency<A: Allocator = Global> {
    links: Vec<Link, A>,
    ends: Link,
    unused: u32,
    count: usize,
    reserved: usize,
}

impl<A: Allocator> Model for Recency<A> {
    ghost use Rattle.std.specs.Prelude.{◌+◌, ◌≤◌, length, vec_capacity};
    ghost use Rattle.atlas_entries.specs.Orders.{Order};
    ghost use Rattle.atlas_entries.specs.Rings.{IsRecency, run};

    ghost Value = { Order };

    ghost view = { λ r. record {
      entries = run r.links.items r.ends r.count;
      made = length r.links.items;
      reserved = r.reserved;
    } };

    ghost invariant = { λ r. IsRecency r.links.items r.ends r.unused r.count
        × (r.count + r.reserved ≤ vec_capacity r.links) };
}

// The ends of an order with no entry.
const NO_ENDS: Link = Link {
    previous: NO_ENTRY,
    next: NO_ENTRY,
};

// An entry comes from where it stands to the front.
fn move_to_front(links: &mut [Link], ends: &mut Link, at: u32)
    requires listed { IsInRing links.old ends.old at }
    requires short { length links.old ≤ no_entry }
    ensures ring { (xs : List ℕ) → IsRing links.old ends.old xs → 0 < occurs at xs
        → IsRing links.new ends.new (at ∷ without at xs) }
    ensures others { (xs : List ℕ) (k : ℕ) → IsRing links.old ends.old xs → 0 < occurs at xs → k < length links.old
        → occurs k xs ≡ 0 → next_at links.new ends.new k ≡ next_at links.old ends.old k }
    ensures size { length links.new ≡ length links.old }
{
    unlink(links, ends, at);
    push_front(links, ends, at);
}

// An entry leaves the ring, and then stands before the numbers that belong to none.
fn give_back(links: &mut [Link], ends: &mut Link, at: u32, unused: u32)
    requires listed { IsInRing links.old ends.old at }
    requires short { length links.old ≤ no_entry }
    ensures ring { (xs : List ℕ) → IsRing links.old ends.old xs → 0 < occurs at xs
        → IsRing links.new ends.new (without at xs) }
    ensures own { next_at links.new ends.new at ≡ unused }
    ensures others { (xs : List ℕ) (k : ℕ) → IsRing links.old ends.old xs → 0 < occurs at xs → k < length links.old
        → occurs k xs ≡ 0 → next_at links.new ends.new k ≡ next_at links.old ends.old k }
    ensures size { length links.new ≡ length links.old }
{
    unlink(links, ends, at);
    set_next(links, ends, at, unused);
}

// Takes a number that belongs to no entry, or else makes one.
fn take_number<A: Allocator>(links: &mut Vec<Link, A>, unused: &mut u32) -> Result<u32, CacheError>
    requires short { length links.old.items ≤ no_entry }
    requires unused { (unused.old ≡ no_entry) ⊎ (unused.old < length links.old.items) }
    ensures ring { IfOk result (λ n. (ends : Link) (xs : List ℕ) → IsRing links.old.items ends xs
        → IsRing links.new.items ends xs) }
    ensures rest { IfOk result (λ n. (ends : Link) (xs : List ℕ) → HasSpare links.old.items ends unused.old xs
        → HasSpare links.new.items ends unused.new (n ∷ xs)) }
    ensures next { IfOk result (λ n. n ≤ length links.old.items) }
    ensures dense { IfOk result (λ n. n ≡ length links.old.items → unused.old ≡ no_entry) }
    ensures made { IfOk result (λ n. length links.new.items ≡ max (length links.old.items) (n + 1)) }
    ensures short { length links.new.items ≤ no_entry }
    ensures capacity { vec_capacity links.old ≤ vec_capacity links.new }
    ensures memory { result ≡ Err Memory
        → (unused.old ≡ no_entry) × (vec_capacity links.old ≤ length links.old.items) }
    ensures refused { OnErr result ((links.new.items ≡ links.old.items) × (unused.new ≡ unused.old)) }
    ensures errors { IfErr result (λ e. (e ≡ Memory)
        ⊎ ((e ≡ Numbers) × (unused.old ≡ no_entry) × (length links.old.items ≡ no_entry))) }
{
    let number = *unused;
    if number != NO_ENTRY {
        *unused = links[number as usize].next;
        return Ok(number);
    }
    if links.len() == NO_ENTRY as usize {
        return Err(CacheError::Numbers);
    }
    let number = links.len() as u32;
    links.push(NO_ENDS)?;
    Ok(number)
}

impl<A: Allocator> Recency<A> {
    /// No entries. Takes no memory.
    pub fn new(alloc: A) -> Self
        ensures entries { result.entries ≡ [] }
        ensures made { result.made ≡ 0 }
        ensures reserved { result.reserved ≡ 0 }
    {
        Recency {
            links: Vec::new(alloc),
            ends: NO_ENDS,
            unused: NO_ENTRY,
            count: 0,
            reserved: 0,
        }
    }

    /// A copy, in new memory of the same allocator: the same numbers in the same order. None are in reserve.
    pub fn copy(&self) -> Result<Self, AllocError>
    where
        A: Copy,
        ensures { IfOk result (λ copy. copy ≡ record self.now { reserved = 0 }) }
    {
        let links = Vec::from_slice(*self.links.allocator(), &self.links)?;
        Ok(Recency {
            links,
            ends: self.ends,
            unused: self.unused,
            count: self.count,
            reserved: 0,
        })
    }

    /// How many entries there are, at most 4,294,967,295.
    pub fn len(&self) -> usize
        ensures len { result ≡ length self.now.entries }
        ensures few { result ≤ 4294967295 }
    {
        self.count
    }

    /// Whether there are none.
    pub fn is_empty(&self) -> bool
        ensures { IsTrue result ↔ (self.now.entries ≡ []) }
    {
        self.count == 0
    }

    /// States what always holds of an order, and does nothing: each entry is in it once, under a number that was given out.
    pub fn prove_kept(&self)
        ensures once { (k : ℕ) → occurs k self.now.entries ≤ 1 }
        ensures made { (k : ℕ) → IsEntry k self.now → k < self.now.made }
        ensures few { self.now.made ≤ no_entry }
    {
        let _links = &self.links;
    }

    /// The most recently used entry; None if there is none.
    pub fn newest(&self) -> Option<u32>
        ensures first { result ≡ newest_of self.now.entries }
        ensures entry { IfSome result (λ number. IsEntry number self.now) }
    {
        let ends = self.ends;
        if ends.next == NO_ENTRY {
            return None;
        }
        Some(ends.next)
    }

    /// The least recently used entry; None if there is none.
    pub fn oldest(&self) -> Option<u32>
        ensures last { result ≡ oldest_of self.now.entries }
        ensures entry { IfSome result (λ number. IsEntry number self.now) }
    {
        let ends = self.ends;
        if ends.previous == NO_ENTRY {
            return None;
        }
        Some(ends.previous)
    }

    /// The entry that was used next before this one; None if this is the least recently used.
    pub fn older(&self, number: u32) -> Option<u32>
        requires { IsEntry number self.now }
        ensures next { (newer older : List ℕ) → self.now.entries ≡ newer ++ number ∷ older → result ≡ newest_of older }
        ensures entry { IfSome result (λ number. IsEntry number self.now) }
    {
        let own = read_link(&self.links, self.ends, number);
        if own.next == NO_ENTRY {
            return None;
        }
        Some(own.next)
    }

    /// The entry that was used next after this one; None if this is the most recently used.
    pub fn newer(&self, number: u32) -> Option<u32>
        requires { IsEntry number self.now }
        ensures next { (newer older : List ℕ) → self.now.entries ≡ newer ++ number ∷ older → result ≡ oldest_of newer }
        ensures entry { IfSome result (λ number. IsEntry number self.now) }
    {
        let own = read_link(&self.links, self.ends, number);
        if own.previous == NO_ENTRY {
            return None;
        }
        Some(own.previous)
    }

    /// Adds an entry, as the most recently used, and gives its number: one that was given out before and belongs to no
    /// entry, or, if all of those are in use, the next one. `Numbers` only if all are in use, and `Memory` if memory is
    /// refused, which is never asked for where entries are in reserve; then nothing changes.
    pub fn push(&mut self) -> Result<u32, CacheError>
        ensures new { IfOk result (λ number. IsFreshNumber number self.old) }
        ensures joined { IfOk result (λ number. self.new ≡ with_newest number self.old) }
        ensures few { IfOk result (λ _. length self.new.entries ≤ self.new.made) }
        ensures refused { OnErr result (self.new ≡ self.old) }
        ensures errors { IfErr result (IsWithoutNumber (length self.old.entries)) }
        ensures memory { 0 < self.old.reserved → result ≢ Err Memory }
    {
        let number = take_number(&mut self.links, &mut self.unused)?;
        push_front(&mut self.links, &mut self.ends, number);
        self.count += 1;
        self.reserved = self.reserved.saturating_sub(1);
        Ok(number)
    }

    /// An entry is the most recently used from now on.
    pub fn touch(&mut self, number: u32)
        requires { IsEntry number self.old }
        ensures { self.new ≡ used number self.old }
    {
        move_to_front(&mut self.links, &mut self.ends, number);
    }

    /// An entry goes. Its number belongs to none from now on.
    pub fn remove(&mut self, number: u32)
        requires { IsEntry number self.old }
        ensures { self.new ≡ gone number self.old }
    {
        give_back(&mut self.links, &mut self.ends, number, self.unused);
        self.unused = number;
        self.count -= 1;
    }

    /// How many numbers were ever given out, since the order was made or cleared: each number is below.
    pub fn made(&self) -> u32
        ensures { result ≡ self.now.made }
    {
        self.links.len() as u32
    }

    /// At least so many entries are in reserve from now on: none of the next ones that come is refused for memory. Nothing
    /// else changes, and nothing at all with `Memory`, if memory is refused.
    pub fn reserve(&mut self, additional: usize) -> Result<(), CacheError>
        ensures reserves { OnOk result (self.new ≡ with_reserve additional self.old) }
        ensures refused { OnErr result (self.new ≡ self.old) }
        ensures unless { IsOkUnless result CacheError.Memory }
    {
        self.links.reserve(additional)?;
        self.reserved = self.reserved.max(additional);
        Ok(())
    }

    /// All entries go, and the numbers begin again at 0. Keeps its memory: what the entries had is in reserve.
    pub fn clear(&mut self)
        ensures entries { self.new.entries ≡ [] }
        ensures made { self.new.made ≡ 0 }
        ensures reserved { self.new.reserved ≡ self.old.reserved + length self.old.entries }
    {
        self.links.clear();
        self.ends = NO_ENDS;
        self.unused = NO_ENTRY;
        self.reserved += self.count;
        self.count = 0;
    }
}
