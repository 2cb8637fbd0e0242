//! Entries under their keys, in the order of their use: each call takes a few steps and at most one look-up by a hash,
//! however many entries there are.
ghost use Rattle.std.specs.Prelude.{◌≡◌, ◌≢◌, ◌==◌, ◌↔◌, ◌+◌, ◌-◌, ◌<◌, ◌≤◌, max, None, Some, [], ◌∷◌, ◌++◌, ℕ, List, length};
ghost use Rattle.std.specs.Prelude.{Err, IfErr, IfOk, IfSome, IsNone, IsOk, IsOkUnless, IsTrue, OnErr, OnOk, nat_eq, slice_get};
ghost use Rattle.std.specs.Prelude.{vec_capacity, vec_len};
ghost use Rattle.std.specs.HashMap.{Updates, get, hash_map_len, spare};
ghost use Rattle.std.specs.List.{AllByRecursion, IsDistinct};
ghost use Rattle.atlas_entries.specs.Entries.{is_blank, no_page};
ghost use Rattle.atlas_search.specs.Numbers.{front, without};
ghost use Rattle.atlas_entries.specs.Orders.{newest_of, oldest_of, IsEntry};
ghost use Rattle.atlas_entries.specs.Limits.{IsWithoutNumber};
ghost use Rattle.atlas_entries.specs.declared.error.CacheError.TheVariants.{Memory};

mod copying;

use crate::error::CacheError;
use crate::recency::Recency;
use crate::recency::links::NO_ENTRY;
use atlas_model::{AllocId, Rectangle, Size};
use std::alloc::{Allocator, Global};
use std::collections::HashMap;
use std::hash::{BuildHasher, BuildHasherDefault, FoldHasher, Hash};
use std::marker::Model;

/// The hasher of `new`. Its seed is fixed: for keys that an attacker picks, give `with_hasher` a `RandomState`.
pub type DefaultHasher = BuildHasherDefault<FoldHasher>;

/// What a blank entry has for its page: the number that no page has.
pub const NO_PAGE: u32 = 4294967295;

/// What a cache holds under a key. A blank entry, that of a key with an empty size, lies on no page: its page is `NO_PAGE`,
/// and its id and its rectangle mean nothing.
#[derive(Clone, Copy, Debug, PartialEq, Eq)]
pub struct Entry<K> {
    pub key: K,
    /// What was asked for, without the padding, in pixels.
    pub size: Size,
    /// The page, counted from 0.
    pub page: u32,
    /// The id of its rectangle on that page.
    pub id: AllocId,
    /// Its rectangle on that page, with the padding, in pixels.
    pub rectangle: Rectangle,
    /// Its number.
    pub number: u32,
    /// The frame that used it last.
    pub frame: u64,
}

impl<K: Copy> Entry<K> {
    /// Whether it lies on no page.
    pub fn is_blank(&self) -> bool
        ensures { result ≡ is_blank self.now }
    {
        self.page == NO_PAGE
    }
}

/// Entries under their keys, in the order of their use. Each has a number; those of entries which are gone are given to
/// later ones before new numbers are. Contracts see a `Table`: the numbers with their entries, the most recently used
/// first, how many numbers were ever given out, and for how many more entries there is memory in reserve.
#[derive(Drop)]
pub struct Entries<K: Copy + Eq + Hash, S: BuildHasher = DefaultHasher, A: Allocator = Global> {
    map: HashMap<K, u32, S, A>,
    recency: Recency<A>,
    items: Vec<Entry<K>, A>,
    // This entry and all that were used before it are blank; `NO_ENTRY`: it isn't known of any.
    mark: u32,
}

impl<K: Copy + Eq + Hash, S: BuildHasher, A: Allocator> Model for Entries<K, S, A> {
    ghost use Rattle.atlas_entries.specs.Entries.{EndsBlank, Table};

    ghost Value = { Table K };

    ghost use Rattle.std.specs.Prelude.{vec_capacity};
    ghost use Rattle.atlas_entries.specs.Tables.{AreKept, HasMemory, numbered};

    ghost view = { λ s. record {
      entries = numbered s.items.items s.recency.entries;
      made = s.recency.made;
      reserved = s.recency.reserved;
    } };

    ghost invariant = { λ s. AreKept K.eq s.map s.recency s.items.items
        × HasMemory s.map s.recency (vec_capacity s.items)
        × EndsBlank s.mark (numbered s.items.items s.recency.entries) };
}

// An entry leaves its place in the order: where it is marked, the one that was used next before it is.
fn unmark<A: Allocator>(recency: &Recency<A>, mark: &mut u32, number: u32)
    requires { IsEntry number recency.now }
    ensures { (newer older : List ℕ) → recency.now.entries ≡ newer ++ older → mark.old ≡ front older
        → mark.new ≡ front (without number older) }
{
    recency.prove_kept();
    if number != *mark {
        return;
    }
    *mark = recency.older(number).unwrap_or(NO_ENTRY);
}

// Memory for one more behind all, if there are no more than so many.
fn make_room<K: Copy, A: Allocator>(
    items: &mut Vec<Entry<K>, A>,
    count: usize,
) -> Result<(), CacheError>
    ensures items { items.new.items ≡ items.old.items }
    ensures capacity { vec_capacity items.old ≤ vec_capacity items.new }
    ensures room { OnOk result (length items.old.items ≤ count → vec_len items.new < vec_capacity items.new) }
    ensures unless { IsOkUnless result CacheError.Memory }
    ensures memory { count < vec_capacity items.old → IsOk result }
{
    if count < items.len() {
        return Ok(());
    }
    items.reserve(1)?;
    Ok(())
}

// Puts an entry at a number: in the place of what stood there, or behind all.
fn store<K: Copy, A: Allocator>(items: &mut Vec<Entry<K>, A>, number: u32, entry: Entry<K>)
    requires next { number ≤ length items.old.items }
    requires room { number ≡ length items.old.items → vec_len items.old < vec_capacity items.old }
    ensures stored { slice_get items.new.items number ≡ Some entry }
    ensures others { (k : ℕ) → k ≢ number → k < length items.old.items
        → slice_get items.new.items k ≡ slice_get items.old.items k }
    ensures size { length items.new.items ≡ max (length items.old.items) (number + 1) }
    ensures capacity { vec_capacity items.old ≤ vec_capacity items.new }
{
    if (number as usize) < items.len() {
        items[number as usize] = entry;
        return;
    }
    let _pushed = items.push(entry);
}

// Gives a key a number.
fn bind<K: Copy + Eq + Hash, S: BuildHasher, A: Allocator + Copy>(
    map: &mut HashMap<K, u32, S, A>,
    key: K,
    number: u32,
)
    requires { 0 < spare map.old }
    ensures updates { Updates K.eq map.old map.new key (Some number) }
    ensures spare { spare map.old ≤ spare map.new + 1 }
    ensures held { get K.eq map.old key ≡ None → hash_map_len map.new ≡ hash_map_len map.old + 1 }
{
    let _inserted = map.insert(key, number);
}

impl<K: Copy + Eq + Hash, A: Allocator + Copy> Entries<K, DefaultHasher, A> {
    /// No entries. Takes no memory.
    pub fn new(alloc: A) -> Self
        ensures entries { result.entries ≡ [] }
        ensures made { result.made ≡ 0 }
        ensures reserved { result.reserved ≡ 0 }
    {
        Entries::with_hasher(alloc, BuildHasherDefault::new())
    }
}

impl<K: Copy + Eq + Hash, S: BuildHasher, A: Allocator + Copy> Entries<K, S, A> {
    ghost use Rattle.atlas_entries.specs.Entries.{AreNumbered, IsNextNumber, IsNumber, entry_at, keys, moved, number_of, numbers, touched};
    ghost use Rattle.atlas_entries.specs.Entries.{with_reserve, without_number, EndsBlank, IsBeforeBlanks};

    /// No entries, with a hasher for the keys. Takes no memory.
    pub fn with_hasher(alloc: A, hasher: S) -> Self
        ensures entries { result.entries ≡ [] }
        ensures made { result.made ≡ 0 }
        ensures reserved { result.reserved ≡ 0 }
    {
        Entries {
            map: HashMap::with_hasher(alloc, hasher),
            recency: Recency::new(alloc),
            items: Vec::new(alloc),
            mark: NO_ENTRY,
        }
    }

    /// How many entries there are, at most 4,294,967,295.
    pub fn len(&self) -> usize
        ensures len { result ≡ length self.now.entries }
        ensures few { result ≤ 4294967295 }
    {
        self.recency.len()
    }

    /// Whether there are none.
    pub fn is_empty(&self) -> bool
        ensures { IsTrue result ↔ (self.now.entries ≡ []) }
    {
        self.recency.is_empty()
    }

    /// States what always holds of the entries, and does nothing: each has a number of its own, which was given out, and a key of its
    /// own.
    pub fn prove_kept(&self)
        ensures numbers { IsDistinct nat_eq (numbers self.now.entries) }
        ensures keys { IsDistinct K.eq (keys self.now.entries) }
        ensures own { AreNumbered self.now.entries }
        ensures made { AllByRecursion (λ e. e.0 < self.now.made) self.now.entries }
    {
        self.recency.prove_kept();
        let _map = &self.map;
    }

    /// The number of the entry with this key; None if there is none.
    pub fn find(&self, key: &K) -> Option<u32>
        ensures number { result ≡ number_of K.eq key.now self.now.entries }
        ensures entry { IfSome result (λ number. IsNumber number self.now.entries) }
    {
        self.map.get(key).copied()
    }

    /// The entry of a number.
    pub fn entry(&self, number: u32) -> Entry<K>
        requires { IsNumber number self.now.entries }
        ensures { entry_at number self.now.entries ≡ Some result }
    {
        self.items[number as usize]
    }

    /// The most recently used entry; None if there is none.
    pub fn newest(&self) -> Option<u32>
        ensures first { result ≡ newest_of (numbers self.now.entries) }
        ensures entry { IfSome result (λ number. IsNumber number self.now.entries) }
    {
        self.recency.newest()
    }

    /// The least recently used entry; None if there is none.
    pub fn oldest(&self) -> Option<u32>
        ensures last { result ≡ oldest_of (numbers self.now.entries) }
        ensures entry { IfSome result (λ number. IsNumber number self.now.entries) }
    {
        self.recency.oldest()
    }

    /// The entry that was used next before this one; None if this is the least recently used.
    pub fn older(&self, number: u32) -> Option<u32>
        requires { IsNumber number self.now.entries }
        ensures next { (newer older : List ℕ) → numbers self.now.entries ≡ newer ++ number ∷ older
            → result ≡ newest_of older }
        ensures entry { IfSome result (λ number. IsNumber number self.now.entries) }
    {
        self.recency.older(number)
    }

    /// The entry that was used next after this one; None if this is the most recently used.
    pub fn newer(&self, number: u32) -> Option<u32>
        requires { IsNumber number self.now.entries }
        ensures next { (newer older : List ℕ) → numbers self.now.entries ≡ newer ++ number ∷ older
            → result ≡ oldest_of newer }
        ensures entry { IfSome result (λ number. IsNumber number self.now.entries) }
    {
        self.recency.newer(number)
    }

    /// The least recently used entry that wasn't passed; None if all were. All that were used before it are blank.
    pub fn unpassed(&self) -> Option<u32>
        ensures next { IsBeforeBlanks result self.now.entries }
        ensures entry { IfSome result (λ number. IsNumber number self.now.entries) }
    {
        if self.mark == NO_ENTRY {
            return self.recency.oldest();
        }
        self.recency.newer(self.mark)
    }

    /// An entry is passed, until it is used, and all that were used before it, until they are. Requires that they are blank.
    pub fn pass(&mut self, number: u32)
        requires { EndsBlank number self.old.entries }
        ensures { self.new ≡ self.old }
    {
        self.mark = number;
    }

    /// An entry is used in this frame, and is the most recently used from now on.
    pub fn touch(&mut self, number: u32, frame: u64)
        requires { IsNumber number self.old.entries }
        ensures entries { self.new.entries ≡ touched number frame self.old.entries }
        ensures made { self.new.made ≡ self.old.made }
        ensures reserved { self.new.reserved ≡ self.old.reserved }
    {
        unmark(&self.recency, &mut self.mark, number);
        self.recency.touch(number);
        let entry = &mut self.items[number as usize];
        entry.frame = frame;
    }

    /// Adds an entry with a new key, as the most recently used, and gives it a number, whatever number it had: one that no entry
    /// has, and the next new one only if all that were given out are in use. `Numbers` only if all are, and `Memory` if
    /// memory is refused, which is never asked for where entries are in reserve; then nothing changes.
    pub fn push(&mut self, entry: Entry<K>) -> Result<u32, CacheError>
        requires { IsNone (number_of K.eq entry.key self.old.entries) }
        ensures new { IfOk result (λ number. IsNextNumber number self.old) }
        ensures joined { IfOk result (λ number. self.new.entries
            ≡ (number, record entry { number = number }) ∷ self.old.entries) }
        ensures made { IfOk result (λ number. self.new.made ≡ max self.old.made (number + 1)) }
        ensures reserved { OnOk result (self.new.reserved ≡ self.old.reserved - 1) }
        ensures refused { OnErr result (self.new ≡ self.old) }
        ensures errors { IfErr result (IsWithoutNumber (length self.old.entries)) }
        ensures memory { 0 < self.old.reserved → result ≢ Err Memory }
    {
        self.map.reserve(1)?;
        make_room(&mut self.items, self.recency.len())?;
        let number = self.recency.push()?;
        let entry = Entry { number, ..entry };
        store(&mut self.items, number, entry);
        bind(&mut self.map, entry.key, number);
        Ok(number)
    }

    /// An entry goes. Its number belongs to none from now on.
    pub fn remove(&mut self, number: u32)
        requires { IsNumber number self.old.entries }
        ensures entries { self.new.entries ≡ without_number number self.old.entries }
        ensures made { self.new.made ≡ self.old.made }
        ensures reserved { self.new.reserved ≡ self.old.reserved }
    {
        let key = self.items[number as usize].key;
        unmark(&self.recency, &mut self.mark, number);
        self.recency.remove(number);
        let _number = self.map.remove(&key);
    }

    /// Moves an entry to another rectangle, of its page or of another one. The order stays. Requires that it lies on a page before and
    /// after it, or neither.
    pub fn move_to(&mut self, number: u32, page: u32, id: AllocId, rectangle: Rectangle)
        requires here { IsNumber number self.old.entries }
        requires lies { IfSome (entry_at number self.old.entries) (λ e. is_blank e ≡ (page == no_page)) }
        ensures entries { self.new.entries ≡ moved number page id rectangle self.old.entries }
        ensures made { self.new.made ≡ self.old.made }
        ensures reserved { self.new.reserved ≡ self.old.reserved }
    {
        let entry = &mut self.items[number as usize];
        entry.page = page;
        entry.id = id;
        entry.rectangle = rectangle;
    }

    /// How many numbers were ever given out, since the entries were made or cleared: each number is below.
    pub fn made(&self) -> u32
        ensures { result ≡ self.now.made }
    {
        self.recency.made()
    }

    /// At least so many entries are in reserve from now on: none of the next ones that come is refused for memory. Nothing
    /// else changes, and nothing at all with `Memory`, if memory is refused.
    pub fn reserve(&mut self, additional: usize) -> Result<(), CacheError>
        ensures reserves { OnOk result (self.new ≡ with_reserve additional self.old) }
        ensures refused { OnErr result (self.new ≡ self.old) }
        ensures unless { IsOkUnless result CacheError.Memory }
    {
        self.map.reserve(additional)?;
        self.items.reserve(additional)?;
        self.recency.reserve(additional)?;
        Ok(())
    }

    /// All entries go. Keeps its memory: what the entries had is in reserve.
    pub fn clear(&mut self)
        ensures entries { self.new.entries ≡ [] }
        ensures made { self.new.made ≡ 0 }
        ensures reserved { self.new.reserved ≡ self.old.reserved + length self.old.entries }
    {
        self.map.clear();
        self.recency.clear();
        self.items.clear();
        self.mark = NO_ENTRY;
    }
}
