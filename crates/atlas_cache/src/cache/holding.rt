//! Steps over the pages and the entries of a cache: what is live on the pages stays what the entries hold, each once.
ghost use Rattle.std.specs.Prelude.{◌≡◌, ◌≢◌, ◌+◌, ◌-◌, ◌<◌, ◌≤◌, max, [], ◌∷◌, ◌++◌, length, false, true, IfErr, IfNone, IfOk, IfSome};
ghost use Rattle.std.specs.Prelude.{IsNone, None, Ok};
ghost use Rattle.std.specs.Prelude.{Err, OnErr, Some};
ghost use Rattle.guillotiere.specs.Pages.{page_sizes, HasSameRectangles, LeavesNoBoxOn, NoneHasRoomBelow};
ghost use Rattle.atlas_cache.specs.Caches.{entries_of, entry_for, shown, HoldsEntries, IsBordered, IsFound, IsOldestLying};
ghost use Rattle.atlas_cache.specs.Changes.{GetsPlace};
ghost use Rattle.atlas_entries.specs.Entries.{entry_at, is_blank, lying, number_of, without_number, IsNextNumber};
ghost use Rattle.atlas_entries.specs.Limits.{IsWithoutNumber};
ghost use Rattle.atlas_cache.specs.Placing.{FreesOn, IsFirstShort};
ghost use Rattle.atlas_cache.specs.Refusals.{IsRefusedNew};
ghost use Rattle.atlas_cache.specs.Reserving.{HaveSlots, IsShortOfSlots, UseAtMost};
ghost use Rattle.atlas_cache.specs.Rooms.{HasRoomOnlyAmong, IsRounded};
ghost use Rattle.atlas_entries.specs.declared.error.CacheError.TheVariants.{Memory, Slots};

use crate::options::CacheOptions;
use crate::places::{NO_PIXELS, Place};
use crate::rooms::Rooms;
use atlas_entries::entries::{Entries, Entry, NO_PAGE};
use atlas_entries::error::CacheError;
use guillotiere::{AllocId, Size};
use std::alloc::Allocator;
use std::hash::{BuildHasher, Hash};

/// The entry of a key with its number; None if there is none.
pub fn look_up<K: Copy + Eq + Hash, S: BuildHasher, A: Allocator + Copy>(
    entries: &Entries<K, S, A>,
    key: &K,
) -> Option<(u32, Entry<K>)>
    ensures found { IfSome result (λ found. IsFound K.eq key.now found.0 found.1 entries.now.entries) }
    ensures none { IfNone result (entry_for K.eq key.now (entries_of entries.now.entries) ≡ None) }
    ensures absent { IfNone result (IsNone (number_of K.eq key.now entries.now.entries)) }
{
    entries.prove_kept();
    let number = entries.find(key)?;
    Some((number, entries.entry(number)))
}

/// The least recently used entry with its number; None if there is none.
pub fn oldest<K: Copy + Eq + Hash, S: BuildHasher, A: Allocator + Copy>(
    entries: &Entries<K, S, A>,
) -> Option<(u32, Entry<K>)>
    ensures here { IfSome result (λ found. entry_at found.0 entries.now.entries ≡ Some found.1) }
    ensures last { IfSome result (λ found. entries_of entries.now.entries
        ≡ entries_of (without_number found.0 entries.now.entries) ++ found.1 ∷ []) }
    ensures none { IfNone result (entries_of entries.now.entries ≡ []) }
{
    entries.prove_kept();
    let number = entries.oldest()?;
    Some((number, entries.entry(number)))
}

/// The least recently used entry that lies on a page, with its number; None if none does. Each blank entry that was used
/// before it is passed once, and not again until it is used.
pub fn oldest_lying<K: Copy + Eq + Hash, S: BuildHasher, A: Allocator + Copy>(
    entries: &mut Entries<K, S, A>,
) -> Option<(u32, Entry<K>)>
    ensures last { IfSome result (λ found. IsOldestLying found.0 found.1 entries.old.entries) }
    ensures none { IfNone result (lying (entries_of entries.old.entries) ≡ []) }
    ensures stays { entries.new ≡ entries.old }
{
    entries.prove_kept();
    let mut next = entries.unpassed();
    for _ in 0..entries.len() {
        let Some(number) = next else {
            return None;
        };
        let entry = entries.entry(number);
        if !entry.is_blank() {
            return Some((number, entry));
        }
        entries.pass(number);
        next = entries.newer(number);
    }
    None
}

/// The place of an entry.
pub fn place_of<K: Copy>(entry: Entry<K>, options: &CacheOptions) -> Place
    requires { IsBordered options.now.padding entry }
    ensures { result ≡ shown options.now.padding entry }
{
    if entry.is_blank() {
        return Place::blank(entry.number);
    }
    Place::new(
        entry.number,
        entry.page,
        entry.rectangle,
        entry.size,
        options.padding,
    )
}

/// A new entry on the first page that has room for it, which is one of these, if any has; None if none has. After an error
/// no rectangle has moved.
pub fn grant<K: Copy + Eq + Hash, S: BuildHasher, A: Allocator + Copy>(
    rooms: &mut Rooms<A>,
    entries: &mut Entries<K, S, A>,
    key: K,
    size: Size,
    asked: Size,
    frame: u64,
    from: usize,
    to: usize,
) -> Result<Option<Entry<K>>, CacheError>
    requires held { HoldsEntries rooms.old.pages (lying (entries_of entries.old.entries)) }
    requires absent { IsNone (number_of K.eq key entries.old.entries) }
    requires inside { to ≤ length rooms.old.pages }
    requires others { HasRoomOnlyAmong asked rooms.old.pages from to }
    ensures held { HoldsEntries rooms.new.pages (lying (entries_of entries.new.entries)) }
    ensures placed { IfOk result (λ granted. IfSome granted (λ e.
        GetsPlace asked key size frame rooms.old.pages rooms.new.pages e)) }
    ensures lies { IfOk result (λ granted. IfSome granted (λ e. is_blank e ≡ false)) }
    ensures sides { IfOk result (λ granted. IfSome granted (λ e.
        IsRounded rooms.old.options asked e.rectangle)) }
    ensures first { IfOk result (λ granted. IfSome granted (λ e.
        entries_of entries.new.entries ≡ e ∷ entries_of entries.old.entries)) }
    ensures next { IfOk result (λ granted. IfSome granted (λ e. IsNextNumber e.number entries.old)) }
    ensures made { IfOk result (λ granted. IfSome granted (λ e.
        entries.new.made ≡ max entries.old.made (e.number + 1))) }
    ensures reserved { IfOk result (λ granted. IfSome granted (λ _.
        entries.new.reserved ≡ entries.old.reserved - 1)) }
    ensures sizes { page_sizes rooms.new.pages ≡ page_sizes rooms.old.pages }
    ensures options { rooms.new.options ≡ rooms.old.options }
    ensures none { result ≡ Ok None → (rooms.new ≡ rooms.old) × (entries.new ≡ entries.old) }
    ensures full { result ≡ Ok None → NoneHasRoomBelow asked rooms.old.pages (length rooms.old.pages) }
    ensures refused { OnErr result (HasSameRectangles rooms.old.pages rooms.new.pages
        × (entries.new ≡ entries.old)) }
    ensures errors { IfErr result (IsRefusedNew (length entries.old.entries)) }
    ensures short { result ≡ Err Slots → IsShortOfSlots rooms.new.pages }
    ensures slots { UseAtMost 4 rooms.old.pages rooms.new.pages }
    ensures memory { 0 < entries.old.reserved → HaveSlots 4 rooms.old.pages → result ≢ Err Memory }
    ensures already { result ≡ Err Slots → IsShortOfSlots rooms.old.pages }
    ensures lacks { result ≡ Err Slots → IsFirstShort asked rooms.new.pages }
{
    let Some((page, granted)) = rooms.place_among(from, to, asked)? else {
        return Ok(None);
    };
    let entry = Entry {
        key,
        size,
        page,
        id: granted.id,
        rectangle: granted.rectangle,
        number: 0,
        frame,
    };
    match entries.push(entry) {
        Ok(number) => Ok(Some(Entry { number, ..entry })),
        Err(error) => {
            rooms.free(page, granted.id);
            Err(error)
        }
    }
}

/// A new blank entry, the most recently used from now on. After an error nothing has changed.
pub fn join_blank<K: Copy + Eq + Hash, S: BuildHasher, A: Allocator + Copy>(
    entries: &mut Entries<K, S, A>,
    key: K,
    size: Size,
    frame: u64,
) -> Result<Entry<K>, CacheError>
    requires { IsNone (number_of K.eq key entries.old.entries) }
    ensures blank { IfOk result (λ e. is_blank e ≡ true) }
    ensures named { IfOk result (λ e. e.key ≡ key) }
    ensures sized { IfOk result (λ e. e.size ≡ size) }
    ensures used { IfOk result (λ e. e.frame ≡ frame) }
    ensures first { IfOk result (λ e. entries_of entries.new.entries ≡ e ∷ entries_of entries.old.entries) }
    ensures next { IfOk result (λ e. IsNextNumber e.number entries.old) }
    ensures made { IfOk result (λ e. entries.new.made ≡ max entries.old.made (e.number + 1)) }
    ensures reserved { IfOk result (λ _. entries.new.reserved ≡ entries.old.reserved - 1) }
    ensures refused { OnErr result (entries.new ≡ entries.old) }
    ensures errors { IfErr result (IsWithoutNumber (length entries.old.entries)) }
    ensures memory { 0 < entries.old.reserved → result ≢ Err Memory }
{
    let entry = Entry {
        key,
        size,
        page: NO_PAGE,
        id: AllocId::deserialize(0),
        rectangle: NO_PIXELS,
        number: 0,
        frame,
    };
    let number = entries.push(entry)?;
    Ok(Entry { number, ..entry })
}

/// An entry goes, and its rectangle is freed, if it lies on a page.
pub fn take_out<K: Copy + Eq + Hash, S: BuildHasher, A: Allocator + Copy>(
    rooms: &mut Rooms<A>,
    entries: &mut Entries<K, S, A>,
    number: u32,
    entry: Entry<K>,
)
    requires held { HoldsEntries rooms.old.pages (lying (entries_of entries.old.entries)) }
    requires here { entry_at number entries.old.entries ≡ Some entry }
    ensures held { HoldsEntries rooms.new.pages (lying (entries_of entries.new.entries)) }
    ensures without { entries.new.entries ≡ without_number number entries.old.entries }
    ensures made { entries.new.made ≡ entries.old.made }
    ensures reserved { entries.new.reserved ≡ entries.old.reserved }
    ensures leaves { LeavesNoBoxOn rooms.old.pages rooms.new.pages entry.page entry.id }
    ensures sizes { page_sizes rooms.new.pages ≡ page_sizes rooms.old.pages }
    ensures options { rooms.new.options ≡ rooms.old.options }
    ensures slots { UseAtMost 0 rooms.old.pages rooms.new.pages }
    ensures step { FreesOn rooms.old.pages rooms.new.pages entry.page entry.id }
{
    entries.remove(number);
    if entry.page < rooms.len() {
        rooms.free(entry.page, entry.id);
    }
}
