//! The free boxes of the simple allocator, in the lists of a table.
ghost use Rattle.std.specs.Prelude.{◌≡◌, ◌+◌, ◌<◌, ◌≤◌, ◌∷◌, IfOk, IsOkUnless, OnErr, OnOk, [], false, length, max, min, true};
ghost use Rattle.std.specs.Prelude.{vec_capacity, vec_len};
ghost use Rattle.atlas_model.specs.Boxes.{AreSameBoxes};
ghost use Rattle.atlas_model.specs.Choice.{AreValid, Options};
ghost use Rattle.atlas_search.specs.Rectangles.{IsSolid, IsUnsigned};
ghost use Rattle.atlas_search.specs.Items.{item_at};
ghost use Rattle.atlas_search.specs.Lookups.{IsStanding};
ghost use Rattle.atlas_model.specs.Pixels.{box_of, options_of};

use atlas_model::{AtlasError, Rectangle, point2};
use atlas_search::bands::Scale;
use atlas_search::best::Found;
use atlas_search::cut::exact_size;
use atlas_search::heap::{self, Linked};
use atlas_search::link::{Link, NO_SLOT, TAG};
use atlas_search::search::Entry;
use atlas_search::table::{FEW, Table};
use std::alloc::Allocator;

/// A free box, with its links in the heap of its list; or an unused entry, whose rectangle is empty, and the next one.
#[derive(Clone, Copy, Debug, PartialEq, Eq)]
pub struct FreeBox {
    pub area: Rectangle,
    /// What it hangs below; of an unused entry, the next one.
    pub up: Link,
    pub left: Link,
    pub right: Link,
    pub is_fork: bool,
}

impl Entry for FreeBox {
    ghost use Rattle.guillotiere.specs.FreeBoxes.BoxShelves.{stored_item};

    ghost item = { stored_item };

    fn rectangle(&self) -> Rectangle {
        self.area
    }

    fn up(&self) -> Link {
        self.up
    }

    fn left(&self) -> Link {
        self.left
    }

    fn right(&self) -> Link {
        self.right
    }

    fn is_fork(&self) -> bool {
        self.is_fork
    }
}

impl Linked for FreeBox {
    ghost use Rattle.guillotiere.specs.FreeBoxes.BoxShelves.{bare_box};

    ghost bare = { bare_box };

    fn set_links(&mut self, up: Link, left: Link, right: Link) {
        self.up = up;
        self.left = left;
        self.right = right;
    }

    fn set_fork(&mut self, is_fork: bool) {
        self.is_fork = is_fork;
    }
}

/// Free boxes, each in the list of its size, and entries that are unused; `used` counts the others. The table has room for the
/// entries that there is memory for (`room`).
#[derive(Drop)]
pub struct FreeBoxes<A: Allocator> {
    pub entries: Vec<FreeBox, A>,
    pub unused: Link,
    pub used: u32,
    pub table: Table<A>,
    ghost room: { table.is_grown ≡ false → vec_capacity entries ≤ 8 },
}

/// The most entries: greater numbers are tags of lists, or none.
pub const MOST_BOXES: u32 = TAG;

impl FreeBox {
    ghost use Rattle.guillotiere.specs.FreeBoxes.BoxShelves.{idle_item, stored_item};

    // An unused entry before this one.
    fn unused_box(next: Link) -> FreeBox
        ensures { stored_item result ≡ idle_item next.number }
    {
        let corner = point2(0, 0);
        let none = Link { number: 0 };
        FreeBox {
            area: Rectangle {
                min: corner,
                max: corner,
            },
            up: next,
            left: none,
            right: none,
            is_fork: false,
        }
    }
}

impl<A: Allocator> FreeBoxes<A> {
    ghost use Rattle.guillotiere.specs.FreeBoxes.BoxCalls.{AreFiledBoxes, HasEntriesFor, HasTakenEntries};
    ghost use Rattle.guillotiere.specs.FreeBoxes.BoxCalls.{HasUnlisted, KeepsEntries};
    ghost use Rattle.guillotiere.specs.FreeBoxes.BoxShelves.{AreKept, IsClaimed, box_shelf, free_item_boxes};

    /// No box, and room for one. The only error is `Memory`.
    pub fn new(alloc: A) -> Result<FreeBoxes<A>, AtlasError>
    where
        A: Copy,
        ensures unless { IsOkUnless result AtlasError.Memory }
        ensures kept { IfOk result (λ it. (o : Options) → AreValid o → AreKept o (box_shelf it)) }
        ensures empty { IfOk result (λ it. (box_shelf it).entries ≡ []) }
        ensures none { IfOk result (λ it. it.used ≡ 0) }
        ensures room { IfOk result (λ it. 0 < vec_capacity it.entries) }
    {
        let entries = Vec::with_capacity(alloc, 1)?;
        let table = Table::new(alloc);
        Ok(FreeBoxes {
            entries,
            unused: Link::NONE,
            used: 0,
            table,
        })
    }

    /// A copy, in new memory of the same allocator, with room for as many entries. The only error is `Memory`.
    pub fn copy(&self) -> Result<FreeBoxes<A>, AtlasError>
    where
        A: Copy,
        ensures unless { IsOkUnless result AtlasError.Memory }
        ensures same { IfOk result (λ it. box_shelf it ≡ box_shelf self.now) }
        ensures capacity { IfOk result (λ it. vec_capacity it.entries ≡ vec_capacity self.now.entries) }
    {
        let room = self.entries.capacity();
        let mut entries = Vec::with_capacity(*self.entries.allocator(), room)?;
        for entry in &self.entries {
            entries.push_reserved(*entry);
        }
        let table = self.table.copy()?;
        Ok(FreeBoxes {
            entries,
            unused: self.unused,
            used: self.used,
            table,
        })
    }

    // Takes the first of the unused entries, or else a new one, for which there is room.
    fn take(&mut self) -> Link
        requires kept { (o : Options) × AreKept o (box_shelf self.old) }
        requires room { HasEntriesFor 1 self.old }
        ensures taken { (o : Options) → AreKept o (box_shelf self.old)
            → IsClaimed o (box_shelf self.new) result.number }
        ensures boxes { free_item_boxes (box_shelf self.new).entries ≡ free_item_boxes (box_shelf self.old).entries }
        ensures heads { self.new.table ≡ self.old.table }
        ensures entries { HasTakenEntries 1 self.old self.new }
    {
        let at = self.unused;
        self.used += 1;
        if at.number == NO_SLOT {
            let number = self.entries.len() as u32;
            self.entries
                .push_reserved(FreeBox::unused_box(Link { number: 0 }));
            Link { number }
        } else {
            self.unused = self.entries[at.number as usize].up;
            at
        }
    }

    // Puts a box into the entry that is claimed, and that into the box's list.
    fn put(&mut self, at: Link, area: Rectangle, options: &Scale)
        requires exact { IsSolid area }
        requires claimed { IsClaimed (options_of options.now) (box_shelf self.old) at.number }
        ensures kept { AreKept (options_of options.now) (box_shelf self.new) }
        ensures boxes { AreSameBoxes (free_item_boxes (box_shelf self.new).entries)
            (box_of area ∷ free_item_boxes (box_shelf self.old).entries) }
        ensures used { self.new.used ≡ self.old.used }
        ensures entries { KeepsEntries self.old self.new }
    {
        let place = options.place_for(exact_size(area));
        let none = Link::NONE;
        self.entries[at.number as usize] = FreeBox {
            area,
            up: none,
            left: none,
            right: none,
            is_fork: false,
        };
        let top = heap::push(
            &mut self.entries,
            place.tag(),
            self.table.head(place),
            none,
            at,
        );
        self.table.raise(place, top);
    }

    /// Makes sure that n more entries can be used; nothing but the room changes. The only error is `Memory`, which comes only
    /// where that takes more entries than there is room for.
    pub fn make_room(&mut self, n: u32) -> Result<(), AtlasError>
        requires few { n ≤ 2 }
        requires kept { (o : Options) × AreKept o (box_shelf self.old) }
        ensures unless { IsOkUnless result AtlasError.Memory }
        ensures same { box_shelf self.new ≡ box_shelf self.old }
        ensures room { OnOk result (HasEntriesFor n self.new) }
        ensures needed { OnErr result (vec_len self.old.entries < self.old.used + n) }
        ensures lacks { OnErr result (min (vec_capacity self.old.entries) 4261412864 < self.old.used + n) }
        ensures stays { OnErr result (vec_capacity self.new.entries ≡ vec_capacity self.old.entries) }
        ensures capacity { vec_capacity self.old.entries ≤ vec_capacity self.new.entries }
    {
        let all = self.used as usize + n as usize;
        let present = self.entries.len();
        if all > present {
            if all > MOST_BOXES as usize {
                return Err(AtlasError::Memory);
            }
            if all > self.entries.capacity() {
                if all > FEW {
                    self.table.grow()?;
                    self.entries.reserve(all - present)?;
                } else {
                    self.entries.reserve_exact(FEW - present)?;
                }
            }
        }
        Ok(())
    }

    /// Adds a box, for which there is room.
    pub fn add(&mut self, area: Rectangle, options: &Scale)
        requires exact { IsSolid area }
        requires kept { AreKept (options_of options.now) (box_shelf self.old) }
        requires room { HasEntriesFor 1 self.old }
        ensures boxes { AreFiledBoxes (options_of options.now) (box_of area ∷ []) self.old self.new }
        ensures entries { HasTakenEntries 1 self.old self.new }
    {
        let at = self.take();
        self.put(at, area, options);
    }

    /// Leaves only this box, in the room that there is. Takes no memory.
    pub fn restart(&mut self, area: Rectangle, options: &Scale)
        requires exact { IsSolid area }
        requires valid { AreValid (options_of options.now) }
        requires room { 0 < vec_capacity self.old.entries }
        ensures kept { AreKept (options_of options.now) (box_shelf self.new) }
        ensures alone { free_item_boxes (box_shelf self.new).entries ≡ box_of area ∷ [] }
        ensures one { vec_len self.new.entries ≡ 1 }
        ensures capacity { vec_capacity self.new.entries ≡ vec_capacity self.old.entries }
    {
        self.entries.clear();
        self.unused = Link::NONE;
        self.used = 0;
        self.table.clear();
        self.add(area, options);
    }

    // Takes a box out of its list.
    fn unlist(&mut self, at: Link)
        requires kept { (o : Options) × AreKept o (box_shelf self.old) }
        requires free { (item_at (box_shelf self.old).entries at.number).is_free ≡ true }
        ensures unlisted { (o : Options) (kept : AreKept o (box_shelf self.old))
            → HasUnlisted o (box_shelf self.old) kept (box_shelf self.new) at.number }
        ensures entries { KeepsEntries self.old self.new }
    {
        let up = self.entries[at.number as usize].up;
        let rest = heap::remove(&mut self.entries, at);
        if up.number >= TAG {
            self.table.set_first((up.number - TAG) as usize, rest);
        }
    }

    /// Takes a box out of its list; its entry is unused from then on.
    pub fn remove(&mut self, found: Found)
        requires kept { (o : Options) × AreKept o (box_shelf self.old) }
        requires standing { IsStanding (box_shelf self.old).entries found }
        ensures kept { (o : Options) → AreKept o (box_shelf self.old) → AreKept o (box_shelf self.new) }
        ensures boxes { AreSameBoxes (box_of found.rectangle ∷ free_item_boxes (box_shelf self.new).entries)
            (free_item_boxes (box_shelf self.old).entries) }
        ensures unused { self.new.unused ≡ found.at }
        ensures used { self.new.used + 1 ≡ self.old.used }
        ensures entries { KeepsEntries self.old self.new }
    {
        self.unlist(found.at);
        self.entries[found.at.number as usize] = FreeBox::unused_box(self.unused);
        self.unused = found.at;
        self.used -= 1;
    }
}
