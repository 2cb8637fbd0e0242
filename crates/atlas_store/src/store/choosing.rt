//! What a request takes of a store: its size rounded, the free slot, and memory for more slots.
ghost use Rattle.std.specs.Prelude.{◌≡◌, ◌+◌, ◌<◌, ◌≤◌, ◌⊎◌, List, None, IfSome, OnOk, OnErr, IfErr, Err, SomeIff};
ghost use Rattle.std.specs.Prelude.{length, true};
ghost use Rattle.atlas_model.specs.Boxes.{Box, IsPositive};
ghost use Rattle.atlas_model.specs.Choice.{AreValid, IsFitting, rounded};
ghost use Rattle.atlas_model.specs.Pixels.{options_of, sides_of, size_of};
ghost use Rattle.atlas_model.specs.Trees.{most_slots};
ghost use Rattle.atlas_store.specs.Slots.Picks.{AreFreeBoxes};
ghost use Rattle.atlas_search.specs.Requests.{CanBeRounded};
ghost use Rattle.atlas_store.specs.Slots.{nodes};
ghost use Rattle.atlas_store.specs.Stored.{Holding};

use crate::store::Store;
use atlas_model::{AtlasError, Size};
use atlas_search::best::Found;
use atlas_search::choice::rounded;
use atlas_search::glance::fits_at_once;
use atlas_search::search::pick;
use atlas_search::table::FEW;
use std::alloc::Allocator;

impl<A: Allocator> Store<A> {
    ghost use Rattle.atlas_store.specs.Store.Choosing.{IsAtRest, IsChosen, IsShortOf, KeepsShelf};
    ghost use Rattle.atlas_store.specs.Store.Holdings.{capacity_in, shelf_of};

    /// The size of a request, rounded up to multiples of the alignment; None if a side is 0 or less, or if a rounded
    /// side passes 2147483647.
    pub fn rounded(&self, size: Size) -> Option<Size>
        requires { AreValid (options_of (shelf_of self.now).options) }
        ensures { SomeIff result (CanBeRounded (options_of (shelf_of self.now).options) (sides_of size))
            (size_of (rounded (options_of (shelf_of self.now).options) (sides_of size))) }
    {
        rounded(size, &self.options)
    }

    /// The free slot that a request of this rounded size takes; None if it fits none.
    pub fn choose(&self, size: Size) -> Option<Found>
        requires positive { IsPositive (sides_of size) }
        requires rest { (h : Holding) × IsAtRest (shelf_of self.now) h }
        ensures none { result ≡ None → (free : List Box) → AreFreeBoxes (nodes (shelf_of self.now).slots) free
            → (b : Box) → IsFitting free (sides_of size) b → ⊥ }
        ensures some { IfSome result (IsChosen (shelf_of self.now) (sides_of size)) }
    {
        pick(&self.slots, &self.lists, &self.options, size)
    }

    /// Whether a request of this rounded size fits the first box of its own list, or one of a list to the right and below. Where it
    /// doesn't, it may fit another free box.
    pub fn fits_at_once(&self, size: Size) -> bool
        requires positive { IsPositive (sides_of size) }
        requires rest { (h : Holding) × IsAtRest (shelf_of self.now) h }
        ensures { result ≡ true → (free : List Box) → AreFreeBoxes (nodes (shelf_of self.now).slots) free
            → (b : Box) × IsFitting free (sides_of size) b }
    {
        fits_at_once(&self.slots, &self.lists, &self.options, size)
    }

    /// Makes room for slots in addition to those in use. `Slots` if there would be more than the limit; `Memory`, if
    /// they are more than were ever used and more than there is room for, and memory for them is refused. The slots and
    /// their lists stay as they are.
    pub fn make_room(&mut self, used: u32, limit: u32, needed: u32) -> Result<(), AtlasError>
        requires used { used ≤ limit }
        requires short { (limit ≤ most_slots) × (length (shelf_of self.old).slots ≤ most_slots) }
        ensures ok { OnOk result ((used + needed ≤ limit)
            × ((used + needed ≤ length (shelf_of self.new).slots) ⊎ (used + needed ≤ capacity_in self.new))) }
        ensures refused { IfErr result (IsShortOf used limit needed (length (shelf_of self.old).slots)) }
        ensures ready { OnOk result (used + needed ≤ capacity_in self.new) }
        ensures full { result ≡ Err AtlasError.Memory → capacity_in self.old < used + needed }
        ensures err { OnErr result (capacity_in self.new ≡ capacity_in self.old) }
        ensures same { KeepsShelf self.old self.new }
    {
        if needed > limit - used {
            return Err(AtlasError::Slots);
        }
        let all = (used + needed) as usize;
        if all <= self.slots.capacity() {
            return Ok(());
        }
        if all <= FEW {
            self.slots.reserve_exact(FEW - self.slots.len())?;
        } else {
            self.lists.grow()?;
            self.slots.reserve(all - self.slots.len())?;
        }
        Ok(())
    }
}
