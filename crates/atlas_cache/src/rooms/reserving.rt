//! Memory for slots of the pages before they are used.
ghost use Rattle.std.specs.Prelude.{◌≡◌, ◌≢◌, map, Err, IfErr, OnOk};
ghost use Rattle.guillotiere.specs.Stored.{state_of};
ghost use Rattle.atlas_cache.specs.Reserving.{AllowSlots, HaveSlots, IsShortFor, StopsAtPage, UseAtMost};
ghost use Rattle.atlas_cache.specs.Rooms.{IsRefusal};
ghost use Rattle.atlas_entries.specs.declared.error.CacheError.TheVariants.{Memory, Slots};

use crate::rooms::{Rooms, refusal};
use atlas_entries::error::CacheError;
use std::alloc::Allocator;

impl<A: Allocator + Copy> Rooms<A> {
    /// At least so many slots are in reserve on each page from now on, so that a grant on it, which takes at most 4, asks for
    /// no memory, and no page passes the 16,777,216 that it may use. Nothing else changes. `Slots` only if a page would use more than
    /// that with them, `Memory` only if some page hasn't as many in reserve and memory is refused; the pages before that one have theirs
    /// in reserve then, and it and those after it are as they were.
    pub fn reserve_slots(&mut self, additional: u32) -> Result<(), CacheError>
        ensures ready { OnOk result (HaveSlots additional self.new.pages) }
        ensures states { map state_of self.new.pages ≡ map state_of self.old.pages }
        ensures slots { UseAtMost 0 self.old.pages self.new.pages }
        ensures options { self.new.options ≡ self.old.options }
        ensures errors { IfErr result IsRefusal }
        ensures short { result ≡ Err Slots → IsShortFor additional self.old.pages }
        ensures had { HaveSlots additional self.old.pages → result ≢ Err Memory }
        ensures allowed { OnOk result (AllowSlots additional self.new.pages) }
        ensures stops { IfErr result (λ error. StopsAtPage additional error self.old.pages self.new.pages) }
    {
        for page in 0..self.pages.len() {
            if let Err(error) = self.pages[page].reserve(additional) {
                return Err(refusal(error));
            }
        }
        Ok(())
    }
}
