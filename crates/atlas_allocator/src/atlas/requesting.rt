//! A request, as `allocate` and a rearrangement make it.
ghost use Rattle.std.specs.Prelude.{◌≡◌, ◌≢◌, ◌<◌, ◌⊎◌, Err, IfOk, IfSome, None, Ok, OnErr};
ghost use Rattle.atlas_model.specs.Callers.{IsAnswer};
ghost use Rattle.atlas_model.specs.Choice.{rounded};
ghost use Rattle.atlas_model.specs.Pixels.{sides_of};
ghost use Rattle.atlas_model.specs.Replies.{allocate_reply, IsExact};
ghost use Rattle.atlas_model.specs.States.{IsSound};
ghost use Rattle.atlas_model.specs.Steps.AtlasCall.{Allocate};
ghost use Rattle.atlas_model.specs.Steps.{Step};
ghost use Rattle.atlas_store.specs.Generations.{AreFirstGenerations};
ghost use Rattle.atlas_store.specs.Reserves.{HasReserve, UsesAtMost};
ghost use Rattle.atlas_store.specs.Stored.{state_of};

use crate::atlas::AtlasAllocator;
use atlas_model::{Allocation, AtlasError, Size};
use atlas_tree::requests::{grant, plan_for, slots_needed};
use std::alloc::Allocator;

impl<A: Allocator + Copy> AtlasAllocator<A> {
    /// Grants a request, as `allocate` does. Where each slot is in its first generation, and none unused, it stays so.
    pub(crate) fn request(&mut self, requested_size: Size) -> Result<Option<Allocation>, AtlasError>
        ensures step { Step (state_of self.old) (Allocate (sides_of requested_size)) (allocate_reply result)
            (state_of self.new) }
        ensures exact { IfOk result (λ granted. IfSome granted (λ allocation. IsExact allocation.rectangle)) }
        ensures none { result ≡ Ok None → self.new ≡ self.old }
        ensures refused { OnErr result (self.new ≡ self.old) }
        ensures turns { self.new.turns ≡ self.old.turns }
        ensures slots { UsesAtMost 4 self.old self.new }
        ensures memory { HasReserve 4 self.old → result ≢ Err AtlasError.Memory }
        ensures answer { IsAnswer (state_of self.old) requested_size result }
        ensures past { (2147483647 < (rounded (state_of self.old).options (sides_of requested_size)).width)
            ⊎ (2147483647 < (rounded (state_of self.old).options (sides_of requested_size)).height) → result ≡ Ok None }
        ensures sound { IsSound (state_of self.old) }
        ensures first { AreFirstGenerations self.old → AreFirstGenerations self.new }
    {
        let Some(size) = self.store.rounded(requested_size) else {
            return Ok(None);
        };
        let Some(chosen) = self.store.choose(size) else {
            return Ok(None);
        };
        let plan = plan_for(&self.store.node(chosen.at), size);
        let needed = slots_needed(plan);
        self.store.make_room(self.used, self.limit, needed)?;
        self.used += needed;
        Ok(Some(grant(&mut self.store, chosen, plan)))
    }
}
