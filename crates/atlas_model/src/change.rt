//! What a rearrangement moved, and what found no room.
ghost use Rattle.std.specs.Prelude.{◌≡◌, [], IfOk, IsOkUnless};

use crate::allocation::Allocation;
use crate::error::AtlasError;
use std::alloc::{Allocator, Global};

/// A rectangle that was placed anew, in pixels: under its former id and under the id that it has now. Its sides stay.
#[derive(Clone, Copy, Debug, PartialEq)]
pub struct Change {
    pub old: Allocation,
    pub new: Allocation,
}

/// What a rearrangement did with what was allocated, in the order in which it was tried: `changes` are the rectangles
/// that were placed anew, `failures` those that found no room, whose ids are no longer live.
#[derive(Drop)]
#[derive_where(Debug, PartialEq)]
pub struct ChangeList<A: Allocator + Copy = Global> {
    pub changes: Vec<Change, A>,
    pub failures: Vec<Allocation, A>,
}

impl<A: Allocator + Copy> ChangeList<A> {
    /// Two empty lists. Takes no memory.
    pub fn empty(alloc: A) -> Self
        ensures changes { result.changes.items ≡ [] }
        ensures failures { result.failures.items ≡ [] }
    {
        ChangeList {
            changes: Vec::new(alloc),
            failures: Vec::new(alloc),
        }
    }

    /// Lists with the same changes and failures. `Memory` is the only error.
    pub fn clone(&self) -> Result<Self, AtlasError>
        ensures unless { IsOkUnless result AtlasError.Memory }
        ensures changes { IfOk result (λ list. list.changes.items ≡ self.now.changes.items) }
        ensures failures { IfOk result (λ list. list.failures.items ≡ self.now.failures.items) }
    {
        let alloc = *self.changes.allocator();
        Ok(ChangeList {
            changes: Vec::from_slice(alloc, &self.changes)?,
            failures: Vec::from_slice(alloc, &self.failures)?,
        })
    }
}
