//! What entries show: each live name with the rectangle of its id.
ghost use Rattle.std.specs.Prelude.{◌≡◌, IsSome, IfOk, IsOkUnless, All, map};
ghost use Rattle.std.specs.List.{FoldsTo};
ghost use Rattle.guillotiere.specs.Stored.{state_of};
ghost use Rattle.guillotiere.specs.Replies.{live_box};
ghost use Rattle.guillotiere.specs.Visits.{CalledAtGrant};
ghost use Rattle.guillotiere.specs.Walks.{IsCallableAlongGrants, IsShownArea};
ghost use Rattle.guillotiere.specs.declared.Allocation.{Allocation as Grant};
ghost use Rattle.guillotiere_recording.specs.declared.names.LiveName.{LiveName as Entry};
ghost use Rattle.guillotiere_recording.specs.Names.{shown};

use crate::error::RecordingError;
use crate::names::LiveName;
use guillotiere::{AllocId, Allocation, AtlasAllocator, Rectangle};
use std::alloc::Allocator;

/// Calls `visit` on each name and its rectangle, in order. Requires that `visit` may be called along that list.
pub fn visit_names<A: Allocator + Copy, F: FnMut(AllocId, &Rectangle)>(
    atlas: &AtlasAllocator<A>,
    names: &[LiveName],
    mut visit: F,
)
    requires live { All (λ (n : Entry). IsSome (live_box (state_of atlas.now) n.id)) names.now }
    requires shown { All (λ (a : Grant). IsShownArea a.rectangle) (map (shown (state_of atlas.now)) names.now) }
    requires callable { IsCallableAlongGrants F.FnMut (λ (a : Grant). IsShownArea a.rectangle) visit
        (map (shown (state_of atlas.now)) names.now) }
    ensures { (last : F) × FoldsTo (CalledAtGrant F.FnMut) visit (map (shown (state_of atlas.now)) names.now) last }
{
    for entry in names {
        visit(AllocId::deserialize(entry.name), &atlas[entry.id]);
    }
}

/// The names with their rectangles, in order. `Memory` is the only error.
pub fn gather_names<A: Allocator + Copy>(
    alloc: A,
    atlas: &AtlasAllocator<A>,
    names: &[LiveName],
) -> Result<Vec<Allocation, A>, RecordingError>
    requires { All (λ (n : Entry). IsSome (live_box (state_of atlas.now) n.id)) names.now }
    ensures unless { IsOkUnless result RecordingError.Memory }
    ensures list { IfOk result (λ found. found.items ≡ map (shown (state_of atlas.now)) names.now) }
{
    let mut found = Vec::new(alloc);
    for entry in names {
        found.push(Allocation {
            id: AllocId::deserialize(entry.name),
            rectangle: atlas[entry.id],
        })?;
    }
    Ok(found)
}
