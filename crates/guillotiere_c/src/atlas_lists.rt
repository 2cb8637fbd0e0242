//! The exports of an atlas that take or write lists.
ghost use Rattle.std.specs.Prelude.{◌≡◌, ◌≢◌, ◌⊎◌, ◌<◌, ◌≤◌, ℕ, List, length, IfOk, IsSome, IsNone};
ghost use Rattle.guillotiere.specs.Batches.{AreLiveOnce};
ghost use Rattle.guillotiere.specs.Boxes.{IsPositive};
ghost use Rattle.guillotiere.specs.Laws.StepLaws.{IsRearrangingStep};
ghost use Rattle.guillotiere.specs.Rearranging.{rearrangement_of, AreExactChanges};
ghost use Rattle.guillotiere.specs.Refits.{Rearrangement};
ghost use Rattle.guillotiere.specs.States.{State, used_in, IsSound};
ghost use Rattle.guillotiere.specs.Steps.AtlasCall.{Rearrange, ResizeAndRearrange};
ghost use Rattle.guillotiere.specs.Steps.AtlasReply.{Changed};
ghost use Rattle.guillotiere.specs.Visits.{AreFreeAreas, AreGrants};
ghost use Rattle.guillotiere.specs.declared.Allocation.{Allocation as Granted};
ghost use Rattle.guillotiere.specs.declared.Rectangle.{Rectangle as Area};
ghost use Rattle.guillotiere_c.specs.Calls.{FreesAll, HoldsAtlas, HoldsReserve, IsHeldStep};
ghost use Rattle.guillotiere_c.specs.Numbers.{allocation_in, change_in, corners_in, sides_in};
ghost use Rattle.guillotiere_c.specs.Rearrangings.{AreBothWritten};
ghost use Rattle.guillotiere_c.specs.Statuses.{plain_reply};
ghost use Rattle.guillotiere_c.specs.Writing.{IsWritten};

use crate::atlas_handle::{AtlasHandle, AtlasReader};
use crate::plain::{
    BAD_CALL, DONE, EMPTY, MEMORY, NOT_LIVE, PlainAllocation, PlainChange, PlainChangeCount,
    PlainRectangle, SHORT, status_of, status_of_done,
};
use crate::writing::{write_allocations, write_changes, write_rectangles};
use guillotiere::{AllocId, AtlasError, ChangeList, size2};
use std::alloc::Global;

/// Writes the live boxes, by rising slot, which is the low 24 bits of the id: as many as there is room for, and into `count`
/// how many there are. What `found` has after them stays. `DONE`; `MEMORY`; `EMPTY`.
#[unsafe(no_mangle)]
pub extern "C" fn guillotiere_atlas_live(
    atlas: &AtlasReader,
    found: &mut [PlainAllocation],
    count: &mut usize,
) -> u32
    ensures list { result ≡ DONE → HoldsAtlas atlas.now.kept (λ s. (list : List Granted) × AreGrants s list
        × (count.new ≡ length list) × IsWritten allocation_in list found.old found.new) }
    ensures refused { result ≢ DONE → (found.new ≡ found.old) × (count.new ≡ count.old) }
    ensures memory { result ≢ DONE → IsSome atlas.now.kept → result ≡ MEMORY }
    ensures empty { IsNone atlas.now.kept → result ≡ EMPTY }
{
    if !atlas.holds() {
        return EMPTY;
    }
    let held = atlas.lent();
    let list = held.allocations();
    let Ok(list) = list else {
        return MEMORY;
    };
    write_allocations(&list, found);
    *count = list.len();
    DONE
}

/// Writes the free boxes, in an order that is left open: as many as there is room for, and into `count` how many there are.
/// What `found` has after them stays. `DONE`; `MEMORY`; `EMPTY`.
#[unsafe(no_mangle)]
pub extern "C" fn guillotiere_atlas_free_boxes(
    atlas: &AtlasReader,
    found: &mut [PlainRectangle],
    count: &mut usize,
) -> u32
    ensures list { result ≡ DONE → HoldsAtlas atlas.now.kept (λ s. (list : List Area) × AreFreeAreas s list
        × (count.new ≡ length list) × IsWritten corners_in list found.old found.new) }
    ensures refused { result ≢ DONE → (found.new ≡ found.old) × (count.new ≡ count.old) }
    ensures memory { result ≢ DONE → IsSome atlas.now.kept → result ≡ MEMORY }
    ensures empty { IsNone atlas.now.kept → result ≡ EMPTY }
{
    if !atlas.holds() {
        return EMPTY;
    }
    let held = atlas.lent();
    let list = held.free_rectangles();
    let Ok(list) = list else {
        return MEMORY;
    };
    write_rectangles(&list, found);
    *count = list.len();
    DONE
}

// Writes both lists of a rearranging.
fn write_list(
    list: &ChangeList,
    changes: &mut [PlainChange],
    failures: &mut [PlainAllocation],
) -> PlainChangeCount
    ensures changes { IsWritten change_in list.now.changes.items changes.old changes.new }
    ensures failures { IsWritten allocation_in list.now.failures.items failures.old failures.new }
    ensures changes_count { result.changes ≡ length list.now.changes.items }
    ensures failures_count { result.failures ≡ length list.now.failures.items }
{
    write_changes(&list.changes, changes);
    write_allocations(&list.failures, failures);
    PlainChangeCount {
        changes: list.changes.len(),
        failures: list.failures.len(),
    }
}

// Writes what a rearranging answered, into arrays that have room for each member that was used.
fn write_whole_list(
    list: &ChangeList,
    changes: &mut [PlainChange],
    failures: &mut [PlainAllocation],
) -> PlainChangeCount
    ensures { (old new : State) → IsRearrangingStep old (rearrangement_of list.now) new
        → used_in old ≤ length changes.old → used_in old ≤ length failures.old → AreExactChanges list.now
        → AreBothWritten (rearrangement_of list.now) (record { changes = changes.old; failures = failures.old })
        (record { changes = changes.new; failures = failures.new }) result }
{
    write_list(list, changes, failures)
}

/// `guillotiere_atlas_resize_and_rearrange` at the present size.
#[unsafe(no_mangle)]
pub extern "C" fn guillotiere_atlas_rearrange(
    alloc: Global,
    atlas: &mut AtlasHandle,
    changes: &mut [PlainChange],
    failures: &mut [PlainAllocation],
    count: &mut PlainChangeCount,
) -> u32
    ensures done { result ≡ DONE → (list : Rearrangement)
        × IsHeldStep atlas.old.kept Rearrange (Changed list) atlas.new.kept
        × AreBothWritten list (record { changes = changes.old; failures = failures.old })
        (record { changes = changes.new; failures = failures.new }) count.new }
    ensures step { IsSome atlas.old.kept → result ≢ DONE → result ≢ SHORT
        → IsHeldStep atlas.old.kept Rearrange (plain_reply result) atlas.new.kept }
    ensures short { result ≡ SHORT → HoldsAtlas atlas.old.kept
        (λ s. (used_in s ≤ length changes.old) × (used_in s ≤ length failures.old) → ⊥) }
    ensures room { HoldsAtlas atlas.old.kept
        (λ s. (length changes.old < used_in s) ⊎ (length failures.old < used_in s)) → result ≡ SHORT }
    ensures sound { IsSome atlas.old.kept → HoldsAtlas atlas.new.kept IsSound }
    ensures refused { result ≢ DONE → atlas.new.kept ≡ atlas.old.kept }
    ensures unwritten { result ≢ DONE
        → (changes.new ≡ changes.old) × (failures.new ≡ failures.old) × (count.new ≡ count.old) }
    ensures empty { IsNone atlas.old.kept → result ≡ EMPTY }
{
    if !atlas.holds() {
        return EMPTY;
    }
    let mut held = atlas.take(alloc);
    let used = held.slots().used as usize;
    if changes.len() < used || failures.len() < used {
        atlas.put(held);
        return SHORT;
    }
    let answer = held.rearrange();
    atlas.put(held);
    match &answer {
        Ok(list) => {
            *count = write_whole_list(list, changes, failures);
            DONE
        }
        Err(error) => status_of(*error),
    }
}

/// Repacks what is live into an empty atlas of this size, the largest first; options and limit stay. All former ids are void.
/// `changes` gets what was placed, `failures` what found no room and is no longer live, `count` how many of each. Both arrays
/// must have room for as many as there are used slots (`guillotiere_atlas_slots`), else the answer is `SHORT`.
/// `DONE`; `BAD_CALL` if a side isn't above 0; `SHORT`; `SLOTS`; `MEMORY`; `EMPTY`.
#[unsafe(no_mangle)]
pub extern "C" fn guillotiere_atlas_resize_and_rearrange(
    alloc: Global,
    atlas: &mut AtlasHandle,
    width: i32,
    height: i32,
    changes: &mut [PlainChange],
    failures: &mut [PlainAllocation],
    count: &mut PlainChangeCount,
) -> u32
    ensures done { result ≡ DONE → (list : Rearrangement)
        × IsHeldStep atlas.old.kept (ResizeAndRearrange (sides_in width height)) (Changed list) atlas.new.kept
        × AreBothWritten list (record { changes = changes.old; failures = failures.old })
        (record { changes = changes.new; failures = failures.new }) count.new }
    ensures step { IsSome atlas.old.kept → result ≢ DONE → result ≢ SHORT → IsHeldStep atlas.old.kept
        (ResizeAndRearrange (sides_in width height)) (plain_reply result) atlas.new.kept }
    ensures short { result ≡ SHORT → HoldsAtlas atlas.old.kept
        (λ s. (used_in s ≤ length changes.old) × (used_in s ≤ length failures.old) → ⊥) }
    ensures bad { IsSome atlas.old.kept → (IsPositive (sides_in width height) → ⊥) → result ≡ BAD_CALL }
    ensures room { IsPositive (sides_in width height) → HoldsAtlas atlas.old.kept
        (λ s. (length changes.old < used_in s) ⊎ (length failures.old < used_in s)) → result ≡ SHORT }
    ensures sound { IsSome atlas.old.kept → HoldsAtlas atlas.new.kept IsSound }
    ensures refused { result ≢ DONE → atlas.new.kept ≡ atlas.old.kept }
    ensures unwritten { result ≢ DONE
        → (changes.new ≡ changes.old) × (failures.new ≡ failures.old) × (count.new ≡ count.old) }
    ensures empty { IsNone atlas.old.kept → result ≡ EMPTY }
{
    if !atlas.holds() {
        return EMPTY;
    }
    let mut held = atlas.take(alloc);
    if width <= 0 || height <= 0 {
        atlas.put(held);
        return BAD_CALL;
    }
    let used = held.slots().used as usize;
    if changes.len() < used || failures.len() < used {
        atlas.put(held);
        return SHORT;
    }
    let answer = held.resize_and_rearrange(size2(width, height));
    atlas.put(held);
    match &answer {
        Ok(list) => {
            *count = write_whole_list(list, changes, failures);
            DONE
        }
        Err(error) => status_of(*error),
    }
}

// The ids of these numbers.
fn ids_of(alloc: Global, numbers: &[u32]) -> Result<Vec<AllocId>, AtlasError>
    ensures { IfOk result (λ ids. ids.items ≡ numbers.now) }
{
    let mut ids = Vec::with_capacity(alloc, numbers.len())?;
    for number in numbers {
        ids.push_reserved(AllocId::deserialize(*number));
    }
    Ok(ids)
}

/// Frees the boxes of a list of ids, all or none. `DONE`; `NOT_LIVE` if one isn't live or is listed twice; `MEMORY`, as the
/// list is copied first; `EMPTY`.
#[unsafe(no_mangle)]
pub extern "C" fn guillotiere_atlas_deallocate_all(
    alloc: Global,
    atlas: &mut AtlasHandle,
    ids: &[u32],
) -> u32
    ensures freed { result ≡ DONE → FreesAll atlas.old.kept ids.now atlas.new.kept }
    ensures live { result ≡ DONE → HoldsAtlas atlas.old.kept (λ s. AreLiveOnce s ids.now) }
    ensures not_live { result ≡ NOT_LIVE → HoldsAtlas atlas.old.kept (λ s. AreLiveOnce s ids.now → ⊥) }
    ensures reserve { (n : ℕ) → HoldsReserve n atlas.old.kept → HoldsReserve n atlas.new.kept }
    ensures unless { IsSome atlas.old.kept → result ≢ DONE → result ≢ NOT_LIVE → result ≡ MEMORY }
    ensures refused { result ≢ DONE → atlas.new.kept ≡ atlas.old.kept }
    ensures sound { IsSome atlas.old.kept → HoldsAtlas atlas.new.kept IsSound }
    ensures empty { IsNone atlas.old.kept → result ≡ EMPTY }
{
    if !atlas.holds() {
        return EMPTY;
    }
    let mut held = atlas.take(alloc);
    let Ok(list) = ids_of(alloc, ids) else {
        atlas.put(held);
        return MEMORY;
    };
    let answer = held.deallocate_all(&list);
    atlas.put(held);
    status_of_done(answer)
}
