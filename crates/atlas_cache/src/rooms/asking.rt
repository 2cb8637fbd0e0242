//! A request to a page, which isn't searched again where that can't help.
ghost use Rattle.std.specs.Prelude.{◌≡◌, ◌≢◌, Err, IfErr, IfOk, IfSome, IsTrue, None, Ok, OnErr};
ghost use Rattle.guillotiere.specs.Boxes.{Fits, IsPositive};
ghost use Rattle.guillotiere.specs.Callers.{AddsBox, IsAnswer, KeepsFrame};
ghost use Rattle.guillotiere.specs.Pages.{HasRoomFor};
ghost use Rattle.guillotiere.specs.Pixels.{box_of, sides_of};
ghost use Rattle.guillotiere.specs.Replies.{grant_of, IsExact};
ghost use Rattle.guillotiere.specs.Reserves.{HasReserve, UsesAtMost};
ghost use Rattle.guillotiere.specs.States.{IsSound};
ghost use Rattle.guillotiere.specs.Steps.{Step};
ghost use Rattle.guillotiere.specs.Steps.AtlasCall.{Allocate};
ghost use Rattle.guillotiere.specs.Steps.AtlasReply.{Allocated, Refused};
ghost use Rattle.guillotiere.specs.Stored.{state_of, AtlasValue};
ghost use Rattle.atlas_cache.specs.Rooms.{live_area, IsKnown};

use crate::rooms::repacking::area_of;
use guillotiere::{Allocation, AtlasAllocator, AtlasError, Size};
use std::alloc::Allocator;

/// What is kept of a page: two sizes that it has no room for, and the area of what is live on it.
#[derive(Clone, Copy)]
pub struct Known {
    /// What it refused last.
    pub first: Size,
    /// What it refused before that.
    pub second: Size,
    /// The area of what is live on it, in pixels.
    pub live: u64,
}

// A size that no page has room for.
const NO_SIZE: Size = Size {
    width: 0,
    height: 0,
};

/// What is known of a page that changed: the area of what is live on it now.
pub fn changed(live: u64) -> Known
    ensures { (page : AtlasValue) → live ≡ live_area page → IsKnown result page }
{
    Known {
        first: NO_SIZE,
        second: NO_SIZE,
        live,
    }
}

// Whether a page with no room for one size, of which no side is below 1, has none for another either.
fn is_no_smaller(asked: Size, refused: Size) -> bool
    ensures positive { IsTrue result → IsPositive (sides_of refused) }
    ensures fits { IsTrue result → Fits (sides_of refused) (sides_of asked) }
{
    0 < refused.width
        && refused.width <= asked.width
        && 0 < refused.height
        && refused.height <= asked.height
}

// One more size that a page has no room for. Where that is no larger than the first, it takes its place.
fn with(known: Known, asked: Size) -> Known
    ensures { (page : AtlasValue) → IsKnown known page → (HasRoomFor asked page → ⊥) → IsKnown result page }
{
    let second = if is_no_smaller(known.first, asked) {
        known.second
    } else {
        known.first
    };
    Known {
        first: asked,
        second,
        live: known.live,
    }
}

/// Asks a page, as `allocate` does. It isn't searched if it is known to have no room: it had none for a size in `known`, which
/// isn't larger. From then on `known` is what is known of the page: that it has none for this size either, where it granted nothing.
pub fn ask<A: Allocator + Copy>(
    page: &mut AtlasAllocator<A>,
    known: &mut Known,
    asked: Size,
) -> Result<Option<Allocation>, AtlasError>
    requires { IsKnown known.old page.old }
    ensures known { IsKnown known.new page.new }
    ensures answer { IsAnswer (state_of page.old) asked result }
    ensures exact { IfOk result (λ granted. IfSome granted (λ allocation. IsExact allocation.rectangle)) }
    ensures adds { IfOk result (λ granted. IfSome granted (λ a.
        AddsBox (state_of page.old) (state_of page.new) a.id (box_of a.rectangle))) }
    ensures none { result ≡ Ok None → page.new ≡ page.old }
    ensures refused { OnErr result (page.new ≡ page.old) }
    ensures step { IfErr result (λ error. Step (state_of page.old) (Allocate (sides_of asked)) (Refused error)
        (state_of page.new)) }
    ensures grants { IfOk result (λ granted. IfSome granted (λ a.
        Step (state_of page.old) (Allocate (sides_of asked)) (Allocated (grant_of a)) (state_of page.new))) }
    ensures sound { IsSound (state_of page.new) }
    ensures frame { KeepsFrame (state_of page.old) (state_of page.new) }
    ensures slots { UsesAtMost 4 page.old page.new }
    ensures memory { HasReserve 4 page.old → result ≢ Err AtlasError.Memory }
{
    page.prove_sound();
    let _size = page.size();
    if is_no_smaller(asked, known.first) {
        return Ok(None);
    }
    if is_no_smaller(asked, known.second) {
        return Ok(None);
    }
    match page.allocate(asked) {
        Ok(None) => {
            *known = with(*known, asked);
            Ok(None)
        }
        Ok(Some(granted)) => {
            *known = changed(known.live + area_of(granted.rectangle));
            Ok(Some(granted))
        }
        Err(error) => Err(error),
    }
}
