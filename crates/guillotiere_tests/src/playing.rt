//! How rows are played: with ample memory, and with each request for memory refused in turn. One function makes all calls that
//! a session has. Functions are small, since a function's proof grows with the square of its length.

use crate::atlas_calls::{Atlas, Grant, MOST_SLOTS, Row, Sight, Step, look_at};
use crate::refusing::Refusing;
use crate::tables::{Corners, rectangle, size};
use guillotiere::session::{Call, Reply, step};
use guillotiere::{AllocId, Allocation, AtlasAllocator, AtlasError, Change, Rectangle};
use std::alloc::Global;
use std::process::Abort;

pub type Answer<'a> = Reply<&'a Refusing<Global>>;

/// The atlas of a row; asked for again where memory is refused once.
pub fn created<'a>(
    rt: &impl Abort,
    heap: &'a Refusing<Global>,
    row: &Row,
) -> Result<Atlas<'a>, AtlasError> {
    match created_once(rt, heap, row) {
        Err(AtlasError::Memory) => created_once(rt, heap, row),
        first => first,
    }
}

fn created_once<'a>(
    rt: &impl Abort,
    heap: &'a Refusing<Global>,
    row: &Row,
) -> Result<Atlas<'a>, AtlasError> {
    let size = size(row.size);
    assert!(rt; !size.is_empty());
    assert!(rt; row.options.is_valid());
    assert!(rt; 1 <= row.limit && row.limit <= MOST_SLOTS);
    AtlasAllocator::with_slot_limit(heap, size, &row.options, row.limit)
}

/// The call that a step makes; None if it is none that a session has.
pub fn call_of(made: &Step) -> Option<Call> {
    Some(match made {
        Step::Allocate(sides, _) | Step::AllocateBeyondLimit(sides) => Call::Allocate(size(*sides)),
        Step::Deallocate(number) | Step::DeallocateDead(number) => {
            Call::Deallocate(AllocId::deserialize(*number))
        }
        Step::Grow(sides) | Step::GrowBeyondLimit(sides) | Step::BadGrow(sides) => {
            Call::Grow(size(*sides))
        }
        Step::Clear => Call::Clear,
        Step::Reset(sides, options) | Step::BadReset(sides, options) => {
            Call::Reset(size(*sides), *options)
        }
        Step::Rearrange(..) | Step::RearrangeBeyondLimit => Call::Rearrange,
        Step::BadResize(sides) => Call::ResizeAndRearrange(size(*sides)),
        _ => return None,
    })
}

fn allocation((id, corners): Grant) -> Allocation {
    Allocation {
        id: AllocId::deserialize(id),
        rectangle: rectangle(corners),
    }
}

// What a step's call is answered, but for a rearrangement's list.
fn want_of<'a>(made: &Step) -> Answer<'a> {
    match made {
        Step::Allocate(_, Some(grant)) => Reply::Allocated(allocation(*grant)),
        Step::Allocate(_, None) => Reply::NoRoom,
        Step::DeallocateDead(_) => Reply::Refused(AtlasError::NotLive),
        Step::AllocateBeyondLimit(_) | Step::GrowBeyondLimit(_) | Step::RearrangeBeyondLimit => {
            Reply::Refused(AtlasError::Slots)
        }
        Step::BadGrow(_) | Step::BadReset(..) | Step::BadResize(_) => Reply::BadCall,
        _ => Reply::Done,
    }
}

/// Whether boxes are these grants, in this order.
pub fn are_grants(found: &[Allocation], want: &[Grant]) -> bool {
    let are_equal = found
        .iter()
        .zip(want)
        .all(|(shown, grant)| *shown == allocation(*grant));
    are_equal && found.len() == want.len()
}

fn are_changes(found: &[Change], want: &[(Grant, Grant)]) -> bool {
    let are_equal = found.iter().zip(want).all(|(change, (old, new))| {
        change.old == allocation(*old) && change.new == allocation(*new)
    });
    are_equal && found.len() == want.len()
}

/// Whether a reply is what a step's call is answered.
pub fn is_answer(reply: &Answer<'_>, made: &Step) -> bool {
    let Step::Rearrange(moved, lost) = made else {
        return *reply == want_of(made);
    };
    match reply {
        Reply::Changed(list) => {
            are_changes(list.changes.as_slice(), moved)
                && are_grants(list.failures.as_slice(), lost)
        }
        _ => false,
    }
}

/// Memory is refused once at most, and where it was nothing that can be seen has changed.
pub fn is_as_before(rt: &impl Abort, heap: &Refusing<Global>, atlas: &Atlas<'_>, before: &Sight) {
    assert!(rt; heap.is_done(), "a second refusal");
    assert!(rt;
        look_at(atlas) == *before,
        "a refused call changed the atlas"
    );
}

fn answered_once<'a>(atlas: &mut Atlas<'a>, call: &Call) -> Answer<'a> {
    step(atlas, call)
}

// What a call is answered; one that is refused memory is made again.
fn answered<'a>(
    rt: &impl Abort,
    heap: &Refusing<Global>,
    atlas: &mut Atlas<'a>,
    call: &Call,
    before: &Sight,
) -> Answer<'a> {
    let reply = answered_once(atlas, call);
    if reply == Reply::Refused(AtlasError::Memory) {
        is_as_before(rt, heap, atlas, before);
        return answered_once(atlas, call);
    }
    reply
}

// Makes a call; what grants nothing and does nothing changes nothing that can be seen.
fn called(
    rt: &impl Abort,
    heap: &Refusing<Global>,
    atlas: &mut Atlas<'_>,
    made: &Step,
    call: &Call,
) {
    let before = look_at(atlas);
    let reply = answered(rt, heap, atlas, call, &before);
    assert!(rt; is_answer(&reply, made), "{reply:?} to {call:?}");
    let after = look_at(atlas);
    match reply {
        Reply::Allocated(_) | Reply::Done | Reply::Changed(_) => {
            assert!(rt; after.may_follow(&before, call), "{call:?}");
        }
        _ => assert!(rt; after == before, "{call:?}"),
    }
}

fn deallocate_all(alloc: Global, atlas: &mut Atlas<'_>, numbers: &[u32]) -> Result<(), AtlasError> {
    let mut ids = Vec::new(alloc);
    for number in numbers {
        ids.push(AllocId::deserialize(*number))?;
    }
    atlas.deallocate_all(ids.as_slice())
}

// Frees several boxes; an error changes nothing that can be seen.
fn freed(
    rt: &impl Abort,
    alloc: Global,
    atlas: &mut Atlas<'_>,
    numbers: &[u32],
    want: Result<(), AtlasError>,
) {
    let before = look_at(atlas);
    assert!(rt; deallocate_all(alloc, atlas, numbers) == want);
    assert!(rt; want.is_ok() || look_at(atlas) == before);
}

// The lists of free and of allocated boxes, asked for again where memory is refused.

fn free_list<'a>(
    rt: &impl Abort,
    heap: &Refusing<Global>,
    atlas: &Atlas<'a>,
) -> Result<Vec<Rectangle, &'a Refusing<Global>>, AtlasError> {
    let answer = atlas.free_rectangles();
    if answer.is_err() {
        assert!(rt; heap.is_done());
        return atlas.free_rectangles();
    }
    answer
}

fn live_list<'a>(
    rt: &impl Abort,
    heap: &Refusing<Global>,
    atlas: &Atlas<'a>,
) -> Result<Vec<Allocation, &'a Refusing<Global>>, AtlasError> {
    let answer = atlas.allocations();
    if answer.is_err() {
        assert!(rt; heap.is_done());
        return atlas.allocations();
    }
    answer
}

fn are_boxes(found: &[Rectangle], want: &[Corners]) -> bool {
    for corners in want {
        if !found.contains(&rectangle(*corners)) {
            return false;
        }
    }
    found.len() == want.len()
}

// A question, and its answer.
fn seen(
    rt: &impl Abort,
    heap: &Refusing<Global>,
    atlas: &Atlas<'_>,
    asked: &Step,
) -> Result<bool, AtlasError> {
    Ok(match asked {
        Step::Get(number, want) => atlas.get(AllocId::deserialize(*number)) == want.map(rectangle),
        Step::IsEmpty(want) => atlas.is_empty() == *want,
        Step::Slots(used, kept) => {
            let slots = atlas.slots();
            slots.used == *used && slots.kept == *kept
        }
        Step::Free(want) => are_boxes(free_list(rt, heap, atlas)?.as_slice(), want),
        Step::Live(want) => are_grants(live_list(rt, heap, atlas)?.as_slice(), want),
        _ => true,
    })
}

// Makes a step that isn't a call of a session.
fn done_beside(
    rt: &impl Abort,
    alloc: Global,
    heap: &Refusing<Global>,
    atlas: &mut Atlas<'_>,
    made: &Step,
) -> Result<(), AtlasError> {
    match made {
        Step::DeallocateAll(numbers) => freed(rt, alloc, atlas, numbers, Ok(())),
        Step::DeallocateAllDead(numbers) => {
            freed(rt, alloc, atlas, numbers, Err(AtlasError::NotLive))
        }
        Step::RefuseEvery => heap.refuse_every(),
        Step::RefuseNone => heap.refuse_nth(0),
        _ => assert!(rt; seen(rt, heap, atlas, made)?),
    }
    Ok(())
}

// Whether a step asks for no memory, whatever was used before.
fn is_free_of_requests(made: &Step) -> bool {
    match made {
        Step::Allocate(_, want) => want.is_none(),
        Step::Grow(_)
        | Step::Rearrange(..)
        | Step::RearrangeBeyondLimit
        | Step::Free(_)
        | Step::Live(_) => false,
        _ => true,
    }
}

/// Makes calls of an atlas; one that is refused memory once is made again.
pub fn make_all(
    rt: &impl Abort,
    alloc: Global,
    heap: &Refusing<Global>,
    atlas: &mut Atlas<'_>,
    steps: &[Step],
) -> Result<(), AtlasError> {
    for (at, made) in steps.iter().enumerate() {
        let requests = heap.requests();
        match call_of(made) {
            Some(call) => called(rt, heap, atlas, made, &call),
            None => done_beside(rt, alloc, heap, atlas, made)?,
        }
        let no_request = heap.requests() == requests;
        assert!(rt;
            no_request || !is_free_of_requests(made),
            "step {at} asked for memory"
        );
    }
    Ok(())
}

// Makes the calls of a row; one that is refused memory once is made again.
fn play(
    rt: &impl Abort,
    alloc: Global,
    heap: &Refusing<Global>,
    row: &Row,
) -> Result<(), AtlasError> {
    let mut atlas = created(rt, heap, row)?;
    assert!(rt;
        look_at(&atlas).is_fresh(size(row.size), row.limit),
        "{:?}",
        row.size
    );
    make_all(rt, alloc, heap, &mut atlas, row.start)?;
    make_all(rt, alloc, heap, &mut atlas, row.calls)
}

// Plays a row with each request for memory refused in turn, up to the first time that none is.
fn play_with_refusals(
    rt: &impl Abort,
    alloc: Global,
    heap: &Refusing<Global>,
    row: &Row,
) -> Result<(), AtlasError> {
    let mut refusals = 0;
    for number in 1..1000 {
        heap.refuse_nth(number);
        play(rt, alloc, heap, row)?;
        if !heap.is_done() {
            break;
        }
        refusals = number;
    }
    assert!(rt; 0 < refusals && refusals < 999, "{:?}", row.size);
    Ok(())
}

/// Plays rows, each with each request for memory refused in turn, and then with none refused.
pub fn play_all_with_refusals(
    rt: &impl Abort,
    alloc: Global,
    rows: &[Row],
) -> Result<(), AtlasError> {
    let heap = Refusing::new(alloc);
    for row in rows {
        play_with_refusals(rt, alloc, &heap, row)?;
    }
    Ok(())
}

/// Plays rows that say themselves which requests for memory are refused.
pub fn play_all(rt: &impl Abort, alloc: Global, rows: &[Row]) -> Result<(), AtlasError> {
    let heap = Refusing::new(alloc);
    for row in rows {
        play(rt, alloc, &heap, row)?;
    }
    Ok(())
}

// An atlas that is made again of its data.
fn made_again<'a>(
    rt: &impl Abort,
    heap: &'a Refusing<Global>,
    atlas: &Atlas<'a>,
) -> Result<Atlas<'a>, AtlasError> {
    let image = atlas.image()?;
    let made = AtlasAllocator::from_image(heap, &image)?;
    let again = made.expect(rt, "an atlas's data");
    assert!(rt; look_at(&again) == look_at(atlas));
    Ok(again)
}

fn play_again(
    rt: &impl Abort,
    alloc: Global,
    heap: &Refusing<Global>,
    row: &Row,
) -> Result<(), AtlasError> {
    let mut atlas = created(rt, heap, row)?;
    make_all(rt, alloc, heap, &mut atlas, row.start)?;
    let mut again = made_again(rt, heap, &atlas)?;
    make_all(rt, alloc, heap, &mut again, row.calls)
}

/// Plays rows over atlases that were made again of their data after the calls that come first.
pub fn play_all_again(rt: &impl Abort, alloc: Global, rows: &[Row]) -> Result<(), AtlasError> {
    let heap = Refusing::new(alloc);
    for row in rows {
        play_again(rt, alloc, &heap, row)?;
    }
    Ok(())
}
