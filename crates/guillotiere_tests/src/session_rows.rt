//! Sessions: worked rows, as one list, and as lists of one call with requests for memory refused.

use crate::atlas_calls::Step::{
    Allocate, BadGrow, BadReset, BadResize, Clear, Deallocate, DeallocateDead, Grow,
    GrowBeyondLimit, Live, Rearrange, Reset,
};
use crate::atlas_calls::{Atlas, MOST_SLOTS, Row, Step, look_at};
use crate::playing::{Answer, call_of, created, is_answer, is_as_before, make_all};
use crate::refusing::Refusing;
use guillotiere::session::{Call, Reply, run};
use guillotiere::{AllocatorOptions, AtlasAllocator, AtlasError, DEFAULT_OPTIONS, Size, size2};
use std::alloc::Global;
use std::process::Abort;
use std::test::Fail;

// No width is a multiple of it.
const ALIGNED_TO_0: AllocatorOptions = AllocatorOptions {
    alignment: Size {
        width: 0,
        height: 1,
    },
    small_size_threshold: 32,
    large_size_threshold: 256,
};

/// The start of each is its list of calls.
pub static ROWS: [Row; 3] = [
    Row {
        size: (10, 10),
        options: DEFAULT_OPTIONS,
        limit: MOST_SLOTS,
        start: &[
            BadGrow((9, 10)),
            BadReset((0, 5), DEFAULT_OPTIONS),
            DeallocateDead(7),
            Rearrange(&[], &[]),
        ],
        calls: &[Live(&[])],
    },
    Row {
        size: (100, 300),
        options: DEFAULT_OPTIONS,
        limit: MOST_SLOTS,
        start: &[
            Allocate((100, 100), Some((0, (0, 0, 100, 100)))),
            Allocate((100, 100), Some((1, (0, 100, 100, 200)))),
            Deallocate(0),
            Allocate((0, 1), None),
            Clear,
            DeallocateDead(1),
            BadResize((0, 9)),
            Grow((120, 300)),
            Allocate((120, 300), Some((0, (0, 0, 120, 300)))),
        ],
        calls: &[Live(&[(0, (0, 0, 120, 300))])],
    },
    // The whole atlas, which must not grow on both sides with three slots, and is freed.
    Row {
        size: (100, 100),
        options: DEFAULT_OPTIONS,
        limit: 3,
        start: &[
            Allocate((100, 100), Some((0, (0, 0, 100, 100)))),
            GrowBeyondLimit((150, 150)),
            BadGrow((100, 99)),
            Grow((150, 100)),
            BadReset((200, 200), ALIGNED_TO_0),
            BadResize((-1, 5)),
            Reset((200, 200), DEFAULT_OPTIONS),
            Allocate((200, 200), Some((0, (0, 0, 200, 200)))),
        ],
        calls: &[Live(&[(0, (0, 0, 200, 200))])],
    },
];

type Replies<'a> = Vec<Answer<'a>, &'a Refusing<Global>>;

// In a function of its own, since its contract is long.
fn listed<'a>(
    atlas: &mut Atlas<'a>,
    calls: &[Call],
    replies: &mut Replies<'a>,
) -> Result<(), AtlasError> {
    run(atlas, calls, replies)
}

fn calls_of(alloc: Global, steps: &[Step]) -> Result<Vec<Call>, AtlasError> {
    let mut calls = Vec::new(alloc);
    for made in steps {
        if let Some(call) = call_of(made) {
            calls.push(call)?;
        }
    }
    Ok(calls)
}

fn are_answers(replies: &[Answer<'_>], steps: &[Step]) -> bool {
    let are_equal = replies
        .iter()
        .zip(steps)
        .all(|(reply, made)| is_answer(reply, made));
    are_equal && replies.len() == steps.len()
}

// Makes the calls of steps as one list.
fn append<'a>(
    alloc: Global,
    atlas: &mut Atlas<'a>,
    steps: &[Step],
    replies: &mut Replies<'a>,
) -> Result<(), AtlasError> {
    let calls = calls_of(alloc, steps)?;
    listed(atlas, calls.as_slice(), replies)
}

// Makes all calls of a row as one list.
fn play_list(
    rt: &impl Abort,
    alloc: Global,
    heap: &Refusing<Global>,
    row: &Row,
) -> Result<(), AtlasError> {
    let mut atlas = created(rt, heap, row)?;
    let mut replies = Vec::new(heap);
    append(alloc, &mut atlas, row.start, &mut replies)?;
    assert!(rt; are_answers(replies.as_slice(), row.start));
    make_all(rt, alloc, heap, &mut atlas, row.calls)
}

#[test]
fn rows_as_one_list(rt: HostRuntime) -> Result<(), Fail> {
    let heap = Refusing::new(rt.alloc());
    for row in &ROWS {
        play_list(&rt, rt.alloc(), &heap, row)?;
    }
    Ok(())
}

// Makes a list of one call. Returns whether it met a refusal of memory; such a reply is taken out again.
fn is_refused<'a>(atlas: &mut Atlas<'a>, call: Call, replies: &mut Replies<'a>) -> bool {
    if listed(atlas, &[call], replies) == Err(AtlasError::Memory) {
        return true;
    }
    let refused = replies.last() == Some(&Reply::Refused(AtlasError::Memory));
    if refused {
        let _reply = replies.pop();
    }
    refused
}

// Makes a list of one call; one that is refused memory once has changed nothing that can be seen, and is made again.
fn run_or_again<'a>(
    rt: &impl Abort,
    heap: &Refusing<Global>,
    atlas: &mut Atlas<'a>,
    call: Call,
    replies: &mut Replies<'a>,
) {
    let before = look_at(atlas);
    let count = replies.len();
    if is_refused(atlas, call, replies) {
        is_as_before(rt, heap, atlas, &before);
        assert!(rt; replies.len() == count, "{call:?}");
        assert!(rt; !is_refused(atlas, call, replies), "{call:?}");
    }
}

// Makes a list of each call of steps.
fn run_each<'a>(
    rt: &impl Abort,
    heap: &Refusing<Global>,
    atlas: &mut Atlas<'a>,
    steps: &[Step],
    replies: &mut Replies<'a>,
) {
    for made in steps {
        if let Some(call) = call_of(made) {
            run_or_again(rt, heap, atlas, call, replies);
        }
    }
}

// Plays a row call by call.
fn play(rt: &impl Abort, heap: &Refusing<Global>, row: &Row) -> Result<(), AtlasError> {
    let mut atlas = created(rt, heap, row)?;
    let mut replies = Vec::new(heap);
    run_each(rt, heap, &mut atlas, row.start, &mut replies);
    assert!(rt; are_answers(replies.as_slice(), row.start));
    Ok(())
}

#[test]
fn rows_with_each_request_for_memory_refused_in_turn(rt: HostRuntime) -> Result<(), Fail> {
    let heap = Refusing::new(rt.alloc());
    for row in &ROWS {
        let mut refusals = 0;
        for number in 1..1000 {
            heap.refuse_nth(number);
            play(&rt, &heap, row)?;
            if !heap.is_done() {
                break;
            }
            refusals = number;
        }
        assert!(rt; 0 < refusals && refusals < 999, "{:?}", row.size);
    }
    Ok(())
}

fn ten_by_ten(heap: &Refusing<Global>) -> Result<Atlas<'_>, AtlasError> {
    AtlasAllocator::new(heap, size2(10, 10))
}

// Makes lists of 100 calls and of none, with every request for memory refused.
fn run_without_memory<'a>(
    rt: &impl Abort,
    heap: &Refusing<Global>,
    atlas: &mut Atlas<'a>,
    replies: &mut Replies<'a>,
) {
    let before = look_at(atlas);
    heap.refuse_every();
    let calls = [Call::Clear; 100];
    let answer = listed(atlas, calls.as_slice(), replies);
    assert!(rt; answer == Err(AtlasError::Memory) && look_at(atlas) == before);
    let answer = listed(atlas, &[], replies);
    assert!(rt; answer == Ok(()) && look_at(atlas) == before);
}

#[test]
fn without_room_for_the_replies_no_call_is_made(rt: HostRuntime) -> Result<(), Fail> {
    let heap = Refusing::new(rt.alloc());
    let mut atlas = ten_by_ten(&heap)?;
    let mut replies = Vec::new(&heap);
    listed(&mut atlas, &[Call::Allocate(size2(5, 10))], &mut replies)?;
    run_without_memory(&rt, &heap, &mut atlas, &mut replies);
    assert!(rt; replies.len() == 1);
    heap.refuse_nth(0);
    Ok(())
}

// Of these the first reply was there before.
static APPENDED: [Step; 4] = [
    BadGrow((9, 9)),
    Allocate((11, 1), None),
    Clear,
    DeallocateDead(0),
];

// The replies to two lists, after the one that was there.
fn appended(alloc: Global, heap: &Refusing<Global>) -> Result<Replies<'_>, AtlasError> {
    let mut atlas = ten_by_ten(heap)?;
    let mut replies = Vec::new(heap);
    replies.push(Reply::BadCall)?;
    append(alloc, &mut atlas, &APPENDED[1..3], &mut replies)?;
    append(alloc, &mut atlas, &APPENDED[3..], &mut replies)?;
    Ok(replies)
}

#[test]
fn replies_are_appended(rt: HostRuntime) -> Result<(), Fail> {
    let heap = Refusing::new(rt.alloc());
    let replies = appended(rt.alloc(), &heap)?;
    assert!(rt; are_answers(replies.as_slice(), &APPENDED));
    Ok(())
}

#[test]
fn calls_and_replies_are_compared(rt: HostRuntime) {
    assert!(rt; Reply::Done != Reply::NoRoom::<Global>);
    assert!(rt; Call::Clear != Call::Rearrange);
}
