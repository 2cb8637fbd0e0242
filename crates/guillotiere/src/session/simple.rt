//! Lists of calls of a simple allocator, and their replies.
ghost use Rattle.std.specs.Prelude.{◌≡◌, ◌+◌, ◌<◌, ◌≤◌, All, take, drop, length, vec_capacity, vec_len};
ghost use Rattle.std.specs.Prelude.{OnOk, OnErr, IsOkUnless};
ghost use Rattle.atlas_model.specs.Pixels.{sides_of, options_of};
ghost use Rattle.atlas_model.specs.Simple.{simple_done};
ghost use Rattle.atlas_model.specs.Simple.SimpleAtlasCall.{Allocate, Grow, Reset};
ghost use Rattle.guillotiere.specs.SimpleSessions.{simple_call_of, simple_answer_of, GrantsExact};
ghost use Rattle.guillotiere.specs.SimpleSessions.{IsSimpleSession, IsSimplyAnswered};
ghost use Rattle.atlas_store.specs.Stored.{state_of};

use crate::simple::SimpleAtlasAllocator;
use atlas_allocator::AtlasAllocator;
use atlas_model::{AllocatorOptions, AtlasError, Rectangle, Size};
use std::alloc::Allocator;

/// A call of a simple allocator, as data.
#[derive(Clone, Copy, Debug, PartialEq, Eq)]
pub enum SimpleCall {
    /// `allocate`
    Allocate(Size),
    /// `grow`, to a size of which no side is below that of the allocator.
    Grow(Size),
    /// `clear`
    Clear,
    /// `reset`, to a size that isn't empty, with valid options.
    Reset(Size, AllocatorOptions),
    /// `init_from_allocator`, from the atlas that is passed along with the calls.
    Start,
}

/// What a call of a simple allocator answers.
#[derive(Clone, Copy, Debug, PartialEq, Eq)]
pub enum SimpleReply {
    /// A request was granted this rectangle.
    Granted(Rectangle),
    /// A request has no room; nothing changed.
    NoRoom,
    /// A growth, a clearing, a reset or a start is done.
    Done,
    /// The call was refused; nothing changed.
    Refused(AtlasError),
    /// The condition of the call doesn't hold; nothing changed.
    BadCall,
}

// What a call answers that gives nothing back.
fn done(answer: Result<(), AtlasError>) -> SimpleReply
    ensures reply { simple_answer_of result ≡ simple_done answer }
    ensures exact { GrantsExact result }
{
    match answer {
        Ok(()) => SimpleReply::Done,
        Err(error) => SimpleReply::Refused(error),
    }
}

fn allocate<A: Allocator + Copy>(simple: &mut SimpleAtlasAllocator<A>, size: Size) -> SimpleReply
    ensures { IsSimplyAnswered simple.old (Allocate (sides_of size)) result simple.new }
{
    match simple.allocate(size) {
        Ok(Some(rectangle)) => SimpleReply::Granted(rectangle),
        Ok(None) => SimpleReply::NoRoom,
        Err(error) => SimpleReply::Refused(error),
    }
}

fn grow<A: Allocator + Copy>(simple: &mut SimpleAtlasAllocator<A>, size: Size) -> SimpleReply
    ensures { IsSimplyAnswered simple.old (Grow (sides_of size)) result simple.new }
{
    if !simple.can_grow_to(size) {
        return SimpleReply::BadCall;
    }
    done(simple.grow(size))
}

fn reset<A: Allocator + Copy>(
    simple: &mut SimpleAtlasAllocator<A>,
    size: Size,
    options: &AllocatorOptions,
) -> SimpleReply
    ensures { IsSimplyAnswered simple.old (Reset (sides_of size) (options_of options.now)) result simple.new }
{
    if !size.is_positive() || !options.is_valid() {
        return SimpleReply::BadCall;
    }
    done(simple.reset(size, options))
}

// Makes a call of a simple allocator. Where the condition of the call doesn't hold it answers `BadCall`. Unless the
// reply says that something was done, nothing changes.
fn make<A: Allocator + Copy>(
    simple: &mut SimpleAtlasAllocator<A>,
    source: &AtlasAllocator<A>,
    call: &SimpleCall,
) -> SimpleReply
    ensures { IsSimplyAnswered simple.old (simple_call_of (state_of source.now) call.now) result simple.new }
{
    match call {
        SimpleCall::Allocate(size) => allocate(simple, *size),
        SimpleCall::Grow(size) => grow(simple, *size),
        SimpleCall::Clear => done(simple.clear()),
        SimpleCall::Reset(size, options) => reset(simple, *size, options),
        SimpleCall::Start => done(simple.init_from_allocator(source)),
    }
}

/// Makes calls of a simple allocator in turn, and appends a reply for each; `Start` takes over from `source`. Room for
/// all replies is reserved first: `Memory` is the only error, if `replies` has less, and after it allocator and replies are
/// as before. The room of the list is never given back. So the rectangles granted since the last start never overlap each
/// other or what the source then held live (docs/MODEL.md, "The simple allocator").
pub fn run_simple<A: Allocator + Copy>(
    simple: &mut SimpleAtlasAllocator<A>,
    source: &AtlasAllocator<A>,
    calls: &[SimpleCall],
    replies: &mut Vec<SimpleReply, A>,
) -> Result<(), AtlasError>
    ensures unless { IsOkUnless result AtlasError.Memory }
    ensures session { OnOk result
        (IsSimpleSession (state_of source.now) simple.old calls.now
        (drop (vec_len replies.old) replies.new.items) simple.new) }
    ensures exact { OnOk result (All GrantsExact (drop (vec_len replies.old) replies.new.items)) }
    ensures kept { take (vec_len replies.old) replies.new.items ≡ replies.old.items }
    ensures refused { OnErr result (simple.new ≡ simple.old) }
    ensures no_reply { OnErr result (replies.new.items ≡ replies.old.items) }
    ensures memory { OnErr result (vec_capacity replies.old < vec_len replies.old + length calls.now) }
    ensures capacity { vec_capacity replies.old ≤ vec_capacity replies.new }
{
    replies.reserve(calls.len())?;
    // Its contract says what each simple allocator keeps.
    let _size = simple.size();
    for call in calls {
        replies.push_reserved(make(simple, source, call));
    }
    Ok(())
}
