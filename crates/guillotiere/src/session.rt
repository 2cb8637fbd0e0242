//! Sessions: lists of calls of an atlas, and their replies.
ghost use Rattle.std.specs.Prelude.{◌≡◌, ◌+◌, ◌≤◌, true, All, take, drop, length, vec_len, vec_capacity};
ghost use Rattle.std.specs.Prelude.{IfOk, Ok, OnOk, OnErr, IsOkUnless};
ghost use Rattle.atlas_model.specs.Pixels.{sides_of, options_of};
ghost use Rattle.atlas_model.specs.Steps.{Step};
ghost use Rattle.atlas_model.specs.Laws.StepLaws.{is_refusal};
ghost use Rattle.atlas_store.specs.Stored.{state_of};
ghost use Rattle.atlas_model.specs.Steps.AtlasCall.{Allocate, Deallocate, Grow, Reset, ResizeAndRearrange};
ghost use Rattle.atlas_model.specs.Steps.AtlasReply.{Refused};
ghost use Rattle.atlas_model.specs.declared.error.AtlasError.TheVariants.{Memory};
ghost use Rattle.atlas_model.specs.Replies.{done_reply};
ghost use Rattle.atlas_model.specs.Rearranging.{change_reply, AreExactChanges};
ghost use Rattle.guillotiere.specs.Sessions.{call_of, reply_of, IsExactReply, MayLackSlots, TakesSlots, TakesTurns};
ghost use Rattle.guillotiere.specs.Sessions.{IsAnswered, IsSession};

mod simple;

use atlas_allocator::AtlasAllocator;
use atlas_model::{AllocId, Allocation, AllocatorOptions, AtlasError, ChangeList, Size};
pub use simple::{SimpleCall, SimpleReply, run_simple};
use std::alloc::{Allocator, Global};

/// A call of an atlas, as data.
#[derive(Clone, Copy, Debug, PartialEq, Eq)]
pub enum Call {
    /// `allocate`
    Allocate(Size),
    /// `deallocate`
    Deallocate(AllocId),
    /// `grow`, to a size of which no side is below that of the atlas.
    Grow(Size),
    /// `clear`
    Clear,
    /// `reset`, to a size that isn't empty, with valid options.
    Reset(Size, AllocatorOptions),
    /// `rearrange`
    Rearrange,
    /// `resize_and_rearrange`, to a size that isn't empty.
    ResizeAndRearrange(Size),
}

/// What a call of an atlas answers.
#[derive(Drop)]
#[derive_where(Debug, PartialEq)]
pub enum Reply<A: Allocator + Copy = Global> {
    /// A request was granted.
    Allocated(Allocation),
    /// A request has no room; nothing changed.
    NoRoom,
    /// A freeing, a growth or a start is done.
    Done,
    /// A rearrangement is done.
    Changed(ChangeList<A>),
    /// The call was refused; nothing changed.
    Refused(AtlasError),
    /// The condition of the call doesn't hold; nothing changed.
    BadCall,
}

// What a call answers that gives nothing back.
fn done<A: Allocator + Copy>(answer: Result<(), AtlasError>) -> Reply<A>
    ensures reply { reply_of result ≡ done_reply answer }
    ensures exact { IsExactReply result }
{
    match answer {
        Ok(()) => Reply::Done,
        Err(error) => Reply::Refused(error),
    }
}

// What a rearrangement answers.
fn changed<A: Allocator + Copy>(answer: Result<ChangeList<A>, AtlasError>) -> Reply<A>
    requires { IfOk answer AreExactChanges }
    ensures reply { reply_of result ≡ change_reply answer }
    ensures exact { IsExactReply result }
{
    match answer {
        Ok(list) => Reply::Changed(list),
        Err(error) => Reply::Refused(error),
    }
}

fn allocate<A: Allocator + Copy>(atlas: &mut AtlasAllocator<A>, size: Size) -> Reply<A>
    ensures { IsAnswered atlas.old (Allocate (sides_of size)) result atlas.new }
{
    match atlas.allocate(size) {
        Ok(Some(allocation)) => Reply::Allocated(allocation),
        Ok(None) => Reply::NoRoom,
        Err(error) => Reply::Refused(error),
    }
}

fn deallocate<A: Allocator + Copy>(atlas: &mut AtlasAllocator<A>, id: AllocId) -> Reply<A>
    ensures { IsAnswered atlas.old (Deallocate id) result atlas.new }
{
    done(atlas.deallocate(id))
}

fn grow<A: Allocator + Copy>(atlas: &mut AtlasAllocator<A>, size: Size) -> Reply<A>
    ensures { IsAnswered atlas.old (Grow (sides_of size)) result atlas.new }
{
    if !atlas.can_grow_to(size) {
        return Reply::BadCall;
    }
    done(atlas.grow(size))
}

fn reset<A: Allocator + Copy>(
    atlas: &mut AtlasAllocator<A>,
    size: Size,
    options: &AllocatorOptions,
) -> Reply<A>
    ensures { IsAnswered atlas.old (Reset (sides_of size) (options_of options.now)) result atlas.new }
{
    if !size.is_positive() || !options.is_valid() {
        return Reply::BadCall;
    }
    done(atlas.reset(size, options))
}

fn resize<A: Allocator + Copy>(atlas: &mut AtlasAllocator<A>, size: Size) -> Reply<A>
    ensures { IsAnswered atlas.old (ResizeAndRearrange (sides_of size)) result atlas.new }
{
    if !size.is_positive() {
        return Reply::BadCall;
    }
    changed(atlas.resize_and_rearrange(size))
}

/// Makes a call of an atlas. Where the condition of the call doesn't hold it answers `BadCall`. Unless the reply says
/// that something was done, nothing changes. Slots in reserve serve it as they serve the call itself: a request uses at most 4
/// more, a growth 3, a freeing or a start none, and no memory is given back but by a rearrangement.
pub fn step<A: Allocator + Copy>(atlas: &mut AtlasAllocator<A>, call: &Call) -> Reply<A>
    ensures step { Step (state_of atlas.old) (call_of call.now) (reply_of result) (state_of atlas.new) }
    ensures exact { IsExactReply result }
    ensures unchanged { is_refusal (reply_of result) ≡ true → atlas.new ≡ atlas.old }
    ensures turns { TakesTurns atlas.old (call_of call.now) (reply_of result) atlas.new }
    ensures slots { TakesSlots atlas.old (call_of call.now) atlas.new }
    ensures memory { reply_of result ≡ Refused Memory → MayLackSlots atlas.old (call_of call.now) }
{
    match call {
        Call::Allocate(size) => allocate(atlas, *size),
        Call::Deallocate(id) => deallocate(atlas, *id),
        Call::Grow(size) => grow(atlas, *size),
        Call::Clear => done(atlas.clear()),
        Call::Reset(size, options) => reset(atlas, *size, options),
        Call::Rearrange => changed(atlas.rearrange()),
        Call::ResizeAndRearrange(size) => resize(atlas, *size),
    }
}

/// Makes calls of an atlas in turn, and appends a reply for each. Room for all replies is reserved first: `Memory` is the
/// only error, it comes only where `replies` has less room, and after it atlas and replies are as before. The room of the list is
/// never given back. Each call is answered as by `step`, from what the one before it left. So after any list of calls the boxes
/// tile the atlas as leaves of one normal tree of cuts, and each reply is owed (docs/MODEL.md, "Sessions").
pub fn run<A: Allocator + Copy>(
    atlas: &mut AtlasAllocator<A>,
    calls: &[Call],
    replies: &mut Vec<Reply<A>, A>,
) -> Result<(), AtlasError>
    ensures unless { IsOkUnless result AtlasError.Memory }
    ensures room { vec_len replies.old + length calls.now ≤ vec_capacity replies.old → result ≡ Ok tt }
    ensures session { OnOk result
        (IsSession atlas.old calls.now (drop (vec_len replies.old) replies.new.items) atlas.new) }
    ensures exact { OnOk result (All IsExactReply (drop (vec_len replies.old) replies.new.items)) }
    ensures kept { take (vec_len replies.old) replies.new.items ≡ replies.old.items }
    ensures refused { OnErr result (atlas.new ≡ atlas.old) }
    ensures no_reply { OnErr result (replies.new.items ≡ replies.old.items) }
    ensures capacity { vec_capacity replies.old ≤ vec_capacity replies.new }
{
    replies.reserve(calls.len())?;
    // Its contract says that the atlas is sound.
    let _size = atlas.size();
    for call in calls {
        replies.push_reserved(step(atlas, call));
    }
    Ok(())
}
