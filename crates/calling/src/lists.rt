//! Lists of calls, made by `session::run`.
ghost use Rattle.std.specs.Prelude.{◌≡◌, ◌≤◌, ◌+◌, true, All, length, IfOk, OnOk, OnErr};
ghost use Rattle.guillotiere.specs.Laws.RunLaws.{IsInOrder, IsRunInOrder, LeavesNoTrace};
ghost use Rattle.guillotiere.specs.RunTurns.{turns_within};
ghost use Rattle.guillotiere.specs.Runs.{is_plain};
ghost use Rattle.guillotiere.specs.Sessions.{IsExactReply, call_of, calls_of, replies_of};
ghost use Rattle.guillotiere.specs.States.{used_in};
ghost use Rattle.guillotiere.specs.Stored.{state_of};

use guillotiere::session::{Call, Reply, run};
use guillotiere::{AtlasAllocator, AtlasError};
use std::alloc::Allocator;

/// Makes the calls of a stranger. Along them boxes tile the atlas and each reply is owed.
pub fn play<A: Allocator + Copy>(
    alloc: A,
    atlas: &mut AtlasAllocator<A>,
    calls: &[Call],
) -> Result<Vec<Reply<A>, A>, AtlasError>
    ensures along { IfOk result (λ replies.
        IsRunInOrder (state_of atlas.old) (calls_of calls.now) (replies_of replies.items) (state_of atlas.new)) }
    ensures end { OnOk result (IsInOrder (state_of atlas.new)) }
    ensures exact { IfOk result (λ replies. All IsExactReply replies.items) }
    ensures refused { OnErr result (atlas.new ≡ atlas.old) }
{
    let mut replies = Vec::new(alloc);
    run(atlas, calls, &mut replies)?;
    Ok(replies)
}

/// Grants, freeings and growths leave no trace, and from an atlas with one member they take few turns.
pub fn churn<A: Allocator + Copy>(
    alloc: A,
    atlas: &mut AtlasAllocator<A>,
    calls: &[Call],
) -> Result<Vec<Reply<A>, A>, AtlasError>
    requires plain { All (λ c. is_plain (call_of c) ≡ true) calls.now }
    requires one { used_in (state_of atlas.old) ≡ 1 }
    ensures trace { IfOk result (λ replies.
        LeavesNoTrace (state_of atlas.old) (calls_of calls.now) (replies_of replies.items) (state_of atlas.new)) }
    ensures turns { IfOk result (λ replies.
        atlas.new.turns ≤ atlas.old.turns + turns_within (calls_of calls.now) (replies_of replies.items)) }
{
    let mut replies = Vec::new(alloc);
    run(atlas, calls, &mut replies)?;
    Ok(replies)
}

/// There is a reply for each call.
pub fn is_second_bad<A: Allocator + Copy>(
    alloc: A,
    atlas: &mut AtlasAllocator<A>,
    calls: &[Call],
) -> Result<bool, AtlasError>
    requires { length calls.now ≡ 2 }
{
    let mut replies = Vec::new(alloc);
    run(atlas, calls, &mut replies)?;
    Ok(replies[1] == Reply::BadCall)
}
