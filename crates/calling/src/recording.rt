//! What is done with recordings: replays, and sessions taken up again.
ghost use Rattle.std.specs.Prelude.{◌≡◌, ℕ, IfSome, IfOk, IfErr, Err, true, count_by};
ghost use Rattle.guillotiere_recording.specs.Recordings.{IsFaithful};
ghost use Rattle.guillotiere_recording.specs.Replays.{IsRecorded, MayFail, is_granted_event};

use guillotiere_recording::{Recording, RecordingAllocator, ReplayFault};

/// Whether a recording is replayed to its end; then it is that of a session.
pub fn is_replayed(recording: &Recording) -> bool
    ensures { result ≡ true → IsRecorded recording.now }
{
    recording.replay().is_ok()
}

/// The number of an event that can't be carried out; then the recording is that of no session.
pub fn bad_event(recording: &Recording) -> Option<usize>
    ensures { IfSome result (λ at. IsRecorded recording.now → ⊥) }
{
    match recording.replay() {
        Err(ReplayFault::BadEvent(at)) => Some(at),
        _ => None,
    }
}

/// How many requests of a recording were granted.
pub fn grants(recording: &Recording) -> Result<u64, ReplayFault>
    ensures count { IfOk result (λ count. count ≡ count_by is_granted_event recording.now.events) }
    ensures fault { IsRecorded recording.now → IfErr result (MayFail recording.now) }
{
    Ok(recording.replay()?.allocations)
}

/// Removes the first event, if there is one.
pub fn remove_first(recording: &mut Recording) {
    if !recording.events().is_empty() {
        recording.remove_event(0);
    }
}

/// Ends a session and replays it: how many requests were granted. No event is bad, so the fault isn't that.
pub fn granted_in(session: RecordingAllocator) -> Result<u64, ReplayFault>
    ensures { (at : ℕ) → result ≡ Err (ReplayFault.BadEvent at) → ⊥ }
{
    grants(&session.finish())
}

/// Takes a session up again where its recording ends: its live names are those of the recording's events.
pub fn gone_on(recording: &Recording) -> Result<RecordingAllocator, ReplayFault>
    ensures same { IfOk result (λ session. session.recording ≡ recording.now) }
    ensures live { IfOk result IsFaithful }
{
    recording.resume()
}
