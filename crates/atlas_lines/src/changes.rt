//! Replies to a rearrangement.
ghost use Rattle.std.specs.Prelude.{◌≡◌, ◌≤◌, ◌+◌, ◌++◌, true, false, not, length, decimal, flat_map};
ghost use Rattle.atlas_words.specs.Blocks.{IsGathered};
ghost use Rattle.atlas_words.specs.Devices.{WritesBeginning};
ghost use Rattle.atlas_lines.specs.Machine.{ToolReply};
ghost use Rattle.atlas_lines.specs.Replies.{reply_text, corners_text, change_line, lost_line, counts_line};

use crate::listing::{BLOCK, Waiting, make_room};
use crate::replies::{LINE, push_corners};
use atlas_words::buffer::{FixedBytes, push_unsigned};
use atlas_words::devices::ToolOutput;
use guillotiere::{Allocation, Change};

// Adds an id and a rectangle at the end.
fn push_allocation<const N: usize>(text: &mut FixedBytes<N>, allocation: Allocation)
    requires { length text.old + 108 ≤ N }
    ensures text { text.new ≡ text.old ++ (decimal allocation.id ++ corners_text allocation.rectangle) }
    ensures length { length text.new ≤ length text.old + 108 }
{
    push_unsigned(text, u64::from(allocation.id.serialize()));
    push_corners(text, allocation.rectangle);
}

// Adds the line of a rectangle that was placed anew at the end.
fn push_change<const N: usize>(text: &mut FixedBytes<N>, change: Change)
    requires { length text.old + LINE ≤ N }
    ensures { text.new ≡ text.old ++ change_line change }
{
    text.push_all(b"moved ");
    push_allocation(text, change.old);
    text.push_all(b" to ");
    push_allocation(text, change.new);
    text.push(b'\n');
}

// Adds the line of a rectangle that found no room at the end.
fn push_lost<const N: usize>(text: &mut FixedBytes<N>, allocation: Allocation)
    requires { length text.old + LINE ≤ N }
    ensures { text.new ≡ text.old ++ lost_line allocation }
{
    text.push_all(b"lost ");
    push_allocation(text, allocation);
    text.push(b'\n');
}

// Adds the line with both counts at the end.
fn push_counts<const N: usize>(text: &mut FixedBytes<N>, changes: usize, failures: usize)
    requires { length text.old + LINE ≤ N }
    ensures { text.new ≡ text.old ++ counts_line changes failures }
{
    text.push_all(b"changes ");
    push_unsigned(text, changes as u64);
    text.push_all(b" failures ");
    push_unsigned(text, failures as u64);
    text.push(b'\n');
}

fn send_moved<W: ToolOutput>(output: &mut W, waiting: &mut Waiting, changes: &[Change]) -> bool
    requires { W.has_failed output.old ≡ false }
    ensures gathered { result ≡ true
        → IsGathered (W.contents output.old) (W.contents output.new) waiting.new
        (waiting.old ++ flat_map change_line changes.now) }
    ensures failed { W.has_failed output.new ≡ not result }
    ensures beginning { result ≡ false
        → WritesBeginning (W.contents output.old) (W.contents output.new)
        (waiting.old ++ flat_map change_line changes.now) }
{
    for change in changes {
        if !make_room(output, waiting) {
            return false;
        }
        push_change(waiting, *change);
    }
    true
}

fn send_lost<W: ToolOutput>(output: &mut W, waiting: &mut Waiting, failures: &[Allocation]) -> bool
    requires { W.has_failed output.old ≡ false }
    ensures gathered { result ≡ true
        → IsGathered (W.contents output.old) (W.contents output.new) waiting.new
        (waiting.old ++ flat_map lost_line failures.now) }
    ensures failed { W.has_failed output.new ≡ not result }
    ensures beginning { result ≡ false
        → WritesBeginning (W.contents output.old) (W.contents output.new)
        (waiting.old ++ flat_map lost_line failures.now) }
{
    for allocation in failures {
        if !make_room(output, waiting) {
            return false;
        }
        push_lost(waiting, *allocation);
    }
    true
}

// Adds the line with both counts. `false` where the device failed.
fn end_changes<W: ToolOutput>(
    output: &mut W,
    waiting: &mut Waiting,
    changes: usize,
    failures: usize,
) -> bool
    requires { W.has_failed output.old ≡ false }
    ensures gathered { result ≡ true
        → IsGathered (W.contents output.old) (W.contents output.new) waiting.new
        (waiting.old ++ counts_line changes failures) }
    ensures failed { W.has_failed output.new ≡ not result }
    ensures beginning { result ≡ false
        → WritesBeginning (W.contents output.old) (W.contents output.new)
        (waiting.old ++ counts_line changes failures) }
{
    if !make_room(output, waiting) {
        return false;
    }
    push_counts(waiting, changes, failures);
    true
}

/// Adds the lines of a rearrangement; what waited is written where there is no room. `false` where the device failed.
pub fn send_changes<W: ToolOutput>(
    output: &mut W,
    waiting: &mut Waiting,
    changes: &[Change],
    failures: &[Allocation],
) -> bool
    requires { W.has_failed output.old ≡ false }
    ensures gathered { result ≡ true
        → IsGathered (W.contents output.old) (W.contents output.new) waiting.new
        (waiting.old ++ reply_text (ToolReply.ChangeLines changes.now failures.now)) }
    ensures failed { W.has_failed output.new ≡ not result }
    ensures beginning { result ≡ false
        → WritesBeginning (W.contents output.old) (W.contents output.new)
        (waiting.old ++ reply_text (ToolReply.ChangeLines changes.now failures.now)) }
{
    if !send_moved(output, waiting, changes) {
        return false;
    }
    if !send_lost(output, waiting, failures) {
        return false;
    }
    end_changes(output, waiting, changes.len(), failures.len())
}
