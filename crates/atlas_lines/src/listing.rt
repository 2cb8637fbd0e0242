//! Replies, gathered in a fixed buffer and written to a device in blocks.
ghost use Rattle.std.specs.Prelude.{◌≡◌, ◌≤◌, ◌+◌, ◌++◌, [], true, false, not, length};
ghost use Rattle.std.specs.Io.KnownBytes.{Appends};
ghost use Rattle.guillotiere.specs.declared.Allocation.{Allocation};
ghost use Rattle.guillotiere.specs.declared.Rectangle.{Rectangle};
ghost use Rattle.atlas_lines.specs.Answers.{shown_by};
ghost use Rattle.atlas_words.specs.Blocks.{IsGathered};
ghost use Rattle.atlas_words.specs.Devices.{WritesBeginning};
ghost use Rattle.atlas_lines.specs.Machine.{ToolReply};
ghost use Rattle.atlas_lines.specs.Replies.{reply_text, line_text, bad_line_text, live_line, hole_line, count_line};

use crate::changes::send_changes;
use crate::replies::{Answer, LINE, Reply, push_bad_line, push_corners, push_reply};
use atlas_words::buffer::{FixedBytes, push_unsigned};
use atlas_words::devices::{ToolOutput, write_all};
use guillotiere::{Allocation, Rectangle};
use std::alloc::Allocator;

/// How many bytes of replies are written at once, at most.
pub const BLOCK: usize = 65536;

/// Text that waits to be written.
pub type Waiting = FixedBytes<BLOCK>;

/// Writes all that waits. `false` where the device failed.
pub fn flush<W: ToolOutput>(output: &mut W, waiting: &mut Waiting) -> bool
    requires { W.has_failed output.old ≡ false }
    ensures empty { result ≡ true → waiting.new ≡ [] }
    ensures written { result ≡ true → Appends (W.contents output.old) (W.contents output.new) waiting.old }
    ensures failed { W.has_failed output.new ≡ not result }
    ensures beginning { result ≡ false → WritesBeginning (W.contents output.old) (W.contents output.new) waiting.old }
{
    if !write_all(output, waiting.as_slice()) {
        return false;
    }
    waiting.clear();
    true
}

// Adds the line of a live rectangle at the end.
fn push_live<const N: usize>(text: &mut FixedBytes<N>, allocation: Allocation)
    requires { length text.old + LINE ≤ N }
    ensures text { text.new ≡ text.old ++ live_line allocation }
    ensures length { length text.new ≤ length text.old + LINE }
{
    text.push_all(b"box ");
    push_unsigned(text, u64::from(allocation.id.serialize()));
    push_corners(text, allocation.rectangle);
    text.push(b'\n');
}

// Adds the line of a free rectangle at the end.
fn push_hole<const N: usize>(text: &mut FixedBytes<N>, area: Rectangle)
    requires { length text.old + LINE ≤ N }
    ensures text { text.new ≡ text.old ++ hole_line area }
    ensures length { length text.new ≤ length text.old + LINE }
{
    text.push_all(b"hole");
    push_corners(text, area);
    text.push(b'\n');
}

// Adds a word and a count at the end.
fn push_count<const N: usize>(text: &mut FixedBytes<N>, word: &[u8], count: usize)
    requires room { length text.old + LINE ≤ N }
    requires short { length word.now ≤ 100 }
    ensures text { text.new ≡ text.old ++ count_line word.now count }
{
    text.push_all(word);
    push_unsigned(text, count as u64);
    text.push(b'\n');
}

/// Writes what waits if there is no room for another line. `false` where the device failed.
pub fn make_room<W: ToolOutput>(output: &mut W, waiting: &mut Waiting) -> bool
    requires { W.has_failed output.old ≡ false }
    ensures room { result ≡ true → length waiting.new + LINE ≤ BLOCK }
    ensures gathered { result ≡ true
        → IsGathered (W.contents output.old) (W.contents output.new) waiting.new waiting.old }
    ensures failed { W.has_failed output.new ≡ not result }
    ensures beginning { result ≡ false → WritesBeginning (W.contents output.old) (W.contents output.new) waiting.old }
{
    if waiting.len() + LINE <= BLOCK {
        return true;
    }
    flush(output, waiting)
}

fn send_line<W: ToolOutput>(output: &mut W, waiting: &mut Waiting, reply: Reply) -> bool
    requires { W.has_failed output.old ≡ false }
    ensures gathered { result ≡ true
        → IsGathered (W.contents output.old) (W.contents output.new) waiting.new (waiting.old ++ line_text reply) }
    ensures failed { W.has_failed output.new ≡ not result }
    ensures beginning { result ≡ false
        → WritesBeginning (W.contents output.old) (W.contents output.new) (waiting.old ++ line_text reply) }
{
    if !make_room(output, waiting) {
        return false;
    }
    push_reply(waiting, reply);
    true
}

/// Adds the answer to a bad line with this number, and writes all that waits. `false` where the device failed.
pub fn send_bad_line<W: ToolOutput>(output: &mut W, waiting: &mut Waiting, number: u64) -> bool
    requires { W.has_failed output.old ≡ false }
    ensures written { result ≡ true
        → Appends (W.contents output.old) (W.contents output.new) (waiting.old ++ bad_line_text number) }
    ensures failed { W.has_failed output.new ≡ not result }
    ensures beginning { result ≡ false
        → WritesBeginning (W.contents output.old) (W.contents output.new) (waiting.old ++ bad_line_text number) }
{
    if !make_room(output, waiting) {
        return false;
    }
    push_bad_line(waiting, number);
    flush(output, waiting)
}

// Adds a line with a word and a count. `false` where the device failed.
fn end_list<W: ToolOutput>(output: &mut W, waiting: &mut Waiting, word: &[u8], count: usize) -> bool
    requires output { W.has_failed output.old ≡ false }
    requires short { length word.now ≤ 100 }
    ensures gathered { result ≡ true
        → IsGathered (W.contents output.old) (W.contents output.new) waiting.new
        (waiting.old ++ count_line word.now count) }
    ensures failed { W.has_failed output.new ≡ not result }
    ensures beginning { result ≡ false
        → WritesBeginning (W.contents output.old) (W.contents output.new) (waiting.old ++ count_line word.now count) }
{
    if !make_room(output, waiting) {
        return false;
    }
    push_count(waiting, word, count);
    true
}

fn send_live<W: ToolOutput>(output: &mut W, waiting: &mut Waiting, found: &[Allocation]) -> bool
    requires { W.has_failed output.old ≡ false }
    ensures gathered { result ≡ true
        → IsGathered (W.contents output.old) (W.contents output.new) waiting.new
        (waiting.old ++ reply_text (ToolReply.LiveLines found.now)) }
    ensures failed { W.has_failed output.new ≡ not result }
    ensures beginning { result ≡ false
        → WritesBeginning (W.contents output.old) (W.contents output.new)
        (waiting.old ++ reply_text (ToolReply.LiveLines found.now)) }
{
    for allocation in found {
        if !make_room(output, waiting) {
            return false;
        }
        push_live(waiting, *allocation);
    }
    end_list(output, waiting, b"live ", found.len())
}

fn send_holes<W: ToolOutput>(output: &mut W, waiting: &mut Waiting, found: &[Rectangle]) -> bool
    requires { W.has_failed output.old ≡ false }
    ensures gathered { result ≡ true
        → IsGathered (W.contents output.old) (W.contents output.new) waiting.new
        (waiting.old ++ reply_text (ToolReply.HoleLines found.now)) }
    ensures failed { W.has_failed output.new ≡ not result }
    ensures beginning { result ≡ false
        → WritesBeginning (W.contents output.old) (W.contents output.new)
        (waiting.old ++ reply_text (ToolReply.HoleLines found.now)) }
{
    for area in found {
        if !make_room(output, waiting) {
            return false;
        }
        push_hole(waiting, *area);
    }
    end_list(output, waiting, b"holes ", found.len())
}

/// Adds the reply to a command; what waited is written where there is no room. `false` where the device failed.
pub fn send<A: Allocator + Copy, W: ToolOutput>(
    output: &mut W,
    waiting: &mut Waiting,
    answer: &Answer<A>,
) -> bool
    requires { W.has_failed output.old ≡ false }
    ensures gathered { result ≡ true
        → IsGathered (W.contents output.old) (W.contents output.new) waiting.new
        (waiting.old ++ reply_text (shown_by answer.now)) }
    ensures failed { W.has_failed output.new ≡ not result }
    ensures beginning { result ≡ false
        → WritesBeginning (W.contents output.old) (W.contents output.new)
        (waiting.old ++ reply_text (shown_by answer.now)) }
{
    match answer {
        Answer::OneLine(reply) => send_line(output, waiting, *reply),
        Answer::LiveLines(found) => send_live(output, waiting, found.as_slice()),
        Answer::HoleLines(found) => send_holes(output, waiting, found.as_slice()),
        Answer::ChangeLines(list) => send_changes(output, waiting, &list.changes, &list.failures),
    }
}
