//! A run of the tool, from the bytes of a reader to the bytes of a writer.
ghost use Rattle.std.specs.Prelude.{◌≡◌, ◌≤◌, ◌<◌, ◌+◌, ◌-◌, ◌^◌, [], ◌∷◌, length, Some, None, Ok, Err, false, IsNone};
ghost use Rattle.atlas_words.specs.Lines.{HasNoEnd};
ghost use Rattle.atlas_lines.specs.Ends.{Ends, is_read_fault, is_write_fault};
ghost use Rattle.atlas_lines.specs.Progress.{EndsBadly, LineEnds, Continues, place_at_start, is_write_end};

use crate::listing::{Waiting, flush, send_bad_line};
use crate::tool::Tool;
use atlas_words::buffer::FixedBytes;
use atlas_words::commands::{LINE, parse_line};
use atlas_words::devices::{ToolInput, ToolOutput};
use std::alloc::Allocator;
use std::marker::Model;

/// How a run ended where no device failed.
#[derive(Clone, Copy, Debug, PartialEq, Eq)]
pub enum ToolEnd {
    /// At the end of the input.
    Done,
    /// At the line with this number, counted from 1, which spells no command or has more than 120 bytes.
    BadLine(u64),
    /// After 18446744073709551615 bytes, the most that a run reads.
    Limit,
}

/// Which device failed.
#[derive(Clone, Copy, Debug, PartialEq, Eq)]
pub enum ToolFault {
    /// A read failed.
    Read,
    /// A write failed, or took none of some bytes.
    Write,
}

// How many bytes are asked for at once.
const BLOCK: usize = 65536;

// How many bytes are asked for, where so many may still be read.
fn room(left: u64) -> usize
    ensures within { result ≤ left }
    ensures short { result ≤ 65536 }
    ensures some { 0 < left → 0 < result }
{
    if left < BLOCK as u64 {
        left as usize
    } else {
        BLOCK
    }
}

// The tool, the line that has begun, and how many lines came before it.
#[derive(Drop)]
struct Progress<'a, A: Allocator> {
    tool: Tool<'a, A>,
    line: FixedBytes<LINE>,
    number: u64,
}

impl<'a, A: Allocator> Model for Progress<'a, A> {
    ghost use Rattle.atlas_lines.specs.Progress.{Place};

    ghost Value = { Place };

    ghost view = { λ p. record { held = p.tool; line = p.line; number = p.number } };
}

impl<'a, A: Allocator> Progress<'a, A> {
    fn new(alloc: &'a A) -> Self
        ensures { result ≡ place_at_start }
    {
        Progress {
            tool: Tool::new(alloc),
            line: FixedBytes::new(),
            number: 0,
        }
    }

    // Answers the line as a bad one, and writes all replies.
    fn end_badly<W: ToolOutput>(
        &self,
        output: &mut W,
        waiting: &mut Waiting,
    ) -> Result<ToolEnd, ToolFault>
        requires room { self.now.number < 2 ^ 64 - 1 }
        requires output { W.has_failed output.old ≡ false }
        ensures line { EndsBadly result self.now (W.contents output.old) (W.contents output.new) waiting.old }
        ensures failed { W.has_failed output.new ≡ is_write_fault result }
    {
        let number = self.number + 1;
        if send_bad_line(output, waiting, number) {
            Ok(ToolEnd::BadLine(number))
        } else {
            Err(ToolFault::Write)
        }
    }

    // Carries out the line that has begun, of which no byte is still to come.
    fn end_line<W: ToolOutput>(
        &mut self,
        output: &mut W,
        waiting: &mut Waiting,
    ) -> Option<Result<ToolEnd, ToolFault>>
        requires room { self.old.number < 2 ^ 64 - 1 }
        requires output { W.has_failed output.old ≡ false }
        ensures line { LineEnds result self.old self.new (W.contents output.old) (W.contents output.new) waiting.old
            waiting.new }
        ensures failed { W.has_failed output.new ≡ is_write_end result }
    {
        if self.line.len() > 0 {
            let Some(command) = parse_line(self.line.as_slice()) else {
                return Some(self.end_badly(output, waiting));
            };
            if !self.tool.reply_to(command, output, waiting) {
                return Some(Err(ToolFault::Write));
            }
        }
        self.next_line();
        None
    }

    // Carries out the last line of an input, and writes all replies.
    fn end_input<W: ToolOutput>(
        &mut self,
        output: &mut W,
        waiting: &mut Waiting,
    ) -> Option<Result<ToolEnd, ToolFault>>
        requires room { self.old.number < 2 ^ 64 - 1 }
        requires output { W.has_failed output.old ≡ false }
        ensures line { LineEnds result self.old self.new (W.contents output.old) (W.contents output.new) waiting.old
            [] }
        ensures failed { W.has_failed output.new ≡ is_write_end result }
    {
        if let Some(end) = self.end_line(output, waiting) {
            return Some(end);
        }
        if !flush(output, waiting) {
            return Some(Err(ToolFault::Write));
        }
        None
    }

    // Makes the next line begin.
    fn next_line(&mut self)
        requires { self.old.number < 2 ^ 64 - 1 }
        ensures { self.new ≡ record { held = self.old.held; line = []; number = self.old.number + 1 } }
    {
        self.line.clear();
        self.number += 1;
    }

    // Takes the next byte.
    fn take_byte<W: ToolOutput>(
        &mut self,
        byte: u8,
        output: &mut W,
        waiting: &mut Waiting,
    ) -> Option<Result<ToolEnd, ToolFault>>
        requires room { self.old.number + length self.old.line < 2 ^ 64 - 1 }
        requires line { HasNoEnd self.old.line }
        requires output { W.has_failed output.old ≡ false }
        ensures continues { Continues result self.old (byte ∷ []) self.new (W.contents output.old)
            (W.contents output.new) waiting.old waiting.new }
        ensures line { IsNone result → HasNoEnd self.new.line }
        ensures room { IsNone result
            → self.new.number + length self.new.line ≤ self.old.number + length self.old.line + 1 }
        ensures failed { W.has_failed output.new ≡ is_write_end result }
    {
        if byte == b'\n' {
            return self.end_line(output, waiting);
        }
        if self.line.len() == LINE {
            return Some(self.end_badly(output, waiting));
        }
        self.line.push(byte);
        None
    }

    // Takes the next bytes.
    fn take_block<W: ToolOutput>(
        &mut self,
        block: &[u8],
        output: &mut W,
        waiting: &mut Waiting,
    ) -> Option<Result<ToolEnd, ToolFault>>
        requires room { self.old.number + length self.old.line + length block.now < 2 ^ 64 }
        requires line { HasNoEnd self.old.line }
        requires output { W.has_failed output.old ≡ false }
        ensures continues { Continues result self.old block.now self.new (W.contents output.old)
            (W.contents output.new) waiting.old waiting.new }
        ensures line { IsNone result → HasNoEnd self.new.line }
        ensures room { IsNone result
            → self.new.number + length self.new.line ≤ self.old.number + length self.old.line + length block.now }
        ensures failed { W.has_failed output.new ≡ is_write_end result }
    {
        for byte in block {
            if let Some(end) = self.take_byte(*byte, output, waiting) {
                return Some(end);
            }
        }
        None
    }

    // Takes the bytes that one read gave, and writes all replies to their lines.
    fn take_read<W: ToolOutput>(
        &mut self,
        block: &[u8],
        output: &mut W,
        waiting: &mut Waiting,
    ) -> Option<Result<ToolEnd, ToolFault>>
        requires room { self.old.number + length self.old.line + length block.now < 2 ^ 64 }
        requires line { HasNoEnd self.old.line }
        requires output { W.has_failed output.old ≡ false }
        ensures continues { Continues result self.old block.now self.new (W.contents output.old)
            (W.contents output.new) waiting.old [] }
        ensures line { IsNone result → HasNoEnd self.new.line }
        ensures short { IsNone result → length self.new.line ≤ 120 }
        ensures room { IsNone result
            → self.new.number + length self.new.line ≤ self.old.number + length self.old.line + length block.now }
        ensures waiting { IsNone result → waiting.new ≡ [] }
        ensures failed { W.has_failed output.new ≡ is_write_end result }
    {
        if let Some(end) = self.take_block(block, output, waiting) {
            return Some(end);
        }
        if !flush(output, waiting) {
            return Some(Err(ToolFault::Write));
        }
        prove!(self.line.len() <= LINE);
        None
    }

    // Reads to the end of the run, from its start.
    fn run<R: ToolInput, W: ToolOutput>(
        &mut self,
        input: &mut R,
        output: &mut W,
    ) -> Result<ToolEnd, ToolFault>
        requires start { self.old ≡ place_at_start }
        requires input { R.has_failed input.old ≡ false }
        requires output { W.has_failed output.old ≡ false }
        ensures ends { Ends result (R.remaining input.old) (R.remaining input.new) (W.contents output.old)
            (W.contents output.new) }
        ensures read_failed { R.has_failed input.new ≡ is_read_fault result }
        ensures write_failed { W.has_failed output.new ≡ is_write_fault result }
    {
        let mut left = u64::MAX;
        let mut buffer = [0u8; BLOCK];
        let mut waiting = FixedBytes::new();
        while left > 0 {
            let piece = &mut buffer[..room(left)];
            let Some(count) = input.read(piece) else {
                return Err(ToolFault::Read);
            };
            if count == 0 {
                return self
                    .end_input(output, &mut waiting)
                    .unwrap_or(Ok(ToolEnd::Done));
            }
            left -= count as u64;
            if let Some(end) = self.take_read(&piece[..count], output, &mut waiting) {
                return end;
            }
        }
        Ok(ToolEnd::Limit)
    }
}

/// Carries out the lines that the reader gives, one after another, and writes their replies, up to the reader's end,
/// the first bad line, the limit or the first failure of a device. Reading takes no memory.
/// A failure isn't tried again.
pub fn run_lines<A: Allocator + Copy, R: ToolInput, W: ToolOutput>(
    alloc: A,
    input: &mut R,
    output: &mut W,
) -> Result<ToolEnd, ToolFault>
    requires input { R.has_failed input.old ≡ false }
    requires output { W.has_failed output.old ≡ false }
    // How the run ended, and what was written by then.
    ensures ends { Ends result (R.remaining input.old) (R.remaining input.new) (W.contents output.old)
        (W.contents output.new) }
    // A fault comes exactly where its device failed.
    ensures read_failed { R.has_failed input.new ≡ is_read_fault result }
    ensures write_failed { W.has_failed output.new ≡ is_write_fault result }
{
    let mut progress = Progress::new(&alloc);
    progress.run(input, output)
}
