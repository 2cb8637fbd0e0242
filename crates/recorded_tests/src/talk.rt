//! A session that is played line by line: each line is given to the tool once the one before it is answered, and one
//! that is refused memory is given again.
ghost use Rattle.std.specs.Prelude.{◌≡◌, false};

use atlas_lines::{ToolEnd, ToolFault, ToolInput, ToolOutput, run_lines};
use guillotiere_tests::refusing::Refusing;
use std::alloc::Global;
use std::cell::Cell;

/// A line with its end, and the expected replies, each with its end.
#[derive(Drop)]
pub struct Step {
    pub line: String,
    pub replies: String,
}

/// Which requests for memory are refused.
#[derive(Clone, Copy, PartialEq)]
pub enum Refusals {
    /// Those after a line `memory none`, up to a line `memory all`.
    Told,
    /// One of those that the lines and the looks before them make.
    Once,
    /// All that a line makes the first time that it is given.
    Every,
}

// What is answered next.
#[derive(Clone, Copy, PartialEq)]
enum Turn {
    Line,
    // What is seen before a line.
    Look,
    // Nothing: the line was refused memory.
    Refused,
    LookAgain,
    LineAgain,
}

// What shows the atlas, or the recorded session.
const LOOKS: &[u8] = b"size\nempty\nlive\nholes\n";

const NO_MEMORY: &[u8] = b"refused memory\n";

// What ends a recorded session, so the line isn't given again.
const NO_REPLAY: &[u8] = b"replay refused memory\n";

/// A session that is played, of which both devices know.
#[derive(Drop)]
pub struct Talk<'a> {
    steps: &'a [Step],
    // How many lines were begun.
    begun: Cell<usize>,
    turn: Cell<Turn>,
    refusals: Refusals,
    heap: &'a Refusing<Global>,
    is_well: Cell<bool>,
}

// Whether a line never asks for memory: it frees or clears, it tells a size, or nothing comes of it.
fn is_free_of_requests(step: &Step) -> bool {
    let line = step.line.as_str();
    let replies = step.replies.as_str();
    line.starts_with("free")
        || line.starts_with("clear")
        || line.starts_with("size")
        || line.starts_with("empty")
        || replies.starts_with("no")
        || replies.starts_with("bad call")
        || replies.starts_with("refused")
}

impl<'a> Talk<'a> {
    pub fn new(steps: &'a [Step], refusals: Refusals, heap: &'a Refusing<Global>) -> Talk<'a> {
        Talk {
            steps,
            begun: Cell::new(0),
            turn: Cell::new(Turn::Line),
            refusals,
            heap,
            is_well: Cell::new(true),
        }
    }

    /// Whether all lines were given and answered as expected.
    pub fn is_well(&self) -> bool {
        self.is_well.get() && self.begun.get() == self.steps.len()
    }

    fn has_failed(&self) {
        self.is_well.set(false);
    }

    // A recorded session writes down what it is asked, and needs memory for that.
    fn is_recorded(&self) -> bool {
        match self.steps.first() {
            Some(step) => step.line.as_str().starts_with("record "),
            None => false,
        }
    }

    // The line that was begun last.
    fn step(&self) -> Option<&'a Step> {
        self.steps.get(self.begun.get().saturating_sub(1))
    }

    // The bytes of the line that was begun last; what it says of memory is done here, and an empty line is given.
    fn line(&self) -> &'a [u8] {
        let Some(step) = self.step() else {
            return b"";
        };
        match step.line.as_str() {
            "memory none\n" => self.heap.refuse_every(),
            "memory all\n" => self.heap.refuse_nth(0),
            line => return line.as_bytes(),
        }
        b"\n"
    }

    // The line, the first time that it is given.
    fn first_line(&self) -> &'a [u8] {
        self.turn.set(Turn::Line);
        if self.refusals == Refusals::Every {
            self.heap.refuse_every();
        }
        self.line()
    }

    fn looks(&self, turn: Turn) -> &'a [u8] {
        if self.refusals == Refusals::Every {
            self.heap.refuse_nth(0);
        }
        self.turn.set(turn);
        LOOKS
    }

    // What is given next; nothing at the end.
    fn next(&self) -> &'a [u8] {
        match self.turn.get() {
            Turn::Look => return self.first_line(),
            Turn::Refused => return self.looks(Turn::LookAgain),
            Turn::LookAgain => {
                self.turn.set(Turn::LineAgain);
                return self.line();
            }
            Turn::Line | Turn::LineAgain => {}
        }
        if self.begun.get() >= self.steps.len() {
            return b"";
        }
        self.begun.set(self.begun.get().saturating_add(1));
        if self.refusals == Refusals::Told {
            return self.first_line();
        }
        self.looks(Turn::Look)
    }

    // Hears what a line is answered.
    fn hear_line(&self, bytes: &[u8]) {
        let Some(step) = self.step() else {
            return self.has_failed();
        };
        let is_refused_replay = bytes == NO_REPLAY && self.refusals != Refusals::Told;
        if bytes == step.replies.as_bytes() || is_refused_replay {
            return;
        }
        if bytes != NO_MEMORY || self.turn.get() == Turn::LineAgain {
            return self.has_failed();
        }
        if is_free_of_requests(step) && !self.is_recorded() {
            return self.has_failed();
        }
        self.turn.set(Turn::Refused);
    }

    // Whether what is seen after a refusal is what was seen before the line.
    fn hear_look(&self, bytes: &[u8], before: &[u8]) {
        if bytes != before {
            self.has_failed();
        }
    }
}

/// Gives one line, or one look, a call.
#[derive(Drop)]
pub struct Asking<'a> {
    talk: &'a Talk<'a>,
    failed: bool,
}

impl<'a> Asking<'a> {
    pub fn new(talk: &'a Talk<'a>) -> Asking<'a>
        ensures { result.failed ≡ false }
    {
        Asking {
            talk,
            failed: false,
        }
    }
}

impl ToolInput for Asking<'_> {
    ghost has_failed = { λ d. d.failed };

    fn read(&mut self, buffer: &mut [u8]) -> Option<usize> {
        let text = self.talk.next();
        let n = text.len();
        if n > buffer.len() {
            self.failed = true;
            return None;
        }
        buffer[..n].copy_from_slice(text);
        Some(n)
    }

    fn failed(&self) -> bool {
        self.failed
    }
}

/// Hears one reply, or what one look shows, a call.
#[derive(Drop)]
pub struct Hearing<'a> {
    talk: &'a Talk<'a>,
    seen: Vec<u8>,
    failed: bool,
}

impl<'a> Hearing<'a> {
    pub fn new(talk: &'a Talk<'a>, alloc: Global) -> Hearing<'a>
        ensures { result.failed ≡ false }
    {
        Hearing {
            talk,
            seen: Vec::new(alloc),
            failed: false,
        }
    }
}

impl ToolOutput for Hearing<'_> {
    ghost has_failed = { λ d. d.failed };

    fn write(&mut self, bytes: &[u8]) -> Option<usize> {
        if bytes.is_empty() {
            return Some(0);
        }
        match self.talk.turn.get() {
            Turn::Look => {
                self.seen.clear();
                if self.seen.extend_from_slice(bytes).is_err() {
                    self.failed = true;
                    return None;
                }
            }
            Turn::LookAgain => self.talk.hear_look(bytes, &self.seen),
            _ => self.talk.hear_line(bytes),
        }
        Some(bytes.len())
    }

    fn failed(&self) -> bool {
        self.failed
    }
}

// How a run ended.
type End = Result<ToolEnd, ToolFault>;

/// Runs the tool on devices that haven't failed.
pub fn run(heap: &Refusing<Global>, input: &mut Asking<'_>, output: &mut Hearing<'_>) -> End
    requires input { input.now.failed ≡ false }
    requires output { output.now.failed ≡ false }
{
    run_lines(heap, input, output)
}
