//! A session that is played through the tool's lines.

use crate::talk::{Asking, Hearing, Refusals, Step, Talk, run};
use atlas_lines::ToolEnd;
use guillotiere_tests::refusing::Refusing;
use std::alloc::{AllocError, Global};

/// The lines of a session, and the expected replies.
#[derive(Drop)]
pub struct Session {
    steps: Vec<Step>,
    // Whether some lines say themselves which requests for memory are refused.
    is_told: bool,
}

// The replies with an end each, in place of the commas that part them.
fn parted(alloc: Global, replies: &str) -> Result<String, AllocError> {
    let mut text = String::new(alloc);
    for reply in replies.split(", ") {
        text.push_str(reply)?;
        text.push('\n')?;
    }
    Ok(text)
}

impl Session {
    /// A session without lines.
    pub fn new(alloc: Global) -> Session {
        Session {
            steps: Vec::new(alloc),
            is_told: false,
        }
    }

    fn push(&mut self, alloc: Global, line: &str, replies: String) -> Result<(), AllocError> {
        let line = format!(in alloc; "{line}\n")?;
        Ok(self.steps.push(Step { line, replies })?)
    }

    /// Adds a line, and its replies, which are separated by commas.
    pub fn add(&mut self, alloc: Global, line: &str, replies: &str) -> Result<(), AllocError> {
        self.push(alloc, line, parted(alloc, replies)?)
    }

    /// Adds a line that says which requests for memory are refused, and has no reply.
    pub fn add_note(&mut self, alloc: Global, line: &str) -> Result<(), AllocError> {
        self.is_told = true;
        self.push(alloc, line, String::new(alloc))
    }

    /// Whether there are lines.
    pub fn has_lines(&self) -> bool {
        !self.steps.is_empty()
    }

    /// Takes the lines away.
    pub fn clear(&mut self) {
        self.steps.clear();
        self.is_told = false;
    }

    // Whether the tool answers as wanted where these requests for memory are refused.
    fn answers(&self, alloc: Global, heap: &Refusing<Global>, refusals: Refusals) -> bool {
        let talk = Talk::new(&self.steps, refusals, heap);
        let mut input = Asking::new(&talk);
        let mut output = Hearing::new(&talk, alloc);
        run(heap, &mut input, &mut output) == Ok(ToolEnd::Done) && talk.is_well()
    }

    // Whether it does with each request for memory refused in turn.
    fn answers_in_turn(&self, alloc: Global, heap: &Refusing<Global>) -> bool {
        for number in 1..1000 {
            heap.refuse_nth(number);
            if !self.answers(alloc, heap, Refusals::Once) {
                return false;
            }
            if !heap.is_done() {
                return number > 1;
            }
        }
        false
    }

    /// Whether the tool answers as expected. A worked session is played with all that a line asks of memory refused
    /// once, and with each request refused in turn: after a refusal all is as before, and the line is given again.
    pub fn play(&self, alloc: Global, is_worked: bool) -> bool {
        let heap = Refusing::new(alloc);
        if self.is_told || !is_worked {
            return self.answers(alloc, &heap, Refusals::Told);
        }
        self.answers(alloc, &heap, Refusals::Every) && self.answers_in_turn(alloc, &heap)
    }
}
