//! The tool between its lines: what it holds, and how it carries out a command.
ghost use Rattle.std.specs.Prelude.{◌≡◌, ⊤, None, true, false, not};
ghost use Rattle.guillotiere.specs.Pixels.{sides_of, options_of};
ghost use Rattle.guillotiere.specs.Steps.AtlasCall.{Allocate, Deallocate, Grow, Clear, Rearrange, ResizeAndRearrange};
ghost use Rattle.guillotiere.specs.Boxes.{IsPositive};
ghost use Rattle.guillotiere_recording.specs.Events.{EventValue};
ghost use Rattle.atlas_lines.specs.declared.standing.Standing.TheVariants.{Nothing};
ghost use Rattle.atlas_lines.specs.Answers.{shown_by, Replies, BeginsToReply};
ghost use Rattle.atlas_lines.specs.Machine.{ToolReply, ToolStep, CreatesSimple, RequestsSimple, StartsSimple};
ghost use Rattle.atlas_lines.specs.Machine.{CreatesAtlas, BeginsSession, CallsStanding, RearrangesStanding};
ghost use Rattle.atlas_lines.specs.Machine.{LooksAtStanding, ReplaysStanding, HasNoAtlas, RecordsRequest};
ghost use Rattle.atlas_lines.specs.Machine.{RecordsFreeing, RecordsGrowth, RecordsRearranging, IsLine, ShowsLive};
ghost use Rattle.atlas_lines.specs.Machine.{ShowsNames, ShowsHoles, ShowsSize, ShowsEmpty, SaysNoAtlas, atlas_of};
ghost use Rattle.atlas_lines.specs.Machine.{simple_in, standing_in, tool_state_of};

use crate::listing::{Waiting, send};
use crate::replies::{Answer, Reply};
use crate::standing::Standing;
use crate::{atlas_calls, session_calls};
use atlas_words::commands::Command;
use atlas_words::devices::ToolOutput;
use guillotiere::{AllocId, AllocatorOptions, AtlasAllocator, SimpleAtlasAllocator, Size};
use guillotiere_recording::RecordingAllocator;
use std::alloc::Allocator;
use std::marker::Model;
use std::mem;

/// What the tool holds: at first no allocator. It holds a reference to the memory's allocator, which is small whatever
/// that allocator is.
#[derive(Drop)]
pub struct Tool<'a, A: Allocator> {
    alloc: &'a A,
    stand: Standing<AtlasAllocator<&'a A>, RecordingAllocator<&'a A>>,
    simple: Option<SimpleAtlasAllocator<&'a A>>,
}

impl<'a, A: Allocator> Model for Tool<'a, A> {
    ghost use Rattle.atlas_lines.specs.Machine.{Held};

    ghost Value = { Held };

    ghost view = { λ t. record { stand = t.stand; simple = t.simple } };
}

impl<'a, A: Allocator> Tool<'a, A> {
    /// A tool that holds nothing yet. It takes no memory.
    pub fn new(alloc: &'a A) -> Self
        ensures { result ≡ record { stand = Nothing; simple = None } }
    {
        Tool {
            alloc,
            stand: Standing::Nothing,
            simple: None,
        }
    }

    /// Carries out a command.
    pub fn carry_out(&mut self, command: Command) -> Answer<&'a A>
        ensures { ToolStep (tool_state_of self.old) command (shown_by result) (tool_state_of self.new) }
    {
        match command {
            Command::Simple(size) => Answer::OneLine(self.create_simple(size)),
            Command::Take(size) => Answer::OneLine(self.request_simple(size)),
            Command::Atlas(size, options) => Answer::OneLine(self.create_atlas(size, &options)),
            Command::Alloc(size) => Answer::OneLine(self.request(size)),
            Command::Free(id) => Answer::OneLine(self.give_back(id)),
            Command::Grow(size) => Answer::OneLine(self.grow(size)),
            Command::Live => self.list_live(),
            Command::Holes => self.list_holes(),
            Command::AskSize => Answer::OneLine(self.tell_size()),
            Command::Empty => Answer::OneLine(self.tell_empty()),
            Command::Clear => Answer::OneLine(self.clear()),
            Command::Rearrange => self.rearrange(),
            Command::Resize(size) => self.resize(size),
            Command::FromAtlas => Answer::OneLine(self.start_simple()),
            Command::Record(size) => Answer::OneLine(self.begin_session(size)),
            Command::Replay => Answer::OneLine(self.replay()),
        }
    }

    /// Carries out a command and adds its reply. `false` where the device failed.
    pub fn reply_to<W: ToolOutput>(
        &mut self,
        command: Command,
        output: &mut W,
        waiting: &mut Waiting,
    ) -> bool
        requires { W.has_failed output.old ≡ false }
        ensures gathered { result ≡ true
            → Replies (tool_state_of self.old) command (tool_state_of self.new) (W.contents output.old)
            (W.contents output.new) waiting.old waiting.new }
        ensures failed { W.has_failed output.new ≡ not result }
        ensures beginning { result ≡ false
            → BeginsToReply (tool_state_of self.old) command (tool_state_of self.new) (W.contents output.old)
            (W.contents output.new) waiting.old }
    {
        let answer = self.carry_out(command);
        send(output, waiting, &answer)
    }

    fn create_simple(&mut self, size: Size) -> Reply
        ensures { CreatesSimple (tool_state_of self.old) (sides_of size) result (tool_state_of self.new) }
    {
        if size.is_empty() {
            return Reply::Invalid;
        }
        match SimpleAtlasAllocator::new(self.alloc, size) {
            Ok(made) => {
                self.simple = Some(made);
                Reply::Completed
            }
            Err(error) => Reply::Declined(error),
        }
    }

    fn request_simple(&mut self, size: Size) -> Reply
        ensures step { RequestsSimple (simple_in self.old.simple) (sides_of size) result (simple_in self.new.simple) }
        ensures stand { self.new.stand ≡ self.old.stand }
    {
        let Some(simple) = &mut self.simple else {
            return Reply::NoSimple;
        };
        match simple.allocate(size) {
            Ok(Some(rectangle)) => Reply::Placed(rectangle),
            Ok(None) => Reply::NotPlaced,
            Err(error) => Reply::Declined(error),
        }
    }

    fn start_simple(&mut self) -> Reply
        ensures step { StartsSimple (atlas_of (standing_in self.old.stand)) (simple_in self.old.simple) result
            (simple_in self.new.simple) }
        ensures stand { self.new.stand ≡ self.old.stand }
    {
        let Standing::Atlas(atlas) = &self.stand else {
            return Reply::NoAtlas;
        };
        let Some(simple) = &mut self.simple else {
            return Reply::NoSimple;
        };
        match simple.init_from_allocator(atlas) {
            Ok(()) => Reply::Completed,
            Err(error) => Reply::Declined(error),
        }
    }

    fn create_atlas(&mut self, size: Size, options: &AllocatorOptions) -> Reply
        ensures { CreatesAtlas (tool_state_of self.old) (sides_of size) (options_of options.now) result
            (tool_state_of self.new) }
    {
        if !size.is_positive() {
            return Reply::Invalid;
        }
        if !options.is_valid() {
            return Reply::Invalid;
        }
        match AtlasAllocator::with_options(self.alloc, size, options) {
            Ok(made) => {
                self.stand = Standing::Atlas(made);
                Reply::Completed
            }
            Err(error) => Reply::Declined(error),
        }
    }

    fn begin_session(&mut self, size: Size) -> Reply
        ensures { BeginsSession (tool_state_of self.old) size result (tool_state_of self.new) }
    {
        if !size.is_positive() {
            return Reply::Invalid;
        }
        match RecordingAllocator::new(self.alloc, size) {
            Ok(made) => {
                self.stand = Standing::Session(made);
                Reply::Completed
            }
            Err(error) => session_calls::declined(error),
        }
    }

    fn replay(&mut self) -> Reply
        ensures step { ReplaysStanding (standing_in self.old.stand) result (standing_in self.new.stand) }
        ensures simple { self.new.simple ≡ self.old.simple }
    {
        match mem::replace(&mut self.stand, Standing::Nothing) {
            Standing::Session(session) => session_calls::replay(session),
            other => {
                self.stand = other;
                Reply::NoRecording
            }
        }
    }

    fn request(&mut self, size: Size) -> Reply
        ensures step { CallsStanding (standing_in self.old.stand) (Allocate (sides_of size))
            (λ s t. RecordsRequest s size result t) result (standing_in self.new.stand) }
        ensures simple { self.new.simple ≡ self.old.simple }
    {
        match &mut self.stand {
            Standing::Nothing => Reply::NoAtlas,
            Standing::Atlas(atlas) => atlas_calls::request(atlas, size),
            Standing::Session(session) => session_calls::request(session, size),
        }
    }

    fn give_back(&mut self, id: AllocId) -> Reply
        ensures step { CallsStanding (standing_in self.old.stand) (Deallocate id) (λ s t. RecordsFreeing s id result t)
            result (standing_in self.new.stand) }
        ensures simple { self.new.simple ≡ self.old.simple }
    {
        match &mut self.stand {
            Standing::Nothing => Reply::NoAtlas,
            Standing::Atlas(atlas) => atlas_calls::give_back(atlas, id),
            Standing::Session(session) => session_calls::give_back(session, id),
        }
    }

    fn grow(&mut self, new_size: Size) -> Reply
        ensures step { CallsStanding (standing_in self.old.stand) (Grow (sides_of new_size))
            (λ s t. RecordsGrowth s new_size result t) result (standing_in self.new.stand) }
        ensures simple { self.new.simple ≡ self.old.simple }
    {
        match &mut self.stand {
            Standing::Nothing => Reply::NoAtlas,
            Standing::Atlas(atlas) => atlas_calls::grow(atlas, new_size),
            Standing::Session(session) => session_calls::grow(session, new_size),
        }
    }

    fn clear(&mut self) -> Reply
        ensures step { CallsStanding (standing_in self.old.stand) Clear (λ s t. HasNoAtlas result s t) result
            (standing_in self.new.stand) }
        ensures simple { self.new.simple ≡ self.old.simple }
    {
        match &mut self.stand {
            Standing::Nothing => Reply::NoAtlas,
            Standing::Atlas(atlas) => atlas_calls::clear(atlas),
            Standing::Session(_) => Reply::NoAtlas,
        }
    }

    fn rearrange(&mut self) -> Answer<&'a A>
        ensures step { RearrangesStanding (standing_in self.old.stand) Rearrange
            (λ s t. RecordsRearranging s Rearrange ⊤ EventValue.Rearrange (shown_by result) t) (shown_by result)
            (standing_in self.new.stand) }
        ensures simple { self.new.simple ≡ self.old.simple }
    {
        match &mut self.stand {
            Standing::Nothing => Answer::OneLine(Reply::NoAtlas),
            Standing::Atlas(atlas) => atlas_calls::rearrange(atlas),
            Standing::Session(session) => session_calls::rearrange(session),
        }
    }

    fn resize(&mut self, new_size: Size) -> Answer<&'a A>
        ensures step { RearrangesStanding (standing_in self.old.stand) (ResizeAndRearrange (sides_of new_size))
            (λ s t. RecordsRearranging s (ResizeAndRearrange (sides_of new_size)) (IsPositive (sides_of new_size))
            (EventValue.ResizeAndRearrange new_size) (shown_by result) t) (shown_by result)
            (standing_in self.new.stand) }
        ensures simple { self.new.simple ≡ self.old.simple }
    {
        match &mut self.stand {
            Standing::Nothing => Answer::OneLine(Reply::NoAtlas),
            Standing::Atlas(atlas) => atlas_calls::resize(atlas, new_size),
            Standing::Session(session) => session_calls::resize(session, new_size),
        }
    }

    fn list_live(&self) -> Answer<&'a A>
        ensures { LooksAtStanding (standing_in self.now.stand) ShowsLive ShowsNames (shown_by result) }
    {
        match &self.stand {
            Standing::Nothing => Answer::OneLine(Reply::NoAtlas),
            Standing::Atlas(atlas) => atlas_calls::list_live(atlas),
            Standing::Session(session) => session_calls::list_live(session),
        }
    }

    fn list_holes(&self) -> Answer<&'a A>
        ensures { LooksAtStanding (standing_in self.now.stand) ShowsHoles (λ s. ShowsHoles s.named.state)
            (shown_by result) }
    {
        match &self.stand {
            Standing::Nothing => Answer::OneLine(Reply::NoAtlas),
            Standing::Atlas(atlas) => atlas_calls::list_holes(atlas),
            Standing::Session(session) => session_calls::list_holes(session),
        }
    }

    fn tell_size(&self) -> Reply
        ensures { LooksAtStanding (standing_in self.now.stand) (λ state. IsLine (ShowsSize state))
            (λ s. IsLine (ShowsSize s.named.state)) (ToolReply.OneLine result) }
    {
        match &self.stand {
            Standing::Nothing => Reply::NoAtlas,
            Standing::Atlas(atlas) => Reply::Extent(atlas.size()),
            Standing::Session(session) => Reply::Extent(session.size()),
        }
    }

    fn tell_empty(&self) -> Reply
        ensures { LooksAtStanding (standing_in self.now.stand) (λ state. IsLine (ShowsEmpty state)) SaysNoAtlas
            (ToolReply.OneLine result) }
    {
        match &self.stand {
            Standing::Atlas(atlas) => Reply::Truth(atlas.is_empty()),
            Standing::Nothing | Standing::Session(_) => Reply::NoAtlas,
        }
    }
}
