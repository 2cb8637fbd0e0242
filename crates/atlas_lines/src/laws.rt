//! Laws over the definitions that the contracts of this crate cite, each the contract of a function that does nothing.
ghost use Rattle.std.specs.Prelude.{◌≡◌, ℕ, List};
ghost use Rattle.guillotiere.specs.declared.Rectangle.{Rectangle};
ghost use Rattle.guillotiere.specs.States.{State, IsSound};
ghost use Rattle.atlas_words.specs.declared.commands.Command.{Command};
ghost use Rattle.atlas_words.specs.Grammar.{Spells};
ghost use Rattle.atlas_words.specs.Lines.{AreLines};
ghost use Rattle.atlas_lines.specs.Machine.{ToolReply, ShowsHoles};
ghost use Rattle.atlas_lines.specs.Replies.{reply_text};

/// Each input has lines, and no other ones.
pub fn one_reading()
    ensures some { (input : List ℕ) → (lines : List (List ℕ)) × AreLines input lines }
    ensures only { (input : List ℕ) (lines others : List (List ℕ)) → AreLines input lines → AreLines input others
        → lines ≡ others }
{}

/// No line spells two commands.
pub fn one_command()
    ensures { (line : List ℕ) (command other : Command) → Spells command line → Spells other line → command ≡ other }
{}

/// The text of `holes` is determined by the state: where memory for it isn't refused, a sound state owes one list, and
/// so one text.
pub fn one_list_of_holes()
    ensures list { (state : State) (areas others : List Rectangle) → IsSound state
        → ShowsHoles state (ToolReply.HoleLines areas) → ShowsHoles state (ToolReply.HoleLines others)
        → areas ≡ others }
    ensures text { (state : State) (areas others : List Rectangle) → IsSound state
        → ShowsHoles state (ToolReply.HoleLines areas) → ShowsHoles state (ToolReply.HoleLines others)
        → reply_text (ToolReply.HoleLines areas) ≡ reply_text (ToolReply.HoleLines others) }
{}
