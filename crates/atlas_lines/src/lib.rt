//! The lines of the program `atlas_tool`: commands in, reply lines out.
#![tactic(auto)]

mod atlas_calls;
mod changes;
pub mod laws;
mod listing;
mod replies;
mod run;
mod session_calls;
mod standing;
mod tool;

pub use atlas_words::commands::{Command, parse_line};
pub use atlas_words::devices::{ToolInput, ToolOutput};
pub use atlas_words::standard::StdInput;
pub use atlas_words::standard_output::StdOutput;
// The words and numbers of lines, for other programs that read lines.
pub use atlas_words::words::{first_line, first_word, unsigned};
pub use run::{ToolEnd, ToolFault, run_lines};
