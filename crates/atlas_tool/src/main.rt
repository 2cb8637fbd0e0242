//! Carries out the lines of standard input, and writes their replies to standard output.
#![tactic(auto)]

use atlas_lines::{StdInput, StdOutput, ToolEnd, run_lines};
use std::process::ExitCode;

fn main(rt: HostRuntime) -> ExitCode {
    let mut input = StdInput::new(rt.stdin());
    let mut output = StdOutput::new(rt.stdout());
    match run_lines(rt.alloc(), &mut input, &mut output) {
        Ok(ToolEnd::Done) => ExitCode::SUCCESS,
        Ok(ToolEnd::BadLine(_)) => ExitCode::from(2),
        Ok(ToolEnd::Limit) | Err(_) => ExitCode::FAILURE,
    }
}
