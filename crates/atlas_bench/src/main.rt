//! Runs the workloads that lines of standard input name, and writes their calls and a checksum of the answers.
#![tactic(auto)]

mod answers;
mod boards;
mod caches;
mod error;
mod growth;
mod jobs;
mod random;
mod recordings;
mod run;
mod sheets;
mod simple_sheets;
mod sizes;
mod sprites;
mod textures;
mod workload;

use error::BenchError;
use run::run;
use std::process::ExitCode;

fn main(rt: HostRuntime) -> ExitCode {
    match run(rt.alloc(), &mut rt.stdin(), &mut rt.stdout()) {
        Ok(()) => ExitCode::SUCCESS,
        Err(error) => {
            let _ = eprintln!(rt; "{error}");
            match error {
                BenchError::BadLine(_) => ExitCode::from(2),
                _ => ExitCode::FAILURE,
            }
        }
    }
}
