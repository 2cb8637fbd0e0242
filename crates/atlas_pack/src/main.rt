//! Packs the sprites that lines name into one sheet or several, and writes where each lies (docs/PACK.md).
#![tactic(auto)]

mod error;
mod folders;
mod frames;
mod job;
mod json;
mod names;
mod packing;
mod pages;
mod quoted;
mod reading;
mod run;
mod settings;
mod sprites;
mod text;

use error::PackError;
use run::run;
use std::process::ExitCode;

fn main(rt: HostRuntime) -> ExitCode {
    match run(
        rt.alloc(),
        &mut rt.stdin(),
        &mut rt.stdout(),
        &mut rt.stderr(),
    ) {
        Ok(0) => ExitCode::SUCCESS,
        Ok(_) => ExitCode::from(4),
        Err(error) => {
            let _ = eprintln!(rt; "{error}");
            match error {
                PackError::Memory | PackError::Device(_) => ExitCode::FAILURE,
                PackError::NoSheet | PackError::MorePages => ExitCode::from(3),
                _ => ExitCode::from(2),
            }
        }
    }
}
