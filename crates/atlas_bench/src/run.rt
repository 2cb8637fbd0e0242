//! A run of the program, from the bytes of a reader to the bytes of a writer.
ghost use Rattle.std.specs.Prelude.{◌≡◌, IfOk, OnOk, string_bytes};
ghost use Rattle.atlas_bench.specs.Reports.{report_text, RunsAll};
ghost use Rattle.atlas_bench.specs.Workloads.{Makes};
ghost use Rattle.atlas_bench.specs.Jobs.{SpellsJobs};

use crate::answers::Answers;
use crate::boards::{column, search};
use crate::caches::{cache, tiles};
use crate::error::BenchError;
use crate::growth::growth;
use crate::jobs::{JobsError, jobs};
use crate::recordings::recorded;
use crate::sheets::rearrange;
use crate::simple_sheets::{large_sheet, sheet};
use crate::sizes::Kind;
use crate::sprites::{sorted_sprite, sprite};
use crate::textures::textures;
use crate::workload::{Job, Workload};
use std::alloc::{AllocError, Global};
use std::io::{Read, Write};

// Runs a job.
fn run_job(alloc: Global, job: Job) -> Result<Answers, BenchError>
    ensures { IfOk result (λ it. Makes job.workload job.size it.calls) }
{
    match job.workload {
        Workload::Glyph => cache(alloc, Kind::Glyphs, 2048, job.size),
        Workload::Record => recorded(alloc, job.size),
        Workload::Sprite => sprite(alloc, job.size),
        Workload::SortedSprite => sorted_sprite(alloc, job.size),
        Workload::Column => column(alloc, job.size),
        Workload::Search => search(alloc, job.size),
        Workload::Growth => growth(alloc, job.size),
        Workload::Rearrange => rearrange(alloc, job.size),
        Workload::Glyph1024 => cache(alloc, Kind::Glyphs, 1024, job.size),
        Workload::Glyph4096 => cache(alloc, Kind::Glyphs, 4096, job.size),
        Workload::Glyph8192 => cache(alloc, Kind::Glyphs, 8192, job.size),
        Workload::Glyph16384 => cache(alloc, Kind::Glyphs, 16_384, job.size),
        Workload::Mixed4096 => cache(alloc, Kind::Sprites, 4096, job.size),
        Workload::Tiles => tiles(alloc, job.size),
        Workload::Sheet => sheet(alloc, job.size),
        Workload::Sheet16384 => large_sheet(alloc, job.size),
        Workload::Cache => textures(alloc, job.size),
    }
}

// The line that reports a job.
fn report(alloc: Global, workload: Workload, answers: Answers) -> Result<String, BenchError>
    ensures { IfOk result (λ line. string_bytes line ≡ report_text workload answers) }
{
    let name = workload.name();
    let calls = answers.calls;
    let checksum = answers.checksum;
    Ok(format!(in alloc; "{name} {calls} {checksum}\n")?)
}

// The jobs that a text spells.
fn spelled(alloc: Global, text: &[u8]) -> Result<Vec<Job>, BenchError>
    ensures { IfOk result (λ jobs. SpellsJobs jobs.items text.now) }
{
    match jobs(alloc, text) {
        Ok(jobs) => Ok(jobs),
        Err(JobsError::BadLine(number)) => Err(BenchError::BadLine(number)),
        Err(JobsError::Memory) => Err(BenchError::Memory(AllocError)),
    }
}

/// Runs the jobs that the lines of the reader spell, and writes a line for each. Nothing is run where a line is bad.
pub fn run<R: Read, W: Write>(
    alloc: Global,
    input: &mut R,
    output: &mut W,
) -> Result<(), BenchError>
    ensures { OnOk result (RunsAll (R.remaining input.old) (W.contents output.old) (W.contents output.new)) }
{
    let mut text = Vec::new(alloc);
    input.read_to_end(&mut text)?;
    let jobs = spelled(alloc, &text)?;
    for job in &jobs {
        let answers = run_job(alloc, *job)?;
        let line = report(alloc, job.workload, answers)?;
        output.write_all(line.as_bytes())?;
    }
    Ok(())
}
