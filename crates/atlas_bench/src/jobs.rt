//! The jobs that lines of input spell.
ghost use Rattle.std.specs.Prelude.{◌≡◌, ℕ, List, Err, IfSome, IfOk, IsSomeAnd};
ghost use Rattle.atlas_bench.specs.declared.workload.Job.{Job};
ghost use Rattle.atlas_bench.specs.Jobs.{SpellsJob, SpellsJobs};

use crate::workload::{Job, Workload};
use atlas_words::words::{first_line, first_word, unsigned};
use std::alloc::Global;

/// Why a text spells no jobs.
#[derive(Clone, Copy, Debug, PartialEq)]
pub enum JobsError {
    /// The line with this number, counted from 1, names no workload with a size.
    BadLine(u64),
    /// A request for memory was refused.
    Memory,
}

// The job that the bytes of a line, without its LF, spell.
fn parse_line(line: &[u8]) -> Option<Job>
    ensures found { IfSome result (λ job. SpellsJob job line.now) }
    ensures only { (job : Job) → SpellsJob job line.now
        → IsSomeAnd result (λ it. (it.workload ≡ job.workload) × (it.size ≡ job.size)) }
{
    let (word, rest) = first_word(line);
    let workload = Workload::named(word)?;
    let (_, digits) = rest.split_first()?;
    let size = unsigned(digits)?;
    if size < 1 || size > workload.most_size() {
        return None;
    }
    Some(Job { workload, size })
}

/// The jobs that the lines of a text spell. `BadLine` at the first line that spells none.
pub fn jobs(alloc: Global, text: &[u8]) -> Result<Vec<Job>, JobsError>
    ensures found { IfOk result (λ jobs. SpellsJobs jobs.items text.now) }
    ensures bad { (n : ℕ) (all : List Job) → result ≡ Err (JobsError.BadLine n) → SpellsJobs all text.now → ⊥ }
{
    let mut jobs = Vec::new(alloc);
    let mut rest = text;
    while !rest.is_empty() {
        let (line, after) = first_line(rest);
        let Some(job) = parse_line(line) else {
            return Err(JobsError::BadLine(jobs.len() as u64 + 1));
        };
        if jobs.push(job).is_err() {
            return Err(JobsError::Memory);
        }
        rest = after;
    }
    Ok(jobs)
}
