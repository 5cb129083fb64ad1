//! The jobs of a race.

ghost use Rattle.std.specs.Prelude.{◌≡◌, IfOk};
ghost use Rattle.fetch_scene.specs.Gives.{Gives};
ghost use Rattle.race_cli.specs.Jobs as spec;
ghost use Rattle.race_cli.specs.Jobs.{AreFew};

use fetch_cli::{Lines, RemotePart, SceneFault, read_delimiter_if, read_payloads, read_remote};
use fetch_store::{List, Text};
use std::alloc::Global;

/// The most jobs of a race.
pub const MAX_JOBS: usize = 8;

/// A job of a race: a fetch from a remote.
// Not copied: it is read from a text, which can be read again.
#[derive(Drop)]
pub struct RaceJob {
    /// The remote, and how to fetch from it.
    pub remote: RemotePart,
    /// What the peer says, piece by piece.
    pub pieces: List<Text>,
}

#[tactic(auto, unfolding(crate::specs::Jobs::job_of))]
fn read_job<'a>(alloc: Global, lines: Lines<'a>) -> Result<(RaceJob, Lines<'a>), SceneFault>
    ensures { Gives result (spec.job_of lines.entry) }
{
    let (remote, lines) = read_remote(alloc, lines)?;
    let (pieces, lines) = read_payloads(alloc, lines)?;
    Ok((RaceJob { remote, pieces }, lines))
}

/// The next job, where a delimiter is next.
#[tactic(auto, unfolding(crate::specs::Jobs::further_job))]
fn read_further_job<'a>(
    alloc: Global,
    lines: Lines<'a>,
) -> Result<(Option<RaceJob>, Lines<'a>), SceneFault>
    ensures { Gives result (spec.further_job lines.entry) }
{
    let (divided, lines) = read_delimiter_if(alloc, lines)?;
    if !divided {
        return Ok((None, lines));
    }
    let (job, lines) = read_job(alloc, lines)?;
    Ok((Some(job), lines))
}

/// Reads the jobs of a race, up to the first line after a job that is no delimiter, and no more than a race has.
pub(crate) fn read_jobs<'a>(
    alloc: Global,
    lines: Lines<'a>,
) -> Result<(List<RaceJob>, Lines<'a>), SceneFault>
    ensures found { Gives result (spec.jobs_of lines.entry) }
    ensures few { IfOk result (λ x. AreFew x.0) }
{
    let (first, mut rest) = read_job(alloc, lines)?;
    let mut jobs = Vec::new(alloc);
    jobs.push(first)?;
    'jobs: while jobs.len() < MAX_JOBS {
        let (job, others) = read_further_job(alloc, rest)?;
        rest = others;
        match job {
            Some(job) => jobs.push(job)?,
            None => return Ok((List::from(jobs), rest)),
        }
    }
    Ok((List::from(jobs), rest))
}
