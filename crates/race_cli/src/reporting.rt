//! The report of a race.

pub mod journal_lines;
pub mod refusals;
pub mod state_lines;
pub mod tokens;

ghost use Rattle.std.specs.Prelude.{◌≡◌, ◌++◌, IfOk, OnOk, IsErr};
ghost use Rattle.std.specs.List.{list_any};
ghost use Rattle.fetch_cli.specs.ReportLines.{refused_line};
ghost use Rattle.fetch_journal.specs.Replays.{outline};
ghost use Rattle.race_cli.specs.RaceReports as spec;
ghost use Rattle.race_cli.specs.RaceReports.{IsRaceReport, IsRefusedReport};
ghost use Rattle.race_cli.specs.SharedTokens.{shared_token};

use crate::reporting::journal_lines::append_journal;
use crate::reporting::refusals::{any_out_of_memory, any_refused, append_refusals};
use crate::reporting::state_lines::append_outline;
use crate::reporting::tokens::append_shared_token;
use fetch_cli::append_refused;
use fetch_journal::{Entry, SharedError};
use fetch_remote::{Outcome, Repository};
use fetch_store::NoMemory;
use std::alloc::Global;

/// The end of a report: `ok`, unless a job was refused.
fn append_end(out: &mut Vec<u8>, refused: bool) -> Result<(), NoMemory>
    ensures { OnOk result (out.new.items ≡ out.old.items ++ spec.end_text refused) }
{
    if !refused {
        out.extend_from_slice(b"ok\n")?;
    }
    Ok(())
}

#[tactic(auto, unfolding(crate::specs::RaceReports::race_text))]
fn append_race(
    out: &mut Vec<u8>,
    journal: &[Entry],
    repo: &Repository,
    answers: &[Result<Outcome, SharedError>],
    refused: bool,
) -> Result<(), NoMemory>
    requires { refused ≡ spec.any_refused answers.now }
    ensures { OnOk result (out.new.items ≡ out.old.items ++ spec.race_text journal.now (outline repo.now) answers.now) }
{
    append_journal(out, journal)?;
    append_outline(out, repo)?;
    append_refusals(out, answers)?;
    append_end(out, refused)
}

/// The status and the report of a race with this journal, which left this repository and whose jobs were answered so: 0
/// where all of them were done, and 1 where one was refused. Where memory ran out in a job, there is no report.
pub fn race_report(
    alloc: Global,
    journal: &[Entry],
    repo: &Repository,
    answers: &[Result<Outcome, SharedError>],
) -> Result<(u8, Vec<u8>), NoMemory>
    ensures { IfOk result (λ x. IsRaceReport journal.now (outline repo.now) answers.now x.0 x.1.items) }
{
    if any_out_of_memory(answers) {
        return Err(NoMemory);
    }
    let refused = any_refused(answers);
    let mut text = Vec::new(alloc);
    append_race(&mut text, journal, repo, answers, refused)?;
    Ok((u8::from(refused), text))
}

fn refused_text(alloc: Global, refusal: &SharedError) -> Result<Vec<u8>, NoMemory>
    ensures { IfOk result (λ text. text.items ≡ refused_line (shared_token refusal.now)) }
{
    let mut token = Vec::new(alloc);
    append_shared_token(&mut token, refusal)?;
    let mut text = Vec::new(alloc);
    append_refused(&mut text, &token)?;
    Ok(text)
}

/// The status and the report of a race that was refused before any job began: 1, and why.
pub fn refused_race_report(alloc: Global, refusal: &SharedError) -> Result<(u8, Vec<u8>), NoMemory>
    ensures { IfOk result (λ x. IsRefusedReport refusal.now x.0 x.1.items) }
{
    match refusal {
        SharedError::NoMemory => Err(NoMemory),
        refusal => Ok((1, refused_text(alloc, refusal)?)),
    }
}
