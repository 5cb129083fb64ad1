//! What the report of a race tells of jobs that were refused.

ghost use Rattle.std.specs.Prelude.{◌≡◌, ◌++◌, is_err, OnOk};
ghost use Rattle.std.specs.List.{list_any};
ghost use Rattle.fetch_journal.specs.Shared.{is_memory};
ghost use Rattle.race_cli.specs.RaceReports as spec;

use crate::reporting::tokens::append_shared_token;
use fetch_cli::append_refused;
use fetch_journal::SharedError;
use fetch_remote::Outcome;
use fetch_store::{NoMemory, append_number};

fn is_no_memory(refusal: &SharedError) -> bool
    ensures { result ≡ is_memory refusal.now }
{
    match refusal {
        SharedError::NoMemory => true,
        _ => false,
    }
}

fn is_out_of_memory(answer: &Result<Outcome, SharedError>) -> bool
    ensures { result ≡ spec.is_out_of_memory answer.now }
{
    match answer {
        Ok(_) => false,
        Err(refusal) => is_no_memory(refusal),
    }
}

/// Whether memory ran out in a job.
pub(crate) fn any_out_of_memory(answers: &[Result<Outcome, SharedError>]) -> bool
    ensures { result ≡ spec.any_out_of_memory answers.now }
{
    answers.iter().any(|answer| is_out_of_memory(answer))
}

/// Whether a job was refused.
pub(crate) fn any_refused(answers: &[Result<Outcome, SharedError>]) -> bool
    ensures { result ≡ spec.any_refused answers.now }
{
    answers.iter().any(|answer| answer.is_err())
}

/// The number of a job, and why it was refused.
#[tactic(auto, unfolding(crate::specs::RaceReports::numbered))]
fn append_numbered_token(
    out: &mut Vec<u8>,
    index: usize,
    refusal: &SharedError,
) -> Result<(), NoMemory>
    ensures { OnOk result (out.new.items ≡ out.old.items ++ spec.numbered index refusal.now) }
{
    append_number(out, index)?;
    out.extend_from_slice(b" ")?;
    append_shared_token(out, refusal)
}

/// The line of a job that was refused.
fn append_refusal(
    out: &mut Vec<u8>,
    index: usize,
    answer: &Result<Outcome, SharedError>,
) -> Result<(), NoMemory>
    ensures { OnOk result (out.new.items ≡ out.old.items ++ spec.refused_line_of index answer.now) }
{
    match answer {
        Ok(_) => Ok(()),
        Err(refusal) => {
            let mut text = Vec::new(*out.allocator());
            append_numbered_token(&mut text, index, refusal)?;
            append_refused(out, &text)
        }
    }
}

/// Puts a line for each job that was refused behind what is there, by its number from 0 on. After an error a part of them may
/// stand there.
pub fn append_refusals(
    out: &mut Vec<u8>,
    answers: &[Result<Outcome, SharedError>],
) -> Result<(), NoMemory>
    ensures { OnOk result (out.new.items ≡ out.old.items ++ spec.refused_lines 0 answers.now) }
{
    for (index, answer) in answers.iter().enumerate() {
        append_refusal(out, index, answer)?;
    }
    Ok(())
}
