//! The summary of a report.

ghost use Rattle.std.specs.Prelude.{◌≡◌, ◌++◌, IfOk, OnOk};
ghost use Rattle.fetch_store.specs.Stores.{AreOf};
ghost use Rattle.fetch_remote.specs.Repositories.{state_of};
ghost use Rattle.fetch_cli.specs.Bench as spec;
ghost use Rattle.fetch_cli.specs.Bench.{IsSummary, SumsUp};

use crate::reporting::fetch_case::open_scene;
use crate::reporting::lines::append_counted;
use crate::reporting::{append_maps, append_refusal, fetch, updates_of};
use fetch_remote::{FetchError, Outcome, Repository};
use fetch_scene::Scene;
use fetch_store::NoMemory;
use std::alloc::Global;
use std::thread::Threads;

/// How many objects and references there are.
fn append_counts(out: &mut Vec<u8>, repo: &Repository) -> Result<(), NoMemory>
    ensures { OnOk result (out.new.items ≡ out.old.items ++ spec.count_lines (state_of repo.now)) }
{
    append_counted(out, b"objects ", repo.store().len())?;
    append_counted(out, b"refs ", repo.refs().iter().len())
}

/// The summary of a fetch that was done.
#[tactic(auto, unfolding(crate::specs::Bench::done_summary))]
fn append_done(
    out: &mut Vec<u8>,
    count: usize,
    outcome: &Outcome,
    repo: &Repository,
) -> Result<(), NoMemory>
    ensures { OnOk result (out.new.items ≡ out.old.items ++ spec.done_summary count outcome.now (state_of repo.now)) }
{
    append_counted(out, b"bench ", count)?;
    append_maps(
        out,
        outcome.ref_map.mappings.as_slice(),
        updates_of(&outcome.status).updates.as_slice(),
    )?;
    append_counts(out, repo)?;
    out.extend_from_slice(b"ok\n")?;
    Ok(())
}

/// The summary of a fetch that was refused.
#[tactic(auto, unfolding(crate::specs::Bench::refused_summary))]
fn append_refused(out: &mut Vec<u8>, count: usize, refusal: &FetchError) -> Result<(), NoMemory>
    ensures { OnOk result (out.new.items ≡ out.old.items ++ spec.refused_summary count refusal.now) }
{
    append_counted(out, b"bench ", count)?;
    append_refusal(out, refusal)
}

/// The status and the summary of a fetch that answered this and left this repository.
fn sum_up(
    alloc: Global,
    count: usize,
    answer: &Result<Outcome, FetchError>,
    repo: &Repository,
) -> Result<(u8, Vec<u8>), NoMemory>
    ensures { IfOk result (λ x. SumsUp count x.0 x.1.items answer.now (state_of repo.now)) }
{
    let mut text = Vec::new(alloc);
    match answer {
        Ok(outcome) => {
            append_done(&mut text, count, outcome, repo)?;
            Ok((0, text))
        }
        Err(FetchError::NoMemory) => Err(NoMemory),
        Err(refusal) => {
            append_refused(&mut text, count, refusal)?;
            Ok((1, text))
        }
    }
}

/// Fetches as a scene says, and sums up as a bench of that many commits: the status, which is 0 where the fetch was done and
/// 1 where it was refused, and what became of each mapping with how many objects and references there are, or why it was
/// refused.
///
/// The objects of the scene are of its hash, as those that are read or generated are.
pub fn summary<R: Threads + Sync>(
    rt: &R,
    alloc: Global,
    count: usize,
    scene: Scene,
) -> Result<(u8, Vec<u8>), NoMemory>
    requires { AreOf scene.hash scene.objects }
    ensures { IfOk result (λ x. IsSummary count scene x.0 x.1.items) }
{
    let fetch_case = open_scene(alloc, scene)?;
    let (fetched, _) = fetch(rt, alloc, fetch_case);
    sum_up(alloc, count, &fetched.result, &fetched.repo)
}
