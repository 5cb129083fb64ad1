//! The program's word `race`: it reads a scene, races its jobs, and writes a report.

ghost use Rattle.std.specs.Prelude.{◌≡◌, ◌≢◌, ◌≤◌, map, true, false, IfOk, IsErrOf};
ghost use Rattle.std.specs.Io.KnownBytes.{IsAtEnd};
ghost use Rattle.fetch_store.specs.Stores.{AreOf};
ghost use Rattle.fetch_cli.specs.Written.{BlamesEnd, WritesBy};
ghost use Rattle.race_cli.specs.Jobs.{AreFew};
ghost use Rattle.race_cli.specs.RaceRun.{AreSetUp, IsSetUp, IsInputAnswer, IsRaceAnswer, IsRaceOf, asks};
ghost use Rattle.race_cli.specs.RaceWords.{race_asked};

use crate::input::{RaceFault, read_race};
use crate::race_case::{JobCase, open_race};
use crate::reporting::{race_report, refused_race_report};
use crate::scene::RaceScene;
use crate::words::read_race_words;
use fetch_cli::{Answer, Silence, Sink, Source, malformed, malformed_word, write_answer};
use fetch_race::{Job, race_with};
use fetch_store::{List, NoMemory};
use fetch_wire::ScriptedPeer;
use std::alloc::Global;
use std::sync::Wait;
use std::thread::Threads;

/// The jobs, each with a peer that gives its pieces and never fails.
fn scripted(alloc: Global, job_cases: List<JobCase>) -> Result<Vec<Job<ScriptedPeer>>, NoMemory>
    ensures { IfOk result (λ jobs. AreSetUp job_cases jobs.items) }
{
    let mut jobs = Vec::with_capacity(alloc, job_cases.len())?;
    for opened_case in job_cases.into_vec() {
        jobs.push(job_of(alloc, opened_case))?;
    }
    Ok(jobs)
}

fn job_of(alloc: Global, opened_case: JobCase) -> Job<ScriptedPeer>
    ensures { IsSetUp opened_case result }
{
    Job {
        remote: opened_case.remote,
        peer: ScriptedPeer::new(alloc, opened_case.pieces.into_vec(), Vec::new(alloc)),
        options: opened_case.options,
    }
}

/// Races the jobs of a scene, and tells what became of them.
fn raced<R: Threads + Wait + Sync>(
    rt: &R,
    alloc: Global,
    scene: RaceScene,
) -> Result<Answer, NoMemory>
    requires hash { AreOf scene.local.head.hash scene.objects }
    requires few { AreFew scene.jobs }
    ensures { IfOk result (λ x. IsRaceOf scene x.0 x.1.items) }
{
    let opened_case = open_race(alloc, scene)?;
    let jobs = scripted(alloc, opened_case.jobs)?;
    match race_with(
        rt,
        alloc,
        opened_case.repo,
        jobs,
        opened_case.worktrees.as_slice(),
    ) {
        Ok(raced) => race_report(
            alloc,
            raced.journal.as_slice(),
            &raced.repo,
            raced.answers.as_slice(),
        ),
        Err(refusal) => refused_race_report(alloc, &refusal),
    }
}

/// What is answered to the source's bytes.
fn answer_to_input<R: Threads + Wait + Sync, S: Source>(
    rt: &R,
    alloc: Global,
    source: &mut S,
) -> Result<Answer, Silence>
    ensures answer { IfOk result (λ x. IsInputAnswer (S.left source.old) x.0 x.1.items) }
    ensures end { IfOk result (λ x. x.0 ≢ 4 → IsAtEnd (S.left source.new)) }
    ensures source { BlamesEnd (S.faults source.old) (S.faults source.new) (IsErrOf result Silence.Unread) }
{
    match read_race(rt, alloc, source) {
        Ok(scene) => Ok(raced(rt, alloc, scene)?),
        Err(RaceFault::Unread) => Err(Silence::Unread),
        Err(RaceFault::Malformed { place }) => Ok(malformed(alloc, place)?),
        Err(RaceFault::NoMemory) => Err(Silence::NoMemory),
    }
}

/// What is answered to the words. The source is read where they ask for a race.
fn answer<R: Threads + Wait + Sync, S: Source>(
    rt: &R,
    alloc: Global,
    words: &[Vec<u8>],
    source: &mut S,
) -> Result<Answer, Silence>
    ensures answer { IfOk result (λ x. IsRaceAnswer (map (λ word. word.items) words.now) (S.left source.old) x.0 x.1.items) }
    ensures end { IfOk result (λ x. x.0 ≢ 4 → IsAtEnd (S.left source.new)) }
    ensures source { BlamesEnd (S.faults source.old) (S.faults source.new) (IsErrOf result Silence.Unread) }
    ensures untouched { asks (race_asked (map (λ word. word.items) words.now)) ≡ false → source.new ≡ source.old }
{
    match read_race_words(words) {
        Ok(()) => answer_to_input(rt, alloc, source),
        Err(number) => Ok(malformed_word(alloc, number)?),
    }
}

/// Runs a race with the words after the program's name, of which the first is `race`, and answers the status: 0 where all
/// jobs were done; 1 where the repository isn't closed, or some job was refused and memory ran out in none; 2 where the
/// source failed, and 3 where the sink did; 4 where the words or the scene are malformed; 5 where memory ran out, in a job
/// too, of which nothing is written then.
pub fn run_race<R: Threads + Wait + Sync, S: Source, K: Sink>(
    rt: &R,
    alloc: Global,
    words: &[Vec<u8>],
    source: &mut S,
    sink: &mut K,
) -> u8
    // A source that failed is told by 2 alone, and a sink that failed by 3.
    ensures source { BlamesEnd (S.faults source.old) (S.faults source.new) (result ≡ 2) }
    ensures sink { BlamesEnd (K.faults sink.old) (K.faults sink.new) (result ≡ 3) }
    ensures written { WritesBy (IsRaceAnswer (map (λ word. word.items) words.now) (S.left source.old))
        (K.taken sink.old) (K.taken sink.new) (sink.new ≡ sink.old) result }
    // Where the jobs were raced, the source was read to its end.
    ensures end { result ≤ 1 → IsAtEnd (S.left source.new) }
    // Words are tested before the source is read.
    ensures words { asks (race_asked (map (λ word. word.items) words.now)) ≡ false → source.new ≡ source.old }
{
    write_answer(answer(rt, alloc, words, source), sink)
}
