//! The program: it reads a scene, fetches or checks, and writes a report.

ghost use Rattle.std.specs.Prelude.{◌≡◌, ◌≢◌, ◌≤◌, ℕ, List, Some, map, true, false, IfOk, IsErrOf};
ghost use Rattle.std.specs.Io.KnownBytes.{IsAtEnd};
ghost use Rattle.fetch_store.specs.Stores.{AreOf};
ghost use Rattle.fetch_check.specs.declared.findings.Findings.{Findings};
ghost use Rattle.fetch_bench_scene.specs.Bench.{generated_scene};
ghost use Rattle.fetch_cli.specs.Bench.{IsSummary};
ghost use Rattle.fetch_cli.specs.Checks.{IsChecked};
ghost use Rattle.fetch_cli.specs.Report.{IsReport};
ghost use Rattle.fetch_cli.specs.Run.{Are, IsSceneAnswer, IsServerAnswer, IsBytesAnswer, IsInputAnswer, IsAnswer};
ghost use Rattle.fetch_cli.specs.Run.{HasFindings, HasValidScene, AsksBench, asks_input};
ghost use Rattle.fetch_cli.specs.Run.{IsBenched, IsCheckOf, IsUnlessFailed};
ghost use Rattle.fetch_cli.specs.ServerScenes.{server_scene_of};
ghost use Rattle.fetch_cli.specs.Words.{IsWithin, help_text, version_text};
ghost use Rattle.fetch_cli.specs.Written.{BlamesEnd, WritesBy};
ghost use Rattle.fetch_scene.specs.Scene.{scene_of};

use crate::program::answers::{Answer, Silence, malformed, malformed_word, write_answer};
use crate::program::input::{ReadError, read_all};
use crate::program::io::{Sink, Source};
use crate::program::server_scene::{ServerScene, read_server_scene};
use crate::program::words::{Command, HELP, VERSION, read_command};
use crate::reporting::fetch_case::open_local;
use crate::reporting::report;
use crate::reporting::summary::summary;
use fetch_bench_scene::bench_scene;
use fetch_check::{append_findings, check};
use fetch_scene::{MAX_SCENE, Scene, SceneFault, read_scene};
use fetch_store::NoMemory;
use std::alloc::Global;
use std::thread::Threads;

/// What is done with the input.
#[derive(Clone, Copy, Debug, PartialEq, Eq)]
enum Task {
    /// It is a scene, which is fetched.
    Fetch,
    /// It is a server scene, which is checked.
    Check,
}

#[tactic(auto, unfolding(crate::specs::Words::help_text))]
fn help(alloc: Global) -> Result<Answer, NoMemory>
    ensures { IfOk result (λ x. Are 0 help_text x.0 x.1.items) }
{
    Ok((0, Vec::from_slice(alloc, HELP)?))
}

#[tactic(auto, unfolding(crate::specs::Words::version_text))]
fn version(alloc: Global) -> Result<Answer, NoMemory>
    ensures { IfOk result (λ x. Are 0 version_text x.0 x.1.items) }
{
    Ok((0, Vec::from_slice(alloc, VERSION)?))
}

fn reported<R: Threads + Sync>(rt: &R, alloc: Global, scene: Scene) -> Result<Answer, NoMemory>
    requires { AreOf scene.hash scene.objects }
    ensures { IfOk result (λ x. IsReport scene x.0 x.1.items) }
{
    let mut text = Vec::new(alloc);
    let status = report(rt, alloc, scene, &mut text)?;
    Ok((status, text))
}

/// What is found in the repository of a server scene.
fn checked(alloc: Global, scene: ServerScene) -> Result<Answer, NoMemory>
    requires { AreOf scene.local.head.hash scene.objects }
    ensures { IfOk result (λ x. IsChecked scene x.0 x.1.items) }
{
    let (repo, _) = open_local(alloc, scene.local, scene.objects)?;
    let findings = check(alloc, repo.store(), repo.refs(), repo.border())?;
    let mut text = Vec::new(alloc);
    let status = append_findings(&mut text, &findings)?;
    Ok((status, text))
}

/// What is told of the fetch of a bench.
fn benched<R: Threads + Sync>(rt: &R, alloc: Global, count: usize) -> Result<Answer, NoMemory>
    requires { IsWithin (Command.Bench count) }
    ensures { IfOk result (λ x. IsSummary count (generated_scene count) x.0 x.1.items) }
{
    let scene = bench_scene(alloc, count)?;
    summary(rt, alloc, count, scene)
}

/// What is answered to a scene.
fn answer_to_scene<R: Threads + Sync>(
    rt: &R,
    alloc: Global,
    bytes: &[u8],
) -> Result<Answer, NoMemory>
    ensures { IfOk result (λ x. IsSceneAnswer (scene_of bytes.now) x.0 x.1.items) }
{
    match read_scene(rt, alloc, bytes) {
        Ok(scene) => reported(rt, alloc, scene),
        Err(SceneFault::Malformed { place }) => malformed(alloc, place),
        Err(SceneFault::NoMemory) => Err(NoMemory),
    }
}

/// What is answered to a server scene.
fn answer_to_server_scene<R: Threads + Sync>(
    rt: &R,
    alloc: Global,
    bytes: &[u8],
) -> Result<Answer, NoMemory>
    ensures { IfOk result (λ x. IsServerAnswer (server_scene_of bytes.now) x.0 x.1.items) }
{
    match read_server_scene(rt, alloc, bytes) {
        Ok(scene) => checked(alloc, scene),
        Err(SceneFault::Malformed { place }) => malformed(alloc, place),
        Err(SceneFault::NoMemory) => Err(NoMemory),
    }
}

/// What is answered to bytes, by what is done with them.
fn answer_to_bytes<R: Threads + Sync>(
    rt: &R,
    alloc: Global,
    task: Task,
    bytes: &[u8],
) -> Result<Answer, NoMemory>
    ensures { IfOk result (λ x. IsBytesAnswer task bytes.now x.0 x.1.items) }
{
    match task {
        Task::Fetch => answer_to_scene(rt, alloc, bytes),
        Task::Check => answer_to_server_scene(rt, alloc, bytes),
    }
}

/// What is answered to the source's bytes, by what is done with them.
fn answer_to_input<R: Threads + Sync, S: Source>(
    rt: &R,
    alloc: Global,
    task: Task,
    source: &mut S,
) -> Result<Answer, Silence>
    ensures answer { IfOk result (λ x. IsInputAnswer task (S.left source.old) x.0 x.1.items) }
    ensures end { IfOk result (λ x. x.0 ≢ 4 → IsAtEnd (S.left source.new)) }
    ensures source { BlamesEnd (S.faults source.old) (S.faults source.new) (IsErrOf result Silence.Unread) }
{
    match read_all(alloc, source) {
        Ok(bytes) => Ok(answer_to_bytes(rt, alloc, task, &bytes)?),
        Err(ReadError::Failed) => Err(Silence::Unread),
        Err(ReadError::TooLong) => Ok(malformed(alloc, MAX_SCENE)?),
        Err(ReadError::NoMemory) => Err(Silence::NoMemory),
    }
}

/// What is answered to the words. The source is read where they ask for a fetch or a check.
fn answer<R: Threads + Sync, S: Source>(
    rt: &R,
    alloc: Global,
    words: &[Vec<u8>],
    source: &mut S,
) -> Result<Answer, Silence>
    ensures answer { IfOk result (λ x. IsAnswer (map (λ word. word.items) words.now) (S.left source.old) x.0 x.1.items) }
    ensures end { IfOk result (λ x. asks_input (map (λ word. word.items) words.now) ≡ true → x.0 ≢ 4 → IsAtEnd (S.left source.new)) }
    ensures source { BlamesEnd (S.faults source.old) (S.faults source.new) (IsErrOf result Silence.Unread) }
    ensures untouched { asks_input (map (λ word. word.items) words.now) ≡ false → source.new ≡ source.old }
{
    match read_command(words) {
        Ok(Command::Fetch) => answer_to_input(rt, alloc, Task::Fetch, source),
        Ok(Command::Check) => answer_to_input(rt, alloc, Task::Check, source),
        Ok(Command::Bench(count)) => Ok(benched(rt, alloc, count)?),
        Ok(Command::Help) => Ok(help(alloc)?),
        Ok(Command::Version) => Ok(version(alloc)?),
        Err(number) => Ok(malformed_word(alloc, number)?),
    }
}

/// Runs the program with the words after its name, and answers its status: 0 where the fetch, or that of a bench, was
/// done, where a check found nothing, or where help or the version was asked for; 1 where the fetch was refused, or the
/// check found something; 2 where the source failed, and 3 where the sink
/// did; 4 where the words or the scene are malformed; 5 where memory ran out.
pub fn run<R: Threads + Sync, S: Source, K: Sink>(
    rt: &R,
    alloc: Global,
    words: &[Vec<u8>],
    source: &mut S,
    sink: &mut K,
) -> u8
    // A source that failed is told by 2 alone, and a sink that failed by 3.
    ensures source { BlamesEnd (S.faults source.old) (S.faults source.new) (result ≡ 2) }
    ensures sink { BlamesEnd (K.faults sink.old) (K.faults sink.new) (result ≡ 3) }
    ensures written { WritesBy (IsAnswer (map (λ word. word.items) words.now) (S.left source.old))
        (K.taken sink.old) (K.taken sink.new) (sink.new ≡ sink.old) result }
    // Where a fetch was done or refused, or a repository was checked, the source was read to its end.
    ensures end { asks_input (map (λ word. word.items) words.now) ≡ true → result ≤ 1 → IsAtEnd (S.left source.new) }
    // Words are tested before the source is read.
    ensures words { asks_input (map (λ word. word.items) words.now) ≡ false → source.new ≡ source.old }
    // Where the source tells what is in it, the status is that of the one answer.
    ensures exact { (bytes : List ℕ) (status : ℕ) (text : List ℕ) → S.left source.old ≡ Some bytes
        → IsAnswer (map (λ word. word.items) words.now) (Some bytes) status text → IsUnlessFailed result status }
    ensures bench { (count : ℕ) → AsksBench (map (λ word. word.items) words.now) count
        → IsBenched count (K.taken sink.old) (K.taken sink.new) result }
    ensures check { (findings : Findings) → HasFindings (map (λ word. word.items) words.now) (S.left source.old) findings
        → IsCheckOf findings (K.taken sink.old) (K.taken sink.new) result }
    ensures complete { HasValidScene (map (λ word. word.items) words.now) (S.left source.old) → IsUnlessFailed result 0 }
{
    write_answer(answer(rt, alloc, words, source), sink)
}
