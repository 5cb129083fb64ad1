//! The program's word `mirror`: it reads a repository, mirrors it, and writes a report.

ghost use Rattle.std.specs.Prelude.{◌≡◌, ◌≢◌, ◌≤◌, map, false, IfOk, IsErrOf};
ghost use Rattle.std.specs.Io.KnownBytes.{IsAtEnd};
ghost use Rattle.fetch_cli.specs.ServerScenes.{server_scene_of};
ghost use Rattle.fetch_cli.specs.Written.{BlamesEnd, WritesBy};
ghost use Rattle.mirror_cli.specs.MirrorRun.{IsInputAnswer, IsMirrorAnswer, IsSceneAnswer, asks};
ghost use Rattle.mirror_cli.specs.MirrorWords.{mirror_asked};

use crate::mirroring::mirrored;
use crate::words::read_mirror_words;
use fetch_cli::{
    Answer, MAX_SCENE, ReadError, SceneFault, Silence, Sink, Source, malformed, malformed_word,
    read_all, read_server_scene, write_answer,
};
use fetch_store::NoMemory;
use std::alloc::Global;
use std::sync::Wait;
use std::thread::Threads;

/// What is answered to bytes.
fn answer_to_bytes<R: Threads + Wait + Sync>(
    rt: &R,
    alloc: Global,
    workers: u32,
    bytes: &[u8],
) -> Result<Answer, NoMemory>
    ensures { IfOk result (λ x. IsSceneAnswer workers (server_scene_of bytes.now) x.0 x.1.items) }
{
    match read_server_scene(rt, alloc, bytes) {
        Ok(scene) => mirrored(rt, alloc, workers, scene),
        Err(SceneFault::Malformed { place }) => malformed(alloc, place),
        Err(SceneFault::NoMemory) => Err(NoMemory),
    }
}

/// What is answered to the source's bytes.
fn answer_to_input<R: Threads + Wait + Sync, S: Source>(
    rt: &R,
    alloc: Global,
    workers: u32,
    source: &mut S,
) -> Result<Answer, Silence>
    ensures answer { IfOk result (λ x. IsInputAnswer workers (S.left source.old) x.0 x.1.items) }
    ensures end { IfOk result (λ x. x.0 ≢ 4 → IsAtEnd (S.left source.new)) }
    ensures source { BlamesEnd (S.faults source.old) (S.faults source.new) (IsErrOf result Silence.Unread) }
{
    match read_all(alloc, source) {
        Ok(bytes) => Ok(answer_to_bytes(rt, alloc, workers, &bytes)?),
        Err(ReadError::Failed) => Err(Silence::Unread),
        Err(ReadError::TooLong) => Ok(malformed(alloc, MAX_SCENE)?),
        Err(ReadError::NoMemory) => Err(Silence::NoMemory),
    }
}

/// What is answered to the words. The source is read where they ask for a mirror.
fn answer<R: Threads + Wait + Sync, S: Source>(
    rt: &R,
    alloc: Global,
    words: &[Vec<u8>],
    source: &mut S,
) -> Result<Answer, Silence>
    ensures answer { IfOk result (λ x. IsMirrorAnswer (map (λ word. word.items) words.now) (S.left source.old) x.0 x.1.items) }
    ensures end { IfOk result (λ x. x.0 ≢ 4 → IsAtEnd (S.left source.new)) }
    ensures source { BlamesEnd (S.faults source.old) (S.faults source.new) (IsErrOf result Silence.Unread) }
    ensures untouched { asks (mirror_asked (map (λ word. word.items) words.now)) ≡ false → source.new ≡ source.old }
{
    match read_mirror_words(words) {
        Ok(workers) => answer_to_input(rt, alloc, workers, source),
        Err(number) => Ok(malformed_word(alloc, number)?),
    }
}

/// Mirrors the repository that the source tells, with the words after the program's name, of which the first is `mirror` and
/// the second the count of workers, and answers the status: 0 where it was mirrored, and 1 where not, with the report; 2
/// where the source failed, and 3 where the sink did; 4 where the words or the scene are malformed, whatever the count of
/// workers; 5 where memory ran out.
pub fn run_mirror_scene<R: Threads + Wait + Sync, S: Source, K: Sink>(
    rt: &R,
    alloc: Global,
    words: &[Vec<u8>],
    source: &mut S,
    sink: &mut K,
) -> u8
    // A source that failed is told by 2 alone, and a sink that failed by 3.
    ensures source { BlamesEnd (S.faults source.old) (S.faults source.new) (result ≡ 2) }
    ensures sink { BlamesEnd (K.faults sink.old) (K.faults sink.new) (result ≡ 3) }
    ensures written { WritesBy (IsMirrorAnswer (map (λ word. word.items) words.now) (S.left source.old))
        (K.taken sink.old) (K.taken sink.new) (sink.new ≡ sink.old) result }
    // Where the repository was mirrored or refused, the source was read to its end.
    ensures end { result ≤ 1 → IsAtEnd (S.left source.new) }
    // Words are tested before the source is read.
    ensures words { asks (mirror_asked (map (λ word. word.items) words.now)) ≡ false → source.new ≡ source.old }
{
    write_answer(answer(rt, alloc, words, source), sink)
}
