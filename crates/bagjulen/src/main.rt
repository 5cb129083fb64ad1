//! Fetches what a scene says, races its jobs or mirrors its repository, and writes a report.
#![tactic(auto)]

use fetch_cli::{Sink, StdSink, StdSource, run};
use fetch_store::NoMemory;
use fetch_wire::SendFault;
use mirror_cli::run_mirror_scene;
use race_cli::run_race;
use std::env::{Env, FillError};
use std::process::ExitCode;

/// How many bytes there is room for when a word is read first.
const ROOM: usize = 256;

/// What `--help` writes after the help of `run`, which reads all other words.
const OTHER_HELP: &[u8] = b"\
\nusage: bagjulen race < SCENE\n\
\x20      bagjulen mirror N < SERVER-SCENE\n\n\
race reads a scene with one to eight remotes, fetches from all of them side by side,\n\
and writes what each entered, in its order, and the repository as it then stands.\n\n\
mirror reads a repository in the form of a scene without a remote, mirrors it by N workers\n\
side by side, from 1 to 8, and writes the references and the objects of the mirror.\n\n\
Their statuses are those above: 0 where all was done, and 1 where something was refused.\n";

/// The word of this number, whatever its bytes, if there is one. Room is doubled until it fits.
fn word(rt: &HostRuntime, number: usize) -> Result<Option<Vec<u8>>, NoMemory> {
    let mut room = ROOM;
    for _ in 0..usize::BITS {
        let mut word = vec![in rt.alloc(); 0u8; room]?;
        match rt.arg(number, &mut word) {
            Ok(count) => {
                word.truncate(count);
                return Ok(Some(word));
            }
            Err(FillError::NotPresent) => return Ok(None),
            Err(FillError::TooLong) => room = room.saturating_mul(2),
        }
    }
    Err(NoMemory)
}

/// The words after the program's name.
fn words(rt: &HostRuntime) -> Result<Vec<Vec<u8>>, NoMemory> {
    let mut words = Vec::new(rt.alloc());
    for number in 1..usize::MAX {
        match word(rt, number)? {
            Some(word) => words.push(word)?,
            None => break,
        }
    }
    Ok(words)
}

/// Whether the first of the words is this one.
fn begins_with(words: &[Vec<u8>], wanted: &[u8]) -> bool {
    match words {
        [word, ..] => word.as_slice() == wanted,
        [] => false,
    }
}

/// The help of the words that start threads, after that of `run`, and the status.
fn help_on<K: Sink>(sink: &mut K) -> u8 {
    match sink.write_all(OTHER_HELP) {
        Ok(()) => 0,
        Err(SendFault::Failed) => 3,
        Err(SendFault::NoMemory) => 5,
    }
}

fn main(rt: HostRuntime) -> ExitCode {
    let Ok(words) = words(&rt) else {
        return ExitCode::from(5);
    };
    let mut source = StdSource::new(rt.stdin());
    let mut sink = StdSink::new(rt.stdout());
    // A race and a mirror start threads of their own.
    if begins_with(&words, b"race") {
        return ExitCode::from(run_race(&rt, rt.alloc(), &words, &mut source, &mut sink));
    }
    if begins_with(&words, b"mirror") {
        return ExitCode::from(run_mirror_scene(&rt, rt.alloc(), &words, &mut source, &mut sink));
    }
    let status = run(&rt, rt.alloc(), &words, &mut source, &mut sink);
    if status == 0 && begins_with(&words, b"--help") {
        return ExitCode::from(help_on(&mut sink));
    }
    ExitCode::from(status)
}
