//! The words of the command line.

ghost use Rattle.std.specs.Prelude.{◌≡◌, ◌<◌, ◌≤◌, map, IfOk, IfSome};
ghost use Rattle.fetch_cli.specs.Words as spec;

use fetch_bench_scene::MAX_BENCH;
use fetch_scene::number;

/// What the words ask for.
#[derive(Clone, Copy, Debug, PartialEq, Eq)]
pub enum Command {
    /// Fetch what the scene at standard input says, and report.
    Fetch,
    /// Check the repository that the server scene at standard input says, and tell what is found.
    Check,
    /// Fetch the second half of a line of that many commits, from 1 to 100,000, and sum up.
    Bench(usize),
    /// Tell how the program is used.
    Help,
    /// Tell which version it is.
    Version,
}

/// What `--help` writes.
pub const HELP: &[u8] = b"\
usage: bagjulen fetch < SCENE\n\
\x20      bagjulen check < SERVER-SCENE\n\
\x20      bagjulen bench N\n\n\
fetch reads a scene from standard input: a repository, a remote and what its peer says.\n\
It fetches, and writes a report: the lines sent, what became of each reference,\n\
and the repository as it then stands.\n\n\
check reads a repository in the form of a scene without a remote from standard input,\n\
and writes each missing link, each broken reference and each object that no reference reaches.\n\n\
bench fetches the second half of a line of N commits, from 1 to 100000,\n\
from a server in memory, and writes a summary.\n\n\
status 0  the fetch was done, or the check found nothing\n\
\x20      1  the fetch was refused, and the report says why; or the check found something\n\
\x20      2  the input could not be read\n\
\x20      3  the output could not be written\n\
\x20      4  the words or the scene are malformed\n\
\x20      5  memory ran out\n";

/// What `--version` writes.
pub const VERSION: &[u8] = b"bagjulen 0.1.0\n";

#[tactic(auto, unfolding(crate::specs::Words::command_named))]
fn named(word: &[u8]) -> Option<Command>
    ensures command { result ≡ spec.command_named word.now }
    ensures within { IfSome result spec.IsWithin }
{
    if word == b"fetch".as_slice() {
        Some(Command::Fetch)
    } else if word == b"check".as_slice() {
        Some(Command::Check)
    } else if word == b"--help".as_slice() {
        Some(Command::Help)
    } else if word == b"--version".as_slice() {
        Some(Command::Version)
    } else {
        None
    }
}

/// A word that stands alone. A second one is too many.
fn alone(command: Option<Command>, others: &[Vec<u8>]) -> Result<Command, usize>
    requires { IfSome command spec.IsWithin }
    ensures command { result ≡ spec.alone command (map (λ word. word.items) others.now) }
    ensures within { IfOk result spec.IsWithin }
{
    match command {
        Some(command) => {
            if others.is_empty() {
                Ok(command)
            } else {
                Err(2)
            }
        }
        None => Err(1),
    }
}

/// How many commits a word asks for.
#[tactic(auto, unfolding(crate::specs::Words::if_few))]
fn count_in(word: &[u8]) -> Option<usize>
    ensures count { result ≡ spec.count_in word.now }
    ensures within { IfSome result (λ count. (0 < count) × (count ≤ MAX_BENCH)) }
{
    let count = number(word)?;
    if 0 < count && count <= MAX_BENCH as u64 {
        Some(count as usize)
    } else {
        None
    }
}

/// What the words after `bench` ask for.
fn bench(words: &[Vec<u8>]) -> Result<Command, usize>
    ensures command { result ≡ spec.bench_of (map (λ word. word.items) words.now) }
    ensures within { IfOk result spec.IsWithin }
{
    match words {
        [] => Err(2),
        [word, others @ ..] => match count_in(word) {
            Some(count) => {
                if others.is_empty() {
                    Ok(Command::Bench(count))
                } else {
                    Err(3)
                }
            }
            None => Err(2),
        },
    }
}

/// What the words ask for, or the number of the first that is wrong or lacking, from 1 on. These are the words after
/// the program's name.
#[tactic(auto, unfolding(crate::specs::Words::command_of))]
pub fn read_command(words: &[Vec<u8>]) -> Result<Command, usize>
    ensures command { result ≡ spec.command_of (map (λ word. word.items) words.now) }
    ensures within { IfOk result spec.IsWithin }
{
    match words {
        [] => Err(1),
        [word, others @ ..] => {
            if word.as_slice() == b"bench".as_slice() {
                bench(others)
            } else {
                alone(named(word), others)
            }
        }
    }
}
