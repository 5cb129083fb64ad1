//! Passes of a shared repository, on one thread.

ghost use Rattle.std.specs.Prelude.{◌≡◌};

use crate::answers::tell_numbers;
use crate::journals::tell_journal;
use crate::opening::open;
use crate::refusals::tell_refusal;
use fetch_remote::Repository;
use fetch_shared::{Entry, Pass, SharedError, SharedRepository};
use fetch_specs::FullName;
use fetch_store::{NoMemory, decimal, split_first};
use rows::{name_of, split_word};
use std::alloc::Global;
use std::sync::Wait;
use std::thread::Threads;

/// Number and unused numbers of a pass.
type Numbers = [u64; 2];

/// What is told of two passes that were one, enter something, and are one again.
#[derive(Clone, Copy)]
struct Round {
    left: Numbers,
    right: Numbers,
    /// The place of the right one's entry, which comes first.
    first: Option<u64>,
    /// The place of the left one's.
    second: Option<u64>,
    joined: Numbers,
}

/// What is told of passes.
#[derive(Drop)]
struct Told {
    opened: Numbers,
    /// None where so many numbers can't be split off.
    first: Option<Round>,
    second: Option<Round>,
    journal: Vec<Entry>,
}

/// Both passes enter a deletion, the right one first, and are joined. An entry that memory runs out at has no place.
fn use_both<R: Wait>(
    rt: &R,
    alloc: Global,
    shared: &SharedRepository,
    passes: (Pass, Pass),
    names: &[FullName],
) -> (Pass, Option<Round>)
    requires left { passes.0.shared ≡ shared.now }
    requires right { passes.1.shared ≡ shared.now }
    ensures { result.0.shared ≡ shared.now }
{
    let (left_pass, right_pass) = passes;
    let left = [left_pass.number(), left_pass.unused()];
    let right = [right_pass.number(), right_pass.unused()];
    let (right_pass, first) = shared.delete(rt, alloc, right_pass, names);
    let (left_pass, second) = shared.delete(rt, alloc, left_pass, names);
    let pass = shared.join(left_pass, right_pass);
    let joined = [pass.number(), pass.unused()];
    (
        pass,
        Some(Round {
            left,
            right,
            first: first.ok(),
            second: second.ok(),
            joined,
        }),
    )
}

/// Splits so many numbers off, where the pass has as many, and uses both passes.
fn play<R: Wait>(
    rt: &R,
    alloc: Global,
    shared: &SharedRepository,
    pass: Pass,
    numbers: u64,
    names: &[FullName],
) -> (Pass, Option<Round>)
    requires { pass.shared ≡ shared.now }
    ensures { result.0.shared ≡ shared.now }
{
    if numbers == 0 || numbers > pass.unused() {
        return (pass, None);
    }
    match shared.split(pass, numbers) {
        Ok(passes) => use_both(rt, alloc, shared, passes, names),
        Err((pass, _)) => (pass, None),
    }
}

/// The journal, at the end.
fn close<R: Wait>(rt: &R, alloc: Global, shared: SharedRepository, pass: Pass) -> Vec<Entry>
    requires { pass.shared ≡ shared }
{
    match shared.close(rt, pass) {
        Ok((_, journal)) => journal,
        Err(_) => Vec::new(alloc),
    }
}

/// Two rounds, and the end.
fn use_passes<R: Wait>(
    rt: &R,
    alloc: Global,
    shared: SharedRepository,
    pass: Pass,
    numbers: Numbers,
    names: &[FullName],
) -> Told
    requires { pass.shared ≡ shared }
{
    let opened = [pass.number(), pass.unused()];
    let (pass, first) = play(rt, alloc, &shared, pass, numbers[0], names);
    let (pass, second) = play(rt, alloc, &shared, pass, numbers[1], names);
    Told {
        opened,
        first,
        second,
        journal: close(rt, alloc, shared, pass),
    }
}

fn share<R: Wait>(
    rt: &R,
    alloc: Global,
    repo: Repository,
    numbers: Numbers,
    names: &[FullName],
) -> Result<Told, SharedError> {
    match SharedRepository::new(alloc, repo) {
        Ok((shared, pass)) => Ok(use_passes(rt, alloc, shared, pass, numbers, names)),
        Err(e) => Err(e),
    }
}

fn tell_round(out: &mut Vec<u8>, round: &Option<Round>) -> Result<(), NoMemory> {
    let Some(round) = round else {
        out.extend_from_slice(b"none\n")?;
        return Ok(());
    };
    let (Some(first), Some(second)) = (round.first, round.second) else {
        return Err(NoMemory);
    };
    tell_numbers(out, b"left", &round.left)?;
    tell_numbers(out, b"right", &round.right)?;
    tell_numbers(out, b"ok", &[first])?;
    tell_numbers(out, b"ok", &[second])?;
    tell_numbers(out, b"joined", &round.joined)
}

fn tell_told(out: &mut Vec<u8>, told: &Result<Told, SharedError>) -> Result<(), NoMemory> {
    match told {
        Ok(told) => {
            tell_numbers(out, b"pass", &told.opened)?;
            tell_round(out, &told.first)?;
            tell_round(out, &told.second)?;
            tell_journal(out, told.journal.as_slice())
        }
        Err(e) => tell_refusal(out, e),
    }
}

/// Shares a repository, and tells of its passes.
fn tell_shared<R: Wait>(
    rt: &R,
    alloc: Global,
    repo: Repository,
    numbers: Numbers,
    names: &[FullName],
    out: &mut Vec<u8>,
) -> Result<(), NoMemory> {
    let told = share(rt, alloc, repo, numbers, names);
    tell_told(out, &told)
}

/// `<numbers> <numbers> <name>`: how many numbers are split off in each round, and what is deleted.
fn round_of(alloc: Global, line: &[u8]) -> Result<Option<(u64, u64, FullName)>, NoMemory> {
    let (first, rest) = split_word(line);
    let (second, name) = split_word(rest);
    let (Some(first), Some(second)) = (decimal(first), decimal(second)) else {
        return Ok(None);
    };
    match name_of(alloc, name)? {
        Some(name) => Ok(Some((first, second, name))),
        None => Ok(None),
    }
}

/// Shares the repository of a row, and tells of its passes, as its line says. Whether the line says so.
pub(crate) fn tell(
    rt: &(impl Threads + Wait + Sync),
    scene: &[u8],
    line: &[u8],
    out: &mut Vec<u8>,
) -> Result<bool, NoMemory> {
    let alloc = *out.allocator();
    let (line, _) = split_first(b'\n', line).unwrap_or((line, &[]));
    let Some((first, second, name)) = round_of(alloc, line)? else {
        return Ok(false);
    };
    let names = vec![in alloc; name]?;
    match open(rt, alloc, scene)? {
        Some((repo, _)) => {
            tell_shared(rt, alloc, repo, [first, second], names.as_slice(), out)?;
            Ok(true)
        }
        None => Ok(false),
    }
}
