//! Mirrors with another bound of the replies than the program's.

use crate::mirrors::{options_for, tell_mirror};
use fetch_mirror::run_mirror;
use fetch_remote::Repository;
use fetch_store::{NoMemory, decimal};
use fetch_wire::ReplyBound;
use rows::{lines, say, split_word};
use std::alloc::Global;
use std::sync::Wait;
use std::thread::Threads;

/// A number of 32 bits.
fn number(word: &[u8]) -> Option<u32> {
    u32::try_from(decimal(word)?).ok()
}

/// A count of workers and a bound, which are the two words of a line.
fn asked(line: &[u8]) -> Option<(u32, ReplyBound)> {
    let (workers, bound) = split_word(line);
    Some((number(workers)?, ReplyBound::new(number(bound)?)?))
}

/// Puts down the mirror of a repository by so many workers with this bound, or why there is none.
fn tell_asked(
    rt: &(impl Threads + Wait + Sync),
    alloc: Global,
    repo: &Repository,
    asked: (u32, ReplyBound),
    out: &mut Vec<u8>,
) -> Result<(), NoMemory> {
    let options = options_for(repo, asked.0, asked.1)?;
    let mirror = run_mirror(rt, alloc, repo.store(), repo.refs(), repo.border(), options);
    tell_mirror(alloc, mirror, out)?;
    Ok(())
}

/// Puts down what each line tells of a repository. Whether each is a count of workers and a bound.
pub(crate) fn tell(
    rt: &(impl Threads + Wait + Sync),
    alloc: Global,
    repo: &Repository,
    text: &[u8],
    out: &mut Vec<u8>,
) -> Result<bool, NoMemory> {
    for line in &lines(alloc, text)? {
        let Some(asked) = asked(line) else {
            return Ok(false);
        };
        say(out, &[b"==", line])?;
        tell_asked(rt, alloc, repo, asked, out)?;
    }
    Ok(true)
}
