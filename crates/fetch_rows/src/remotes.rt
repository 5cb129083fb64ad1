//! Repositories that are asked of their remotes and branches, each question of one of its own.

mod branches;
mod connecting;
mod deleting;
mod finding;
mod opening;
mod overriding;
mod refusals;
mod remote_case;
mod saving;

use self::opening::open;
use self::remote_case::RemoteCase;
use fetch_remote::Repository;
use fetch_store::{NoMemory, after};
use rows::{Question, say, tell_lines};
use std::alloc::Global;

/// Tells what is asked of a repository that stays as it is. Whether something is.
fn ask_of(
    alloc: Global,
    remote_case: &RemoteCase,
    repo: &Repository,
    question: Question<'_>,
    out: &mut Vec<u8>,
) -> Result<bool, NoMemory> {
    if finding::ask(alloc, repo, question, out)? {
        return Ok(true);
    }
    if branches::ask_of_branches(alloc, repo, question, out)? {
        return Ok(true);
    }
    if connecting::ask(alloc, repo, remote_case.peers.as_slice(), question, out)? {
        return Ok(true);
    }
    saving::ask(alloc, repo, remote_case.config.as_slice(), question, out)
}

/// Tells what is asked of a repository. Whether something is.
fn ask_or_change(
    alloc: Global,
    remote_case: &RemoteCase,
    repo: &mut Repository,
    question: Question<'_>,
    out: &mut Vec<u8>,
) -> Result<bool, NoMemory> {
    if ask_of(alloc, remote_case, repo, question, out)? {
        return Ok(true);
    }
    let Question { what, rest } = question;
    if what == b"delete".as_slice() {
        return deleting::delete(alloc, remote_case, repo, rest, out);
    }
    if what == b"reload".as_slice() {
        deleting::reload(alloc, remote_case, repo, out)?;
        return Ok(true);
    }
    Ok(false)
}

/// Tells what is asked. Whether something is, and of a repository.
fn ask(
    alloc: Global,
    remote_case: &RemoteCase,
    question: Question<'_>,
    out: &mut Vec<u8>,
) -> Result<bool, NoMemory> {
    if question.what == b"open-with".as_slice() {
        return overriding::tell(alloc, remote_case, question.rest, out);
    }
    match open(alloc, remote_case)? {
        Some(mut repo) => ask_or_change(alloc, remote_case, &mut repo, question, out),
        None => Ok(false),
    }
}

/// Takes what a line says of the repository, or tells what it asks for. Whether it is such a line.
fn tell_line(
    alloc: Global,
    remote_case: &mut RemoteCase,
    line: &[u8],
    out: &mut Vec<u8>,
) -> Result<bool, NoMemory> {
    match after(b"? ", line) {
        Some(question) => {
            say(out, &[line])?;
            ask(alloc, remote_case, Question::of(question), out)
        }
        None => remote_case.take(alloc, line),
    }
}

/// Takes the lines of a row, and tells what they ask for. Whether they are such lines.
pub(crate) fn tell(alloc: Global, text: &[u8], out: &mut Vec<u8>) -> Result<bool, NoMemory> {
    let mut remote_case = RemoteCase::new(alloc);
    tell_lines(
        alloc,
        text,
        out,
        |line, out| tell_line(alloc, &mut remote_case, line, out),
    )
}
