//! Lines of a row, made over one shared state.

ghost use Rattle.std.specs.Prelude.{◌≡◌};

use crate::answers::tell_answer;
use crate::events::event_of;
use crate::journals::tell_journal;
use crate::opening::open;
use crate::refusals::tell_refusal;
use crate::replays::tell_replay;
use crate::running::run;
use fetch_remote::Repository;
use fetch_shared::{Entry, SharedState};
use fetch_store::{Kind, NoMemory, Text, after};
use rows::{Row, lines as lines_of, say};
use std::alloc::Global;
use std::thread::Threads;

/// What events are made with.
#[derive(Clone, Copy)]
struct Desk<'a> {
    /// The packs that may be taken.
    packs: &'a [Text],
    /// The hash of the repository.
    kind: Kind,
    /// The repository, as it was before it was shared.
    opening: &'a Repository,
}

/// Tells the journal, or what it leaves. Whether a line asks for that.
fn tell_entries(
    alloc: Global,
    desk: &Desk<'_>,
    journal: &[Entry],
    line: &[u8],
    out: &mut Vec<u8>,
) -> Result<bool, NoMemory> {
    if line == b"journal".as_slice() {
        tell_journal(out, journal)?;
        return Ok(true);
    }
    match after(b"replay ", line) {
        Some(places) => {
            tell_replay(alloc, desk.opening, journal, places, out)?;
            Ok(true)
        }
        None => Ok(false),
    }
}

/// Makes the event that a line asks for, or tells of the journal. Whether it asks for one of these.
fn tell_line(
    rt: &(impl Threads + Sync),
    alloc: Global,
    desk: &Desk<'_>,
    state: &mut SharedState,
    line: &[u8],
    out: &mut Vec<u8>,
) -> Result<bool, NoMemory>
    requires { state.old.repository.state.hash ≡ desk.now.kind }
    ensures { state.new.repository.state.hash ≡ desk.now.kind }
{
    say(out, &[b"?", line])?;
    match event_of(alloc, line)? {
        Some(event) => {
            let answer = run(rt, alloc, desk.kind, state, desk.packs, event);
            tell_answer(out, &answer)
        }
        None => tell_entries(alloc, desk, state.journal(), line, out),
    }
}

/// Each line, with its answer after. Whether all lines ask for something.
fn tell_lines(
    rt: &(impl Threads + Sync),
    alloc: Global,
    desk: &Desk<'_>,
    state: &mut SharedState,
    lines: &[u8],
    out: &mut Vec<u8>,
) -> Result<bool, NoMemory>
    requires { state.old.repository.state.hash ≡ desk.now.kind }
{
    for line in &lines_of(alloc, lines)? {
        if !tell_line(rt, alloc, desk, state, line, out)? {
            return Ok(false);
        }
    }
    Ok(true)
}

/// Shares a repository, and tells what these lines answer. Whether they all ask for something.
fn tell_shared(
    rt: &(impl Threads + Sync),
    alloc: Global,
    desk: &Desk<'_>,
    repo: Repository,
    lines: &[u8],
    out: &mut Vec<u8>,
) -> Result<bool, NoMemory>
    requires { repo.state.hash ≡ desk.now.kind }
{
    match SharedState::new(alloc, repo) {
        Ok(mut state) => tell_lines(rt, alloc, desk, &mut state, lines, out),
        Err(e) => {
            tell_refusal(out, &e)?;
            Ok(true)
        }
    }
}

/// The same, with a copy of the repository as it was before.
fn tell_over(
    rt: &(impl Threads + Sync),
    alloc: Global,
    repo: Repository,
    packs: &[Text],
    lines: &[u8],
    out: &mut Vec<u8>,
) -> Result<bool, NoMemory> {
    let opening = repo.try_clone(alloc)?;
    let desk = Desk {
        packs,
        kind: repo.store().kind(),
        opening: &opening,
    };
    tell_shared(rt, alloc, &desk, repo, lines, out)
}

/// Shares the repository of a row, and tells what its lines answer. Whether they all ask for something.
pub(crate) fn tell(
    rt: &(impl Threads + Sync),
    row: &Row<'_>,
    out: &mut Vec<u8>,
) -> Result<bool, NoMemory> {
    let alloc = *out.allocator();
    match open(rt, alloc, row.scene)? {
        Some((repo, packs)) => tell_over(rt, alloc, repo, packs.as_slice(), row.lines, out),
        None => Ok(false),
    }
}
