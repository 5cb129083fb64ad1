//! Mirrors the repositories of its input: by the program's words, by a bound of the replies, by workers whose peers wait for each
//! other, or by peers that fail. Or it fetches from servers of them. It writes what came of it.
#![tactic(auto)]

mod bounds;
mod failing;
mod gated;
mod mirrors;
mod served;
mod worded;

use failing::Who;
use fetch_remote::Repository;
use fetch_serve::{ServeError, Server};
use fetch_store::NoMemory;
use peer_rows::repository_of;
use rows::{Row, run_rows, tell_lines};
use std::alloc::Global;
use std::process::ExitCode;
use std::sync::Wait;
use std::thread::Threads;

/// Puts down what a row tells of mirrors of this repository from a server of it. Whether it is one, and the repository can be
/// served.
fn tell_from_server(
    rt: &(impl Threads + Wait + Sync),
    alloc: Global,
    repo: &Repository,
    whose: &[u8],
    out: &mut Vec<u8>,
) -> Result<bool, NoMemory> {
    let server = match Server::new(alloc, repo.store(), repo.refs(), repo.border()) {
        Ok(server) => server,
        Err(ServeError::NoMemory) => return Err(NoMemory),
        Err(_) => return Ok(false),
    };
    if whose == b"gated".as_slice() {
        gated::tell(rt, alloc, repo, &server, out)?;
    } else if whose == b"failing".as_slice() {
        for fails in [Who::Lister, Who::First, Who::Second] {
            failing::tell(rt, alloc, repo, &server, fails, out)?;
        }
    } else {
        return Ok(false);
    }
    Ok(true)
}

/// Puts down what a row tells. Whether it is one.
fn tell_row(
    rt: &(impl Threads + Wait + Sync),
    row: &Row<'_>,
    out: &mut Vec<u8>,
) -> Result<bool, NoMemory> {
    let alloc = *out.allocator();
    if row.whose == b"mirror".as_slice() {
        return worded::tell(rt, alloc, row.scene, row.lines, out);
    } else if row.whose == b"served".as_slice() {
        return tell_lines(
            alloc,
            row.lines,
            out,
            |line, out| served::tell(rt, alloc, row.scene, line, out),
        );
    }
    let Some(repo) = repository_of(rt, alloc, row.scene)? else {
        return Ok(false);
    };
    if row.whose == b"bounds".as_slice() {
        bounds::tell(rt, alloc, &repo, row.lines, out)
    } else {
        tell_from_server(rt, alloc, &repo, row.whose, out)
    }
}

fn main(rt: HostRuntime) -> ExitCode {
    run_rows(&rt, |row, out| tell_row(&rt, row, out))
}
