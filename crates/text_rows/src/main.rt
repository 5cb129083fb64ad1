//! Reads texts as the lines of its input ask, and writes what they say.
#![tactic(auto)]

mod asking;
mod configurations;
mod copies;
mod files;
mod kinds;
mod names;
mod objects;
mod orders;
mod packs;
mod pieces;
mod refspecs;
mod remotes;

use asking::{Desk, tell_line};
use fetch_store::NoMemory;
use rows::run_lines;
use std::process::ExitCode;

fn main(rt: HostRuntime) -> ExitCode {
    let alloc = rt.alloc();
    match Desk::new(alloc) {
        Ok(mut desk) => run_lines(&rt, |line, out| tell_line(&rt, alloc, &mut desk, line, out)),
        Err(NoMemory) => ExitCode::from(5),
    }
}
