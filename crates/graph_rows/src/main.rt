//! Asks objects and references as the lines of its input say, and writes the answers.
#![tactic(auto)]

mod asking;
mod calling;
mod dated;
mod editing;
mod judging;
mod lines;
mod negotiating;
mod objects;
mod reaching;
mod references;
mod replies;
mod sessions;
mod taking;
mod walks;
mod words;
mod world;

use asking::tell_line;
use fetch_store::Kind;
use rows::run_lines;
use std::process::ExitCode;
use world::World;

fn main(rt: HostRuntime) -> ExitCode {
    let alloc = rt.alloc();
    let mut world = World::new(alloc, Kind::Sha1);
    run_lines(
        &rt,
        |line, out| tell_line(&rt, alloc, &mut world, line, out),
    )
}
