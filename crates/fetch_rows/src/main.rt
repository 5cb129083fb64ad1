//! Fetches or checks what scenes of its input say, runs the program over them, generates scenes, and asks repositories of
//! their remotes and branches, and writes what came of it.
#![tactic(auto)]

mod benches;
mod faults;
mod remotes;
mod scenes;

use fetch_store::NoMemory;
use rows::{Row, run_rows};
use std::alloc::Global;
use std::process::ExitCode;
use std::thread::Threads;

/// Puts down what a row tells. Whether it is one.
fn tell_row(
    rt: &(impl Threads + Sync),
    alloc: Global,
    row: &Row<'_>,
    out: &mut Vec<u8>,
) -> Result<bool, NoMemory> {
    if row.whose == b"fetch".as_slice() || row.whose == b"check".as_slice() {
        scenes::tell_scene(rt, alloc, row, out)
    } else if row.whose == b"words".as_slice() {
        scenes::tell_words(rt, alloc, row.about, out)
    } else if row.whose == b"generate".as_slice() {
        benches::tell_text(row.about, out)
    } else if row.whose == b"fault".as_slice() {
        faults::tell_faults(rt, alloc, row, out)
    } else if row.whose == b"remote".as_slice() {
        remotes::tell(alloc, row.lines, out)
    } else {
        Ok(false)
    }
}

fn main(rt: HostRuntime) -> ExitCode {
    let alloc = rt.alloc();
    run_rows(&rt, |row, out| tell_row(&rt, alloc, row, out))
}
