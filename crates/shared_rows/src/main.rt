//! Makes the events of each row of its input over a shared repository, hands out its passes, or races its jobs, and writes what
//! came of it.
#![tactic(auto)]

mod answers;
mod events;
mod gated;
mod journals;
mod opening;
mod passes;
mod racing;
mod refusals;
mod replays;
mod running;
mod sharing;
mod thread_safe;

use fetch_store::{NoMemory, after};
use rows::{Row, run_rows};
use std::process::ExitCode;
use std::sync::Wait;
use std::thread::Threads;

/// Puts down what a row tells. Whether it is one.
fn tell_row(
    rt: &(impl Threads + Wait + Sync),
    row: &Row<'_>,
    out: &mut Vec<u8>,
) -> Result<bool, NoMemory> {
    if row.whose == b"race".as_slice() {
        racing::tell(rt, row.scene, out)?;
        return Ok(true);
    }
    if row.whose == b"both".as_slice() {
        racing::tell_both(rt, row.scene, out)?;
        return Ok(true);
    }
    match after(b"passes ", row.lines) {
        Some(line) => passes::tell(rt, row.scene, line, out),
        None => sharing::tell(rt, row, out),
    }
}

fn main(rt: HostRuntime) -> ExitCode {
    thread_safe::shared_types_cross_threads();
    run_rows(&rt, |row, out| tell_row(&rt, row, out))
}
