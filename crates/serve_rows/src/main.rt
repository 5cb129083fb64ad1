//! Feeds the servers of its input's rows, and writes what they give; and reads, writes and keeps bundles.
#![tactic(auto)]

mod asking;
mod bundle_answers;
mod bundle_questions;
mod bundles;
mod giving;
mod peers;
mod references;
mod refusals;
mod serving;
mod world;

use fetch_store::NoMemory;
use rows::{Row, run_rows};
use std::alloc::Global;
use std::process::ExitCode;
use std::thread::Threads;

/// Puts down what a row tells. Whether it is one.
fn tell_row<R: Threads + Sync>(
    rt: &R,
    alloc: Global,
    row: &Row<'_>,
    out: &mut Vec<u8>,
) -> Result<bool, NoMemory> {
    if row.whose == b"serve".as_slice() {
        return serving::tell(alloc, row.lines, out);
    }
    if row.whose == b"bundle".as_slice() {
        return bundles::tell(rt, alloc, row.lines, out);
    }
    Ok(false)
}

fn main(rt: HostRuntime) -> ExitCode {
    let alloc = rt.alloc();
    run_rows(&rt, |row, out| tell_row(&rt, alloc, row, out))
}
