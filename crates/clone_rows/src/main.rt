//! Creates repositories, prepares clones and clones, in memory and on the host, and writes what stands then.
#![tactic(auto)]

mod building;
mod clone_case;
mod cloning;
mod creating;
mod giving_up;
mod making;
mod refusals;
mod said;
mod served;
mod standing;
mod trying;

use fetch_store::NoMemory;
use rows::{Row, run_rows};
use std::alloc::{Alloc, Global};
use std::fs::Files as HostCalls;
use std::process::ExitCode;
use std::thread::Threads;

/// Puts down what a row tells. Whether it is one.
fn tell_row<T: Threads + Sync + HostCalls + Alloc<A = Global> + Clone + Drop>(
    rt: &T,
    alloc: Global,
    row: &Row<'_>,
    out: &mut Vec<u8>,
) -> Result<bool, NoMemory> {
    if row.whose == b"clone".as_slice() {
        cloning::tell(rt, alloc, row.lines, out)
    } else if row.whose == b"memory".as_slice() {
        making::tell_in_memory(alloc, row.lines, out)
    } else if row.whose == b"host".as_slice() {
        making::tell_on_host(rt, alloc, row.lines, out)
    } else {
        Ok(false)
    }
}

fn main(rt: HostRuntime) -> ExitCode {
    let alloc = rt.alloc();
    run_rows(&rt, |row, out| tell_row(&rt, alloc, row, out))
}
