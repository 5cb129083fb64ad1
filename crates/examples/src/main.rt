//! The examples of docs/USING.md. Each is a function in a file of its own, and does what that page shows.
#![tactic(auto)]

mod bundles;
mod clone_revision;
mod deletion;
mod failing;
mod first_fetch;
mod live_peer;
mod mirror;
mod own_server;
mod prune;
mod serving;
mod setting;
mod slices;
mod stop;
mod telling;
mod testing;
mod two_fetches;

use anyhow::Result;
use std::alloc::Global;
use std::sync::Wait;
use std::thread::Threads;

/// Fetches.
fn tell_fetches<R: Threads + Wait + Sync + Print>(rt: &R, alloc: Global) -> Result<()> {
    println!(rt; "= the first fetch")?;
    first_fetch::run(rt, alloc)?;
    println!(rt; "= a live peer")?;
    live_peer::run(rt, alloc)?;
    println!(rt; "= a stop")?;
    stop::run(rt, alloc)?;
    println!(rt; "= a clone at a tag")?;
    clone_revision::run(rt, alloc, b"refs/tags/v1")?;
    println!(rt; "= a clone at a commit")?;
    clone_revision::run(rt, alloc, serving::SECOND_ID)?;
    println!(rt; "= two fetches at once")?;
    two_fetches::run(rt, alloc)
}

/// What goes on around them.
fn tell_services<R: Threads + Sync + Print>(rt: &R, alloc: Global) -> Result<()> {
    println!(rt; "= a deletion")?;
    deletion::run(rt, alloc)?;
    println!(rt; "= pruning")?;
    prune::run(rt, alloc)?;
    println!(rt; "= a bundle")?;
    bundles::run(rt, alloc)?;
    println!(rt; "= a server of your own")?;
    own_server::run(rt, alloc)?;
    println!(rt; "= a mirror")?;
    mirror::run(rt, alloc)?;
    println!(rt; "= in slices")?;
    slices::run(rt, alloc)
}

fn main(rt: HostRuntime) -> Result<()> {
    tell_fetches(&rt, rt.alloc())?;
    tell_services(&rt, rt.alloc())?;
    println!(rt; "= what to do about an error")?;
    failing::run(&rt, rt.alloc())?;
    println!(rt; "= a test")?;
    testing::run(&rt, rt.alloc())
}
