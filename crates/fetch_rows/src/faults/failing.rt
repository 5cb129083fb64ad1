//! The calls that fail.

use super::reading::{Fault, Kind};
use fetch_store::NoMemory;
use fetch_update::WorktreeFault;
use std::alloc::Global;

/// The calls that fail, of each that a fetch calls.
#[derive(Drop)]
pub(crate) struct Failing {
    /// Sends and receives of the peer.
    pub(crate) peer: Vec<u64>,
    /// Questions that the interrupt answers yes.
    pub(crate) interrupt: Vec<u64>,
    /// Calls on the files.
    pub(crate) files: Vec<u64>,
    /// Listings of the work trees, and how they fail.
    pub(crate) listings: Vec<(u64, WorktreeFault)>,
}

/// The failing call alone where it is of this kind, or none.
fn calls_of(alloc: Global, kind: Kind, fault: &Fault) -> Result<Vec<u64>, NoMemory> {
    let mut calls = Vec::new(alloc);
    if fault.kind == kind {
        calls.push(fault.number)?;
    }
    Ok(calls)
}

/// How a listing of the work trees fails.
fn listing_fault(kind: Kind) -> Option<WorktreeFault> {
    match kind {
        Kind::Listing => Some(WorktreeFault::Listing),
        Kind::OpenRepo => Some(WorktreeFault::OpenRepo),
        Kind::FollowSymref => Some(WorktreeFault::FollowSymref),
        _ => None,
    }
}

/// The listing alone that fails, or none.
fn listings_of(alloc: Global, fault: &Fault) -> Result<Vec<(u64, WorktreeFault)>, NoMemory> {
    let mut listings = Vec::new(alloc);
    if let Some(how) = listing_fault(fault.kind) {
        listings.push((fault.number, how))?;
    }
    Ok(listings)
}

/// What fails, as the call of its object.
pub(crate) fn failing_of(alloc: Global, fault: &Fault) -> Result<Failing, NoMemory> {
    Ok(Failing {
        peer: calls_of(alloc, Kind::Peer, fault)?,
        interrupt: calls_of(alloc, Kind::Interrupt, fault)?,
        files: calls_of(alloc, Kind::Files, fault)?,
        listings: listings_of(alloc, fault)?,
    })
}
