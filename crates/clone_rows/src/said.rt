//! Peers that say what a row has.

ghost use Rattle.std.specs.Prelude.{◌≡◌, IfOk, true};
ghost use Rattle.std.specs.List.{list_all};
ghost use Rattle.fetch_remote.specs.Connecting.{is_fresh};

use fetch_remote::ScriptedConnect;
use fetch_store::{NoMemory, Text};
use fetch_wire::ScriptedPeer;
use std::alloc::Global;

/// What a peer says, in pieces, and which of its calls fail, from 0.
#[derive(Drop)]
pub(crate) struct Said {
    pub(crate) pieces: Vec<Text>,
    pub(crate) failing: Vec<u64>,
}

impl Said {
    /// One piece, where nothing fails.
    pub(crate) fn new(alloc: Global, piece: Text) -> Result<Said, NoMemory> {
        let mut pieces = Vec::new(alloc);
        pieces.push(piece)?;
        Ok(Said {
            pieces,
            failing: Vec::new(alloc),
        })
    }
}

/// A peer that says this.
fn peer_of(alloc: Global, said: &Said) -> Result<ScriptedPeer, NoMemory>
    ensures { IfOk result (λ peer. is_fresh peer ≡ true) }
{
    let mut pieces = Vec::new(alloc);
    for piece in &said.pieces {
        pieces.push(piece.try_clone()?)?;
    }
    let failing = Vec::from_slice(alloc, &said.failing)?;
    Ok(ScriptedPeer::new(alloc, pieces, failing))
}

fn peers_of(alloc: Global, said: &[Said]) -> Result<Vec<ScriptedPeer>, NoMemory>
    ensures { IfOk result (λ peers. list_all is_fresh peers.items ≡ true) }
{
    let mut peers = Vec::new(alloc);
    for each in said {
        peers.push(peer_of(alloc, each)?)?;
    }
    Ok(peers)
}

/// A maker of peers that say this, of which the makings with these numbers fail, from 0.
pub(crate) fn maker_of(
    alloc: Global,
    said: &[Said],
    unmade: &[u64],
) -> Result<ScriptedConnect, NoMemory> {
    let failing = Vec::from_slice(alloc, unmade)?;
    let peers = peers_of(alloc, said)?;
    Ok(ScriptedConnect::new(alloc, peers, failing))
}
