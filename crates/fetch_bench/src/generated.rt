//! A fetch of the second half of a line.

ghost use Rattle.std.specs.Prelude.{◌≡◌, ◌<◌, ◌≤◌, ◌/◌, map, IfOk};
ghost use Rattle.fetch_store.specs.Stores.{AreOf};
ghost use Rattle.fetch_base.specs.declared.id.Kind.TheVariants.{Sha1};
ghost use Rattle.fetch_pack.specs.Records.{Fits, pack_text, payloads_of};
ghost use Rattle.fetch_pack.specs.declared.version.PackVersion.TheVariants.{V1};
ghost use Rattle.fetch_bench.specs.Commits as commits;
ghost use Rattle.fetch_bench.specs.Generated as spec;

use crate::commits::{empty_line, push_commits};
use crate::served::stream_of;
use fetch_lines::in_pieces;
use fetch_pack::{PackVersion, write_pack_of};
use fetch_store::{Kind, List, NoMemory, Object, ObjectId, Text};
use std::alloc::Global;

/// How many bytes of what the server says come at once.
const PIECE: usize = 65_000;

/// What a client has, and what a server says to it.
// Not copied: it is made anew from its number.
#[derive(Debug, Drop)]
pub struct Generated {
    /// The empty tree and the first half of the line, each under its id.
    pub objects: List<(ObjectId, Object)>,
    /// The last commit of that half, where it has one.
    pub tip: Option<ObjectId>,
    /// What the server says, piece by piece.
    pub pieces: List<Text>,
}

fn without_ids(alloc: Global, entries: Vec<(ObjectId, Object)>) -> Result<Vec<Object>, NoMemory>
    ensures { IfOk result (λ objects. objects.items ≡ map (λ e. e.1) entries.items) }
{
    let mut objects = Vec::with_capacity(alloc, entries.len())?;
    for (_, object) in entries {
        objects.push(object)?;
    }
    Ok(objects)
}

/// The pack of these objects. Memory alone may refuse it.
fn pack_of(alloc: Global, entries: Vec<(ObjectId, Object)>) -> Result<Vec<u8>, NoMemory>
    requires { Fits V1 (payloads_of (map (λ e. e.1) entries.items)) }
    ensures { IfOk result (λ pack. pack.items ≡ pack_text V1 Sha1 (payloads_of (map (λ e. e.1) entries.items))) }
{
    let objects = without_ids(alloc, entries)?;
    let mut pack = Vec::new(alloc);
    match write_pack_of(alloc, PackVersion::V1, Kind::Sha1, &objects, &mut pack) {
        Ok(_) => Ok(pack),
        Err(_) => Err(NoMemory),
    }
}

/// All that the server of a line of `count` commits says. `tip` is the last commit of the first half.
fn server_stream(alloc: Global, count: usize, tip: Option<ObjectId>) -> Result<Vec<u8>, NoMemory>
    requires few { count ≤ 100000 }
    requires tip { tip ≡ commits.tip (count / 2) }
    ensures { IfOk result (λ stream. stream.items ≡ spec.server_stream count) }
{
    let half = count / 2;
    let more = (count + 1) / 2 - half;
    let mut rest = Vec::new(alloc);
    let old = push_commits(alloc, &mut rest, half, more, tip)?;
    let main = push_commits(alloc, &mut rest, half + more, count - half - more, old)?;
    let pack = pack_of(alloc, rest)?;
    stream_of(alloc, main, old, pack)
}

/// A fetch of the second half of a line of `count` commits, from 1 to 100,000. They stand over the empty tree, one after
/// the other; the client has the first half, rounded down, and the server has the whole line at `refs/heads/main`, and
/// its first half, rounded up, at `refs/heads/old`. What the server says is the greeting, the listing, and the reply with
/// the rest of the line as a pack, in pieces of 65,000 bytes, the last of which may be shorter.
#[tactic(auto, unfolding(crate::specs::Generated::generated))]
pub fn generate(alloc: Global, count: usize) -> Result<Generated, NoMemory>
    requires some { 0 < count }
    requires few { count ≤ 100000 }
    ensures exact { IfOk result (λ g. g ≡ spec.generated count) }
    ensures of_hash { IfOk result (λ g. AreOf Sha1 g.objects) }
{
    let half = count / 2;
    let mut objects = empty_line(alloc)?;
    let tip = push_commits(alloc, &mut objects, 0, half, None)?;
    let stream = server_stream(alloc, count, tip)?;
    let pieces = in_pieces(alloc, PIECE, &stream)?;
    Ok(Generated {
        objects: List::from(objects),
        tip,
        pieces: List::from(pieces),
    })
}
