//! The scene of a bench, as a text. Each call puts a part of it after what is there; after an error some of it may stand there.

ghost use Rattle.std.specs.Prelude.{◌≡◌, ◌<◌, ◌≤◌, ◌∷◌, ◌++◌, [], map, OnErr, OnOk, option_map, option_to_list};
ghost use Rattle.fetch_pack.specs.Records.{Fits, payloads_of};
ghost use Rattle.fetch_pack.specs.Texts.{Keeps};
ghost use Rattle.fetch_pack.specs.declared.version.PackVersion.TheVariants.{V1};
ghost use Rattle.fetch_lines.specs.Requests.{sent};
ghost use Rattle.fetch_lines.specs.Written.{lines_text};
ghost use Rattle.fetch_lines.specs.declared.lines.line.Line.TheVariants as lines;
ghost use Rattle.fetch_bench_scene.specs.BenchText as spec;

use crate::bench::MAX_BENCH;
use fetch_bench::Generated;
use fetch_pack::{PackVersion, write_pack_of};
use fetch_store::{Kind, List, NoMemory, Object, ObjectId, Text, append_hex};
use fetch_wire::{LineRef, WireError, write_line};

/// How many bytes of the pack a payload has.
const PIECE: usize = 65_000;

fn write_head(out: &mut Vec<u8>) -> Result<(), WireError>
    ensures text { OnOk result (out.new.items ≡ out.old.items ++ lines_text (sent spec.head_texts)) }
    ensures err { OnErr result (Keeps out.old.items out.new.items) }
{
    write_line(out, LineRef::Payload(b"scene 1\n"))?;
    write_line(out, LineRef::Payload(b"hash sha1\n"))?;
    write_line(out, LineRef::Payload(b"git-dir /b/.git\n"))?;
    write_line(out, LineRef::Payload(b"workdir /b\n"))?;
    Ok(())
}

fn write_reference(out: &mut Vec<u8>, id: &ObjectId) -> Result<(), WireError>
    ensures text { OnOk result (out.new.items ≡ out.old.items ++ lines_text (sent (spec.tracking_text id.now ∷ []))) }
    ensures err { OnErr result (Keeps out.old.items out.new.items) }
{
    let mut text = Vec::from_slice(*out.allocator(), b"ref ")?;
    append_hex(&mut text, id)?;
    text.extend_from_slice(b" refs/remotes/origin/main\n")?;
    write_line(out, LineRef::Payload(&text))?;
    Ok(())
}

/// The reference that an earlier fetch left, where there was one.
fn write_tracking(out: &mut Vec<u8>, tip: Option<ObjectId>) -> Result<(), WireError>
    ensures text { OnOk result (out.new.items ≡ out.old.items ++ lines_text (sent (option_to_list (option_map spec.tracking_text tip)))) }
    ensures err { OnErr result (Keeps out.old.items out.new.items) }
{
    match tip {
        Some(id) => write_reference(out, &id),
        None => Ok(()),
    }
}

fn write_config(out: &mut Vec<u8>) -> Result<(), WireError>
    ensures text { OnOk result (out.new.items ≡ out.old.items ++ lines_text (sent spec.config_texts)) }
    ensures err { OnErr result (Keeps out.old.items out.new.items) }
{
    write_line(out, LineRef::Payload(b"config [fetch]\n"))?;
    write_line(
        out,
        LineRef::Payload(b"config negotiationAlgorithm = noop\n"),
    )?;
    Ok(())
}

fn write_local(out: &mut Vec<u8>, tip: Option<ObjectId>) -> Result<(), WireError>
    ensures text { OnOk result (out.new.items ≡ out.old.items ++ lines_text (spec.local_lines tip)) }
    ensures err { OnErr result (Keeps out.old.items out.new.items) }
{
    write_head(out)?;
    write_tracking(out, tip)?;
    write_config(out)?;
    Ok(())
}

/// Bytes in payloads.
fn write_pieces(out: &mut Vec<u8>, bytes: &[u8]) -> Result<(), WireError>
    ensures text { OnOk result (out.new.items ≡ out.old.items ++ lines_text (spec.piece_lines bytes.now)) }
    ensures err { OnErr result (Keeps out.old.items out.new.items) }
{
    let mut rest = bytes;
    'pieces: while rest.len() > 0 {
        let (piece, behind) = rest.split_at(rest.len().min(PIECE));
        write_line(out, LineRef::Payload(piece))?;
        rest = behind;
    }
    Ok(())
}

/// The pack of the objects.
fn write_objects(out: &mut Vec<u8>, objects: List<(ObjectId, Object)>) -> Result<(), WireError>
    requires { Fits V1 (payloads_of (map (λ e. e.1) objects)) }
    ensures text { OnOk result (out.new.items ≡ out.old.items ++ lines_text (spec.piece_lines (spec.pack_of objects))) }
    ensures err { OnErr result (Keeps out.old.items out.new.items) }
{
    let alloc = *out.allocator();
    let objects: Vec<Object> = objects
        .into_vec()
        .into_iter()
        .map(|(_, object)| object)
        .collect(alloc)?;
    let mut pack = Vec::new(alloc);
    match write_pack_of(alloc, PackVersion::V1, Kind::Sha1, &objects, &mut pack) {
        Ok(_) => write_pieces(out, &pack),
        Err(_) => Err(WireError::NoMemory),
    }
}

fn write_remote(out: &mut Vec<u8>) -> Result<(), WireError>
    ensures text { OnOk result (out.new.items ≡ out.old.items ++ lines_text (sent spec.remote_texts)) }
    ensures err { OnErr result (Keeps out.old.items out.new.items) }
{
    write_line(out, LineRef::Payload(b"remote /b/s.git\n"))?;
    write_line(
        out,
        LineRef::Payload(b"fetch +refs/heads/*:refs/remotes/origin/*\n"),
    )?;
    write_line(out, LineRef::Payload(b"tags none\n"))
}

/// What the server says.
fn write_payloads(out: &mut Vec<u8>, pieces: &[Text]) -> Result<(), WireError>
    ensures text { OnOk result (out.new.items ≡ out.old.items ++ lines_text (map lines.Payload pieces.now)) }
    ensures err { OnErr result (Keeps out.old.items out.new.items) }
{
    for piece in pieces {
        write_line(out, LineRef::Payload(piece.as_bytes()))?;
    }
    Ok(())
}

fn write_scene(out: &mut Vec<u8>, generated: Generated) -> Result<(), WireError>
    requires { Fits V1 (payloads_of (map (λ e. e.1) generated.objects)) }
    ensures text { OnOk result (out.new.items ≡ out.old.items ++ lines_text (spec.scene_lines generated)) }
    ensures err { OnErr result (Keeps out.old.items out.new.items) }
{
    let Generated {
        objects,
        tip,
        pieces,
    } = generated;
    write_local(out, tip)?;
    write_line(out, LineRef::Delim)?;
    write_objects(out, objects)?;
    write_line(out, LineRef::Delim)?;
    write_remote(out)?;
    write_line(out, LineRef::Delim)?;
    write_payloads(out, pieces.as_slice())?;
    write_line(out, LineRef::Flush)?;
    Ok(())
}

/// Puts the text of the scene that `bench` fetches after what is there, of a line of `number` commits, from 1 to 100,000. After
/// an error what was there stands at the front, and a part of the text may follow it.
#[tactic(auto, unfolding(crate::specs::BenchText::bench_text))]
pub fn generate(number: u32, out: &mut Vec<u8>) -> Result<(), NoMemory>
    requires some { 0 < number }
    requires few { number ≤ MAX_BENCH }
    ensures text { OnOk result (out.new.items ≡ out.old.items ++ spec.bench_text number) }
    ensures err { OnErr result (Keeps out.old.items out.new.items) }
{
    let generated = fetch_bench::generate(*out.allocator(), number as usize)?;
    match write_scene(out, generated) {
        Ok(()) => Ok(()),
        Err(_) => Err(NoMemory),
    }
}
