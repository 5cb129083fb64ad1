//! Fetch requests.

ghost use Rattle.std.specs.Prelude.{◌≡◌, [], ◌∷◌, ◌++◌, IfOk, IfErr, OnOk, map, decimal, if◌then◌else◌};
ghost use Rattle.std.specs.Option.{option_map_or};
ghost use Rattle.fetch_specs.specs.declared.tags.Tags.{Tags};
ghost use Rattle.fetch_lines.specs.declared.error.WireError.TheVariants as errors;
ghost use Rattle.fetch_negotiate.specs.Lists.{firsts};
ghost use Rattle.fetch_negotiate.specs.Requests as spec;
ghost use Rattle.hex.specs.Hex.{encode_lower};
ghost use Rattle.fetch_base.specs.Id.{bytes_of};
ghost use Rattle.fetch_lines.specs.RequestWords.{not_word, deepen_word, relative_word};
ghost use Rattle.fetch_lines.specs.RequestLines.{id_lines};

use crate::algorithm::Shallow;
use crate::once::each_once;
use fetch_lines::{Handshake, Request, WireError, append_head, append_when, joined};
use fetch_specs::{PartialName, Tags};
use fetch_store::{Border, Kind, List, NoMemory, ObjectId, Text};
use std::alloc::Global;

/// The request of one round: what is asked, the haves acknowledged so far in the order in which they first were, and
/// then the window. `git/` is put before an agent that doesn't begin with it. The only error is out of memory.
// Many arguments: the public signature, one for each group of a request's lines.
pub fn request_of(
    alloc: Global,
    handshake: &Handshake,
    agent: &[u8],
    tags: Tags,
    shallow: &Shallow,
    border: &Border,
    wants: &[ObjectId],
    acknowledged: &[ObjectId],
    window: &[ObjectId],
    done: bool,
) -> Result<Request, WireError>
    ensures lines { IfOk result (λ r. r.lines
        ≡ spec.text_lines (record {
          handshake = handshake.now;
          agent = agent.now;
          tags = tags;
          shallow = shallow.now;
          border = border.now;
          wants = wants.now;
        })) }
    ensures haves { IfOk result (λ r. r.haves ≡ firsts acknowledged.now ++ window.now) }
    ensures done { IfOk result (λ r. r.done ≡ done) }
    ensures memory { IfErr result (λ e. e ≡ errors.NoMemory) }
{
    let mut lines = Vec::new(alloc);
    push_head(alloc, &mut lines, handshake, agent)?;
    push_word(alloc, &mut lines, pack_word(handshake))?;
    push_details(alloc, &mut lines, tags, shallow, border, wants)?;
    let mut haves = each_once(alloc, acknowledged)?;
    haves.extend_from_slice(window)?;
    Ok(Request {
        lines: List::from(lines),
        haves: List::from(haves),
        done,
    })
}

#[tactic(auto, unfolding(fetch_lines::specs::RequestWords::command_word))]
fn push_head(
    alloc: Global,
    lines: &mut Vec<Text>,
    handshake: &Handshake,
    agent: &[u8],
) -> Result<(), NoMemory>
    ensures { OnOk result (lines.new.items ≡ lines.old.items ++ spec.head_of handshake.now agent.now) }
{
    push_word(alloc, lines, b"command=fetch")?;
    append_head(alloc, lines, handshake, agent)?;
    Ok(())
}

/// The word that asks for a plain pack, of version 2 where the server offers that.
#[tactic(auto, unfolding(crate::specs::Requests::pack_word, fetch_lines::specs::RequestWords::plain_pack, fetch_lines::specs::RequestWords::plain_pack_2))]
fn pack_word(handshake: &Handshake) -> &'static [u8]
    ensures { result.now ≡ spec.pack_word handshake.now }
{
    if handshake.supports(b"fetch", b"plain-pack-2") {
        b"plain-pack-2"
    } else {
        b"plain-pack"
    }
}

#[tactic(auto, unfolding(fetch_lines::specs::RequestWords::include_tag, fetch_lines::specs::RequestWords::shallow_word, fetch_lines::specs::RequestWords::want_word))]
fn push_details(
    alloc: Global,
    lines: &mut Vec<Text>,
    tags: Tags,
    shallow: &Shallow,
    border: &Border,
    wants: &[ObjectId],
) -> Result<(), NoMemory>
    ensures { OnOk result (lines.new.items ≡ lines.old.items ++ spec.details_of tags shallow.now border.now wants.now) }
{
    append_when(alloc, lines, is_included(tags), b"include-tag", b"")?;
    push_ids(alloc, lines, b"shallow ", border.commits())?;
    push_depth(alloc, lines, shallow)?;
    push_ids(alloc, lines, b"want ", wants)?;
    Ok(())
}

pub(crate) fn is_included(tags: Tags) -> bool
    ensures { result ≡ spec.is_included tags }
{
    match tags {
        Tags::Included => true,
        Tags::All | Tags::None => false,
    }
}

#[tactic(auto, unfolding(fetch_lines::specs::RequestWords::deepen_word, fetch_lines::specs::RequestWords::since_word))]
fn push_depth(alloc: Global, lines: &mut Vec<Text>, shallow: &Shallow) -> Result<(), NoMemory>
    ensures { OnOk result (lines.new.items ≡ lines.old.items ++ spec.depth_lines shallow.now) }
{
    match shallow {
        Shallow::NoChange => Ok(()),
        Shallow::DepthAtRemote(depth) => {
            push_number(alloc, lines, b"deepen ", u64::from(depth.get()))
        }
        Shallow::Deepen(depth) => push_relative(alloc, lines, *depth),
        Shallow::Since { cutoff } => push_number(alloc, lines, b"deepen-since ", *cutoff),
        Shallow::Exclude {
            remote_refs,
            since_cutoff,
        } => {
            push_since(alloc, lines, *since_cutoff)?;
            push_names(alloc, lines, remote_refs.as_slice())
        }
    }
}

#[tactic(auto, unfolding(fetch_lines::specs::RequestWords::deepen_word, fetch_lines::specs::RequestWords::relative_word))]
fn push_relative(alloc: Global, lines: &mut Vec<Text>, depth: u32) -> Result<(), NoMemory>
    ensures { OnOk result (lines.new.items ≡ lines.old.items ++ (deepen_word ++ decimal depth) ∷ relative_word ∷ []) }
{
    push_number(alloc, lines, b"deepen ", u64::from(depth))?;
    push_word(alloc, lines, b"deepen-relative")
}

#[tactic(auto, unfolding(fetch_lines::specs::RequestWords::since_word))]
fn push_since(alloc: Global, lines: &mut Vec<Text>, cutoff: Option<u64>) -> Result<(), NoMemory>
    ensures { OnOk result (lines.new.items ≡ lines.old.items ++ spec.since_lines cutoff) }
{
    match cutoff {
        Some(cutoff) => push_number(alloc, lines, b"deepen-since ", cutoff),
        None => Ok(()),
    }
}

#[tactic(auto, unfolding(fetch_lines::specs::RequestWords::not_word))]
fn push_names(alloc: Global, lines: &mut Vec<Text>, names: &[PartialName]) -> Result<(), NoMemory>
    ensures { OnOk result (lines.new.items ≡ lines.old.items ++ map (λ name. not_word ++ name) names.now) }
{
    for name in names {
        lines.push(joined(alloc, b"deepen-not ", name.as_bytes())?)?;
    }
    Ok(())
}

fn push_number(
    alloc: Global,
    lines: &mut Vec<Text>,
    word: &[u8],
    number: u64,
) -> Result<(), NoMemory>
    ensures { OnOk result (lines.new.items ≡ lines.old.items ++ (word.now ++ decimal number) ∷ []) }
{
    let digits = format!(in alloc; "{number}")?;
    lines.push(joined(alloc, word, digits.as_bytes())?)?;
    Ok(())
}

/// A line for each id.
fn push_ids(
    alloc: Global,
    lines: &mut Vec<Text>,
    word: &[u8],
    ids: &[ObjectId],
) -> Result<(), NoMemory>
    ensures { OnOk result (lines.new.items ≡ lines.old.items ++ id_lines word.now ids.now) }
{
    for id in ids {
        lines.push(id_line(alloc, word, id)?)?;
    }
    Ok(())
}

fn id_line(alloc: Global, word: &[u8], id: &ObjectId) -> Result<Text, NoMemory>
    ensures { IfOk result (λ line. line ≡ word.now ++ encode_lower (bytes_of id.now)) }
{
    let digits = hex::encode(alloc, id.as_bytes())?;
    joined(alloc, word, digits.as_bytes())
}

fn push_word(alloc: Global, lines: &mut Vec<Text>, word: &[u8]) -> Result<(), NoMemory>
    ensures { OnOk result (lines.new.items ≡ lines.old.items ++ word.now ∷ []) }
{
    lines.push(Text::new(alloc, word)?)?;
    Ok(())
}
