//! The lines of a fetch request.

ghost use Rattle.std.specs.Prelude.{◌≡◌, ◌≤◌, ◌<◌, ◌++◌, length, position, IfOk, IfSome, OnOk};
ghost use Rattle.fetch_lines.specs.Requests.{sent, when};
ghost use Rattle.fetch_lines.specs.RequestWords.{have_word, done_word};
ghost use Rattle.fetch_base.specs.Id.{bytes_of};
ghost use Rattle.hex.specs.Hex.{encode_lower};
ghost use Rattle.fetch_lines.specs.RequestLines.{id_lines, is_plain_pack, pack_place, request_lines};

use crate::lines::line::Line;
use crate::requests::records::Request;
use crate::requests::request_parts::{append_texts, joined, text_line};
use fetch_base::{NoMemory, ObjectId, Text};
use std::alloc::Global;

impl Request {
    /// The lines that a request is sent by: a delimiter before the line `plain-pack` or `plain-pack-2`, or after all lines
    /// where neither stands, the haves, `done` where it is set, and a flush.
    #[tactic(auto, unfolding(crate::specs::RequestLines::request_lines))]
    pub fn to_lines(&self, alloc: Global) -> Result<Vec<Line>, NoMemory>
        ensures { IfOk result (λ lines. lines.items ≡ request_lines self.now) }
    {
        let texts = self.lines.as_slice();
        let place = place_of_pack(texts);
        let mut lines = Vec::new(alloc);
        append_texts(alloc, &mut lines, &texts[..place])?;
        lines.push(Line::Delim)?;
        append_texts(alloc, &mut lines, &texts[place..])?;
        let haves = have_texts(alloc, self.haves.as_slice())?;
        append_texts(alloc, &mut lines, &haves)?;
        append_done(alloc, &mut lines, self.done)?;
        lines.push(Line::Flush)?;
        Ok(lines)
    }
}

fn place_of_pack(texts: &[Text]) -> usize
    ensures place { result ≡ pack_place texts.now }
    ensures within { result ≤ length texts.now }
{
    match position_of_pack(texts) {
        Some(place) => place,
        None => texts.len(),
    }
}

fn position_of_pack(texts: &[Text]) -> Option<usize>
    ensures position { result ≡ position is_plain_pack texts.now }
    ensures within { IfSome result (λ place. place < length texts.now) }
{
    texts.iter().position(|text| names_pack(text))
}

#[tactic(auto, unfolding(crate::specs::RequestLines::is_plain_pack, crate::specs::RequestWords::plain_pack, crate::specs::RequestWords::plain_pack_2))]
fn names_pack(text: &Text) -> bool
    ensures { result ≡ is_plain_pack text.now }
{
    let bytes = text.as_bytes();
    bytes == b"plain-pack".as_slice() || bytes == b"plain-pack-2".as_slice()
}

/// A line for each have.
fn have_texts(alloc: Global, haves: &[ObjectId]) -> Result<Vec<Text>, NoMemory>
    ensures { IfOk result (λ texts. texts.items ≡ id_lines have_word haves.now) }
{
    let mut texts = Vec::new(alloc);
    for id in haves {
        texts.push(have_text(alloc, id)?)?;
    }
    Ok(texts)
}

#[tactic(auto, unfolding(crate::specs::RequestWords::have_word))]
fn have_text(alloc: Global, id: &ObjectId) -> Result<Text, NoMemory>
    ensures { IfOk result (λ text. text ≡ have_word ++ encode_lower (bytes_of id.now)) }
{
    let digits = hex::encode(alloc, id.as_bytes())?;
    joined(alloc, b"have ", digits.as_bytes())
}

#[tactic(auto, unfolding(crate::specs::RequestWords::done_word))]
fn append_done(alloc: Global, lines: &mut Vec<Line>, done: bool) -> Result<(), NoMemory>
    ensures { OnOk result (lines.new.items ≡ lines.old.items ++ sent (when done done_word)) }
{
    if done {
        lines.push(text_line(alloc, b"done", b"")?)?;
    }
    Ok(())
}
