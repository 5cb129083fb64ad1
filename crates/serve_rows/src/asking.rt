//! The questions of a row.

use crate::giving::{say_given, take_all, word_of};
use crate::{peers, refusals};
use fetch_serve::{Server, ServerPeer};
use fetch_store::{NoMemory, append_number, decimal};
use rows::{Question, decoded, say};
use std::alloc::Global;

/// A server, and one of the same repository as a peer.
#[derive(Drop)]
pub(crate) struct Ends<'a> {
    server: Server<'a>,
    peer: ServerPeer<'a>,
}

impl<'a> Ends<'a> {
    /// A server, and a peer that heard nothing.
    pub(crate) fn of(server: Server<'a>) -> Ends<'a> {
        let peer = ServerPeer::new(server.fresh());
        Ends { server, peer }
    }
}

/// The refusal, where there is one, and whose turn it is.
fn feed(server: &mut Server<'_>, bytes: &[u8], out: &mut Vec<u8>) -> Result<(), NoMemory> {
    match server.feed(bytes) {
        Ok(()) => {}
        Err(e) => refusals::tell(out, &e)?,
    }
    say(out, &[b"turn", word_of(server.poll())])
}

/// Sends so many of the outgoing bytes, and tells them.
fn give(server: &mut Server<'_>, count: u64, out: &mut Vec<u8>) -> Result<(), NoMemory> {
    let bytes = server.outgoing();
    let count = (count as usize).min(bytes.len());
    say_given(out, &bytes[..count])?;
    server.sent(count);
    Ok(())
}

/// Feeds a fresh server byte by byte, and tells all that it gives and whose turn it is then.
fn feed_each(
    alloc: Global,
    server: &Server<'_>,
    bytes: &[u8],
    out: &mut Vec<u8>,
) -> Result<(), NoMemory> {
    let mut fresh = server.fresh();
    let mut given = Vec::new(alloc);
    for byte in bytes {
        match fresh.feed([*byte].as_slice()) {
            Ok(()) => {}
            Err(e) => return refusals::tell(out, &e),
        }
        take_all(&mut fresh, &mut given)?;
    }
    say_given(out, given.as_slice())?;
    say(out, &[b"turn", word_of(fresh.poll())])
}

/// What a fresh server gives for a text in two pieces, and the word for its turn between them.
fn given_at(
    alloc: Global,
    server: &Server<'_>,
    bytes: &[u8],
    place: usize,
) -> Result<(&'static [u8], Vec<u8>), NoMemory> {
    let (first, second) = bytes.split_at(place.min(bytes.len()));
    let mut fresh = server.fresh();
    let mut given = Vec::new(alloc);
    let _ = fresh.feed(first);
    let turn = word_of(fresh.poll());
    take_all(&mut fresh, &mut given)?;
    let _ = fresh.feed(second);
    take_all(&mut fresh, &mut given)?;
    Ok((turn, given))
}

/// A line of how many cuts one after another have this turn between the pieces.
fn say_turns(out: &mut Vec<u8>, count: usize, turn: &[u8]) -> Result<(), NoMemory> {
    if count == 0 {
        return Ok(());
    }
    append_number(out, count)?;
    say(out, &[b" turn".as_slice(), turn])
}

/// Feeds a fresh server with a text in two pieces, cut at each place, and tells whose turn it is between them, and all that
/// is given, where that is the same for all cuts.
fn feed_cut(
    alloc: Global,
    server: &Server<'_>,
    bytes: &[u8],
    out: &mut Vec<u8>,
) -> Result<(), NoMemory> {
    let (mut last, whole) = given_at(alloc, server, bytes, 0)?;
    let mut count = 0usize;
    for place in 0..bytes.len() + 1 {
        let (turn, given) = given_at(alloc, server, bytes, place)?;
        if given.as_slice() != whole.as_slice() {
            return say(out, &[b"other"]);
        }
        if turn != last {
            say_turns(out, count, last)?;
            last = turn;
            count = 0;
        }
        count = count.saturating_add(1);
    }
    say_turns(out, count, last)?;
    say_given(out, whole.as_slice())
}

/// Asks by a text. Whether one of these questions is asked.
fn ask_by_text(
    alloc: Global,
    ends: &mut Ends<'_>,
    question: Question<'_>,
    out: &mut Vec<u8>,
) -> Result<bool, NoMemory> {
    let Question { what, rest } = question;
    let bytes = decoded(alloc, rest)?;
    if what == b"feed".as_slice() {
        feed(&mut ends.server, bytes.as_slice(), out)?;
    } else if what == b"bytes".as_slice() {
        feed_each(alloc, &ends.server, bytes.as_slice(), out)?;
    } else if what == b"cuts".as_slice() {
        feed_cut(alloc, &ends.server, bytes.as_slice(), out)?;
    } else if what == b"send".as_slice() {
        peers::send(&mut ends.peer, bytes.as_slice(), out)?;
    } else {
        return Ok(false);
    }
    Ok(true)
}

/// Asks for so many bytes. Whether one of these questions is asked.
fn ask_by_count(
    alloc: Global,
    ends: &mut Ends<'_>,
    question: Question<'_>,
    out: &mut Vec<u8>,
) -> Result<bool, NoMemory> {
    let what = question.what;
    let Some(count) = decimal(question.rest) else {
        return Ok(false);
    };
    if what == b"give".as_slice() {
        give(&mut ends.server, count, out)?;
        return Ok(true);
    }
    if what == b"receive".as_slice() {
        return peers::receive(alloc, &mut ends.peer, count, out);
    }
    Ok(false)
}

/// Puts an equal server in place of the server, or a fresh one with a fresh peer. Whether this is asked for.
fn replace(ends: &mut Ends<'_>, question: &[u8]) -> Result<bool, NoMemory> {
    if question == b"copy".as_slice() {
        ends.server = ends.server.try_clone()?;
        Ok(true)
    } else if question == b"fresh".as_slice() {
        *ends = Ends::of(ends.server.fresh());
        Ok(true)
    } else {
        Ok(false)
    }
}

/// Tells what is asked. Whether something is.
pub(crate) fn ask(
    alloc: Global,
    ends: &mut Ends<'_>,
    question: &[u8],
    out: &mut Vec<u8>,
) -> Result<bool, NoMemory> {
    if replace(ends, question)? {
        return Ok(true);
    }
    let question = Question::of(question);
    if ask_by_count(alloc, ends, question, out)? {
        return Ok(true);
    }
    ask_by_text(alloc, ends, question, out)
}
