//! Sessions and readers of a reply, whose refusals stand.

use crate::replies::tell_refusal;
use fetch_store::NoMemory;
use fetch_wire::{ParsedReply, ReplyBound, ReplyError, ReplyKind, ReplyReader, Session, WireError};
use rows::{decoded, say, say_number};
use std::alloc::Global;

/// What a session answers.
fn tell_answer(answer: Result<(), WireError>, out: &mut Vec<u8>) -> Result<(), NoMemory> {
    match answer {
        Ok(()) => tell_refusal(out, &None),
        Err(refusal) => tell_refusal(out, &Some(refusal)),
    }
}

/// Feeds a piece to a session of which all was sent.
fn feed(session: &mut Session, piece: &[u8]) -> Result<(), WireError> {
    let count = session.outgoing().len();
    session.sent(count);
    session.feed(piece)
}

/// `<piece>*`: feeds these pieces, each after all was sent, and then ends the session twice.
pub(crate) fn tell_session(alloc: Global, rest: &[u8], out: &mut Vec<u8>) -> Result<(), NoMemory> {
    let bound = ReplyBound::default();
    let Ok(mut session) = Session::new(alloc, b"/srv/a.git", &[], b"a", &[], bound) else {
        return Err(NoMemory);
    };
    for piece in rest.split(|b| *b == b' ') {
        let piece = decoded(alloc, piece)?;
        tell_answer(feed(&mut session, &piece), out)?;
    }
    tell_answer(session.end(), out)?;
    tell_answer(session.end(), out)
}

/// What a reader of a greeting has found.
fn tell_found(reader: &ReplyReader, out: &mut Vec<u8>) -> Result<(), NoMemory> {
    match (reader.told(), reader.refusal()) {
        (Some(ParsedReply::Greeting(_)), _) => {
            say_number(
                out,
                b"a greeting, and bytes behind it:",
                reader.rest().len(),
            )
        }
        (Some(_), _) => say(out, &[b"another reply"]),
        (None, Some(ReplyError::Broken { place })) => say_number(
            out,
            b"refused: broken at",
            *place,
        ),
        (None, Some(ReplyError::TooLong)) => say(out, &[b"refused: too long"]),
        (None, Some(ReplyError::Said { text })) => say(out, &[b"refused: said", text.as_bytes()]),
        (None, _) => say_number(out, b"awaited, with a line at", reader.place()),
    }
}

/// `<piece>*`: feeds these pieces to a reader of a greeting.
pub(crate) fn tell_greeting(alloc: Global, rest: &[u8], out: &mut Vec<u8>) -> Result<(), NoMemory> {
    let mut reader = ReplyReader::new(alloc, ReplyBound::default(), ReplyKind::Greeting);
    for piece in rest.split(|b| *b == b' ') {
        let piece = decoded(alloc, piece)?;
        if reader.feed(&piece).is_err() {
            return Err(NoMemory);
        }
        tell_found(&reader, out)?;
    }
    Ok(())
}
