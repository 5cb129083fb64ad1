//! The lines of a row, and which question each asks.

use crate::editing::edit_of;
use crate::words::{id_of, ids_of};
use crate::world::World;
use crate::{
    calling, dated, judging, lines, negotiating, objects, reaching, references, replies, sessions,
    taking, walks,
};
use fetch_store::{Kind, NoMemory, ObjectId, ObjectKind, Store};
use rows::{Question, say, split_word};
use std::alloc::Global;
use std::thread::Threads;

/// Asks of one id. Whether one of these questions is asked.
fn ask_of_id(
    alloc: Global,
    world: &World,
    what: &[u8],
    id: ObjectId,
    out: &mut Vec<u8>,
) -> Result<bool, NoMemory> {
    if what == b"of".as_slice() {
        reaching::tell_graph(alloc, &world.store, &id, out)?;
    } else if what == b"look-up".as_slice() {
        reaching::tell_found(&world.store, &id, out)?;
    } else if what == b"reached".as_slice() {
        reaching::tell_reached(alloc, world, id, out)?;
    } else if what == b"tags".as_slice() {
        references::tell_tags(&world.store, id, out)?;
    } else {
        return Ok(false);
    }
    Ok(true)
}

/// `<id> <id>`: asks for a dated path. Whether the words are these.
fn ask_path(
    alloc: Global,
    store: &Store,
    rest: &[u8],
    out: &mut Vec<u8>,
) -> Result<bool, NoMemory> {
    let (from, to) = split_word(rest);
    let (Some(from), Some(to)) = (id_of(from), id_of(to)) else {
        return Ok(false);
    };
    dated::tell(alloc, store, &from, &to, out)?;
    Ok(true)
}

/// Asks of the objects. Whether one of these questions is asked.
fn ask_of_objects(
    rt: &(impl Threads + Sync),
    alloc: Global,
    world: &World,
    question: Question<'_>,
    out: &mut Vec<u8>,
) -> Result<bool, NoMemory> {
    let Question { what, rest } = question;
    if what == b"path".as_slice() {
        return ask_path(alloc, &world.store, rest, out);
    } else if what == b"reads".as_slice() {
        return dated::tell_reads(alloc, &world.store, rest, out);
    } else if what == b"take".as_slice() {
        return taking::tell_take(rt, alloc, world, rest, out);
    } else if what == b"added".as_slice() {
        return taking::tell_added(rt, alloc, &world.store, rest, out);
    } else if what == b"store".as_slice() {
        reaching::tell_store(&world.store, out)?;
    } else if what == b"closed".as_slice() {
        taking::tell_closed(alloc, world, out)?;
    } else if what == b"border".as_slice() {
        taking::tell_merged(alloc, world, rest, out)?;
    } else if what == b"ascending".as_slice() {
        taking::tell_ascending(alloc, rest, out)?;
    } else {
        return Ok(false);
    }
    Ok(true)
}

/// Asks what is told, or what mappings are told. Whether one of these questions is asked.
fn ask_of_fetch(
    alloc: Global,
    world: &World,
    question: Question<'_>,
    out: &mut Vec<u8>,
) -> Result<bool, NoMemory> {
    if question.what == b"told".as_slice() {
        return negotiating::tell_haves(alloc, world, question.rest, out);
    } else if question.what == b"update".as_slice() {
        return judging::tell_updates(alloc, world, question.rest, out);
    } else if question.what == b"tips".as_slice() {
        references::tell_tips(alloc, world, out)?;
    } else {
        return Ok(false);
    }
    Ok(true)
}

/// Changes the references, or tells them. Whether one of these is asked for.
fn ask_of_references(
    alloc: Global,
    world: &mut World,
    question: Question<'_>,
    out: &mut Vec<u8>,
) -> Result<bool, NoMemory> {
    let Question { what, rest } = question;
    if what == b"make".as_slice() {
        references::make_edits(alloc, world, rest, out)?;
    } else if what == b"refs".as_slice() {
        references::tell_all(&world.refs, out)?;
    } else if what == b"packed".as_slice() {
        references::tell_packed(&world.refs, out)?;
    } else if what == b"compact".as_slice() {
        references::compact(&mut world.refs, out)?;
    } else if what == b"read-packed".as_slice() {
        references::read_packed(alloc, world, rest, out)?;
    } else {
        return references::ask_of_name(alloc, world, question, out);
    }
    Ok(true)
}

/// Asks of what is read or walked over, without objects and references. Whether one of these questions is asked.
fn ask_of_lines(
    alloc: Global,
    question: Question<'_>,
    out: &mut Vec<u8>,
) -> Result<bool, NoMemory> {
    let Question { what, rest } = question;
    if what == b"walk".as_slice() {
        return walks::tell(alloc, rest, out);
    } else if what == b"long-line".as_slice() {
        return lines::tell_long(alloc, rest, out);
    } else if what == b"interrupt".as_slice() {
        return lines::tell_interrupt(alloc, rest, out);
    } else if what == b"bounded".as_slice() {
        return replies::tell_bounded(alloc, rest, out);
    } else if what == b"lines".as_slice() {
        lines::tell_written(alloc, rest, out)?;
    } else if what == b"cut".as_slice() {
        replies::tell_cut(alloc, rest, out)?;
    } else if what == b"bytes".as_slice() {
        replies::tell_bytes(alloc, rest, out)?;
    } else if what == b"session".as_slice() {
        sessions::tell_session(alloc, rest, out)?;
    } else if what == b"greeting".as_slice() {
        sessions::tell_greeting(alloc, rest, out)?;
    } else {
        return Ok(false);
    }
    Ok(true)
}

/// Tells what is asked. Whether something is.
fn ask(
    rt: &(impl Threads + Sync),
    alloc: Global,
    world: &mut World,
    question: Question<'_>,
    out: &mut Vec<u8>,
) -> Result<bool, NoMemory> {
    if ask_of_lines(alloc, question, out)? {
        return Ok(true);
    }
    if calling::ask(alloc, world, question.what, out)? {
        return Ok(true);
    }
    if ask_of_objects(rt, alloc, world, question, out)? {
        return Ok(true);
    }
    if ask_of_fetch(alloc, world, question, out)? {
        return Ok(true);
    }
    if let Some(id) = id_of(question.rest) {
        return ask_of_id(alloc, world, question.what, id, out);
    }
    ask_of_references(alloc, world, question, out)
}

/// Adds what a line puts down. Whether it puts something down.
fn put(
    rt: &(impl Threads + Sync),
    alloc: Global,
    world: &mut World,
    word: &[u8],
    rest: &[u8],
    out: &mut Vec<u8>,
) -> Result<bool, NoMemory> {
    if word == b"add".as_slice() {
        return objects::add_pack(rt, alloc, &mut world.store, rest, out);
    } else if word == b"commit".as_slice() {
        return objects::add(alloc, &mut world.store, ObjectKind::Commit, rest, out);
    } else if word == b"tag".as_slice() {
        return objects::add(alloc, &mut world.store, ObjectKind::Tag, rest, out);
    } else if word == b"worktree".as_slice() {
        return judging::check_out(alloc, &mut world.worktrees, rest);
    } else if word == b"border".as_slice() {
        world.border = ids_of(alloc, rest)?;
        return Ok(true);
    }
    match edit_of(alloc, word, rest)? {
        Some(edit) => world.edits.push(edit)?,
        None => return Ok(false),
    }
    Ok(true)
}

/// Begins a row with nothing, for ids of SHA-1 (`=`) or of SHA-256 (`==`), or tells what a line asks for, or adds what it
/// puts down. Whether it is such a line.
pub(crate) fn tell_line(
    rt: &(impl Threads + Sync),
    alloc: Global,
    world: &mut World,
    line: &[u8],
    out: &mut Vec<u8>,
) -> Result<bool, NoMemory> {
    let (word, rest) = split_word(line);
    if word == b"?".as_slice() {
        say(out, &[line])?;
        return ask(rt, alloc, world, Question::of(rest), out);
    }
    if word == b"=".as_slice() || word == b"==".as_slice() {
        let hash = if word.len() == 1 {
            Kind::Sha1
        } else {
            Kind::Sha256
        };
        *world = World::new(alloc, hash);
        say(out, &[line])?;
        return Ok(true);
    }
    put(rt, alloc, world, word, rest, out)
}
