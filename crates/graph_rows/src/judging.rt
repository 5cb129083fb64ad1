//! What mappings are told.

use crate::words::id_of;
use crate::world::World;
use fetch_refs::Change;
use fetch_specs::{Operation, RefSpec, SpecError, Tags, parse};
use fetch_store::{NoMemory, Text, decimal, split_first};
use fetch_update::laws::update;
use fetch_update::update::{Error, Outcome, Update};
use fetch_update::{Mode, RefLogMessage, TypeChange, Worktree};
use fetch_wire::{Mapping, Ref, Source, SpecIndex};
use rows::{decoded, name_of, say, say_number, say_printed, split_word};
use std::alloc::Global;

/// The mark that Git prints for what a mapping is told.
fn mark(mode: &Mode) -> &'static [u8] {
    match mode {
        Mode::New => b"*",
        Mode::NoChangeNeeded => b"=",
        Mode::FastForward => b"-",
        Mode::Forced => b"+",
        _ => b"!",
    }
}

fn tell_update(out: &mut Vec<u8>, update: &Update) -> Result<(), NoMemory> {
    say_number(out, b"mapping", update.mapping_index)?;
    say_printed(out, mark(&update.mode), &update.mode)?;
    match update.type_change {
        Some(TypeChange::SymbolicToDirect) => say(out, &[b"symbolic to direct"]),
        Some(TypeChange::DirectToSymbolic) => say(out, &[b"direct to symbolic"]),
        None => Ok(()),
    }
}

fn tell_outcome(out: &mut Vec<u8>, outcome: &Outcome) -> Result<(), NoMemory> {
    for update in outcome.updates.as_slice() {
        tell_update(out, update)?;
    }
    for edit in outcome.edits.as_slice() {
        if let Change::Update { log, .. } = &edit.change {
            say(out, &[b"edit", log.message.as_bytes()])?;
        }
    }
    Ok(())
}

/// Which refspec a word names: a number, and before it `i` for an implicit one.
fn index_of(word: &[u8]) -> Option<SpecIndex> {
    match word {
        [b'i', digits @ ..] => Some(SpecIndex::Implicit(decimal(digits)? as usize)),
        _ => Some(SpecIndex::ExplicitInRemote(decimal(word)? as usize)),
    }
}

/// The branch `main` of the remote at an id, or else its `HEAD`, which leads to what isn't born.
fn remote_ref(alloc: Global, word: &[u8]) -> Result<Ref, NoMemory> {
    match id_of(word) {
        Some(object) => Ok(Ref::Direct {
            full_ref_name: Text::new(alloc, b"refs/heads/main")?,
            object,
        }),
        None => Ok(Ref::Unborn {
            full_ref_name: Text::new(alloc, b"HEAD")?,
            target: Text::new(alloc, word)?,
        }),
    }
}

fn local_of(alloc: Global, word: &[u8]) -> Result<Option<Text>, NoMemory> {
    if word.is_empty() {
        return Ok(None);
    }
    Ok(Some(Text::new(alloc, word)?))
}

/// `<refspec>=<id or target>=<local name, if any>`
fn mapping_of(alloc: Global, word: &[u8]) -> Result<Option<Mapping>, NoMemory> {
    let Some((index, rest)) = split_first(b'=', word) else {
        return Ok(None);
    };
    let Some((remote, local)) = split_first(b'=', rest) else {
        return Ok(None);
    };
    let Some(spec_index) = index_of(index) else {
        return Ok(None);
    };
    Ok(Some(Mapping {
        remote: Source::Ref(remote_ref(alloc, remote)?),
        local: local_of(alloc, local)?,
        spec_index,
    }))
}

fn mappings_of(alloc: Global, text: &[u8]) -> Result<Vec<Mapping>, NoMemory> {
    let mut mappings = Vec::new(alloc);
    for word in text.split(|b| *b == b' ') {
        if let Some(mapping) = mapping_of(alloc, word)? {
            mappings.push(mapping)?;
        }
    }
    Ok(mappings)
}

fn specs_of(alloc: Global, text: &[u8]) -> Result<Vec<RefSpec>, SpecError> {
    let spec = parse(alloc, text, Operation::Fetch)?;
    Ok(vec![in alloc; spec]?)
}

fn judged(
    alloc: Global,
    world: &World,
    mappings: &[Mapping],
    specs: &[RefSpec],
    is_dry: bool,
) -> Result<Outcome, Error> {
    let message = RefLogMessage::Prefixed {
        action: Text::new(alloc, b"action")?,
    };
    update(
        alloc,
        &world.refs,
        &world.store,
        &message,
        mappings,
        specs,
        &[],
        Tags::None,
        is_dry,
        world.worktrees.as_slice(),
    )
}

/// `<real or dry> <refspec> <mapping>*`: tells what becomes of the mappings. Whether the words are these.
pub(crate) fn tell_updates(
    alloc: Global,
    world: &World,
    rest: &[u8],
    out: &mut Vec<u8>,
) -> Result<bool, NoMemory> {
    let (how, rest) = split_word(rest);
    let (spec, mappings) = split_word(rest);
    let Ok(specs) = specs_of(alloc, spec) else {
        return Ok(false);
    };
    let mappings = mappings_of(alloc, mappings)?;
    let is_dry = how == b"dry".as_slice();
    match judged(alloc, world, mappings.as_slice(), specs.as_slice(), is_dry) {
        Ok(outcome) => tell_outcome(out, &outcome)?,
        Err(e) => say_printed(out, b"refused", &e)?,
    }
    Ok(true)
}

/// `<branch> <directory>`: checks a branch out. Whether the first word is a name.
pub(crate) fn check_out(
    alloc: Global,
    worktrees: &mut Vec<Worktree>,
    rest: &[u8],
) -> Result<bool, NoMemory> {
    let (branch, directory) = split_word(rest);
    let Some(branch) = name_of(alloc, branch)? else {
        return Ok(false);
    };
    worktrees.push(Worktree {
        branch,
        directory: Text::from(decoded(alloc, directory)?),
    })?;
    Ok(true)
}
