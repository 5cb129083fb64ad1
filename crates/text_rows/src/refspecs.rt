//! Refspecs: what they say, what they map, what leads to a name, and what they ask for. In a question a list of
//! refspecs or of names has commas between.

use crate::kinds::operation_of;
use fetch_specs::{
    Conflict, Item, Match, MatchGroup, Operation, RefSpec, SourceRef, SpecError, Tags, parse,
    prefixes, validate,
};
use fetch_store::{Kind, NoMemory, Text, append_number};
use rows::{Question, hash_of, refuse, say, say_number, split_word};
use std::alloc::Global;

fn tell_spec(alloc: Global, spec: &RefSpec, out: &mut Vec<u8>) -> Result<(), SpecError> {
    let text = spec.to_bstring(alloc)?;
    say(out, &[b"refspec", text.as_bytes()])?;
    if spec.allow_non_fast_forward() {
        say(out, &[b"forced"])?;
    }
    if spec.is_all_tags() {
        say(out, &[b"all tags"])?;
    }
    Ok(())
}

fn read(alloc: Global, rest: &[u8], out: &mut Vec<u8>) -> Result<(), SpecError> {
    let (operation, text) = split_word(rest);
    let operation = operation_of(operation).unwrap_or(Operation::Fetch);
    tell_spec(alloc, &parse(alloc, text, operation)?, out)
}

pub(crate) fn tags_of(word: &[u8]) -> Tags {
    if word == b"all".as_slice() {
        Tags::All
    } else if word == b"none".as_slice() {
        Tags::None
    } else {
        Tags::default()
    }
}

fn tell_tags(alloc: Global, word: &[u8], out: &mut Vec<u8>) -> Result<(), SpecError> {
    match tags_of(word).to_refspec(alloc)? {
        Some(spec) => tell_spec(alloc, &spec.try_clone()?, out),
        None => Ok(say(out, &[b"none"])?),
    }
}

pub(crate) fn specs_of(
    alloc: Global,
    texts: &[u8],
    operation: Operation,
) -> Result<Vec<RefSpec>, SpecError> {
    let mut specs = Vec::new(alloc);
    for text in texts.split(|b| *b == b',') {
        specs.push(parse(alloc, text, operation)?)?;
    }
    Ok(specs)
}

fn items_of(alloc: Global, names: &[u8]) -> Result<Vec<Item>, NoMemory> {
    let mut items = Vec::new(alloc);
    for name in names.split(|b| *b == b',') {
        items.push(Item {
            full_ref_name: Text::new(alloc, name)?,
        })?;
    }
    Ok(items)
}

fn side(source: &SourceRef) -> &[u8] {
    match source {
        SourceRef::FullName(name) => name.as_bytes(),
        SourceRef::ObjectId(_) => b"id",
    }
}

/// A line for each match: the place of its refspec, its source, or `id`, and its destination, or `-`.
fn tell_matches(out: &mut Vec<u8>, found: &[Match]) -> Result<(), NoMemory> {
    for one in found {
        append_number(out, one.spec_index)?;
        let rhs = match &one.rhs {
            Some(text) => text.as_bytes(),
            None => b"-",
        };
        say(out, &[b"", side(&one.lhs), rhs])?;
    }
    Ok(())
}

fn tell_conflicts(out: &mut Vec<u8>, conflicts: &[Conflict]) -> Result<(), NoMemory> {
    for conflict in conflicts {
        say(out, &[b"conflict", conflict.destination.as_bytes()])?;
        for source in conflict.sources.as_slice() {
            say(out, &[b"of", side(source)])?;
        }
    }
    Ok(())
}

fn map(alloc: Global, rest: &[u8], out: &mut Vec<u8>) -> Result<(), SpecError> {
    let (operation, rest) = split_word(rest);
    let (hash, rest) = split_word(rest);
    let (specs, names) = split_word(rest);
    let operation = operation_of(operation).unwrap_or(Operation::Fetch);
    let specs = specs_of(alloc, specs, operation)?;
    let items = items_of(alloc, names)?;
    let group = MatchGroup::from_fetch_specs(specs.as_slice());
    let hash = hash_of(hash).unwrap_or(Kind::Sha1);
    let found = group.match_lhs(alloc, items.as_slice(), hash)?;
    tell_matches(out, found.as_slice())?;
    let conflicts = validate(alloc, found.as_slice())?;
    Ok(tell_conflicts(out, conflicts.as_slice())?)
}

fn lead(alloc: Global, rest: &[u8], out: &mut Vec<u8>) -> Result<(), SpecError> {
    let (specs, names) = split_word(rest);
    let specs = specs_of(alloc, specs, Operation::Fetch)?;
    let items = items_of(alloc, names)?;
    let group = MatchGroup::from_fetch_specs(specs.as_slice());
    let found = group.match_rhs(alloc, items.as_slice())?;
    Ok(tell_matches(out, found.as_slice())?)
}

fn ask_for(alloc: Global, rest: &[u8], out: &mut Vec<u8>) -> Result<(), SpecError> {
    let (operation, specs) = split_word(rest);
    let operation = operation_of(operation).unwrap_or(Operation::Fetch);
    let specs = specs_of(alloc, specs, operation)?;
    let texts = prefixes(alloc, specs.as_slice())?;
    say_number(out, b"prefixes", texts.len())?;
    for text in texts.as_slice() {
        say(out, &[text.as_bytes()])?;
    }
    Ok(())
}

fn tell(alloc: Global, question: Question<'_>, out: &mut Vec<u8>) -> Option<Result<(), SpecError>> {
    let Question { what, rest } = question;
    if what == b"refspec".as_slice() {
        Some(read(alloc, rest, out))
    } else if what == b"tags".as_slice() {
        Some(tell_tags(alloc, rest, out))
    } else if what == b"map".as_slice() {
        Some(map(alloc, rest, out))
    } else if what == b"lead".as_slice() {
        Some(lead(alloc, rest, out))
    } else if what == b"ask".as_slice() {
        Some(ask_for(alloc, rest, out))
    } else {
        None
    }
}

/// Tells what is asked of refspecs. Whether something is.
pub(crate) fn ask(
    alloc: Global,
    question: Question<'_>,
    out: &mut Vec<u8>,
) -> Result<bool, NoMemory> {
    match tell(alloc, question, out) {
        Some(Ok(())) => Ok(true),
        Some(Err(e)) => {
            refuse(out, &e)?;
            Ok(true)
        }
        None => Ok(false),
    }
}
