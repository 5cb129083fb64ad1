//! Names of references.

use fetch_specs::{Category, FullName, NameError, PartialName};
use fetch_store::NoMemory;
use rows::{refuse, say};
use std::alloc::Global;

/// `<text>`: a plus before a name, a minus before another text, as the table of Git's verdicts has them.
pub(crate) fn tell_verdict(alloc: Global, text: &[u8], out: &mut Vec<u8>) -> Result<(), NoMemory> {
    let mark = if PartialName::new(alloc, text).is_ok() {
        b'+'
    } else {
        b'-'
    };
    out.push(mark)?;
    say(out, &[text])
}

fn word_of(category: Option<Category>) -> &'static [u8] {
    match category {
        Some(Category::Tag) => b"tag",
        Some(Category::LocalBranch) => b"branch",
        Some(Category::RemoteBranch) => b"remote-branch",
        Some(Category::Note) => b"note",
        Some(Category::PseudoRef) => b"pseudo",
        None => b"other",
    }
}

/// Tells a name with its category and its short form.
fn tell_name(out: &mut Vec<u8>, read: &Result<FullName, NameError>) -> Result<(), NoMemory> {
    match read {
        Ok(name) => {
            say(out, &[b"name", name.as_bytes(), name.shorten()])?;
            say(out, &[word_of(name.category())])
        }
        Err(e) => refuse(out, e),
    }
}

/// `<text>`: reads a full name.
pub(crate) fn tell_full(alloc: Global, text: &[u8], out: &mut Vec<u8>) -> Result<(), NoMemory> {
    tell_name(out, &FullName::new(alloc, text))
}

/// `<text>`: the full name of a tag.
pub(crate) fn tell_tag(alloc: Global, text: &[u8], out: &mut Vec<u8>) -> Result<(), NoMemory> {
    tell_name(out, &Category::Tag.to_full_name(alloc, text))
}
