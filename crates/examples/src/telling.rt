//! What the examples print.

use anyhow::Result;
use fetch_host::Failure;
use fetch_refs::{Refs, TargetRef};
use fetch_store::{Border, ObjectId};
use std::alloc::Global;
use std::fmt::Display;
use std::str;

/// A line for each reference, by ascending name.
pub(crate) fn tell_refs<R: Print>(rt: &R, alloc: Global, refs: &Refs) -> Result<()> {
    for (name, target) in refs.iter() {
        tell_ref(rt, alloc, str::from_utf8(name)?, &target)?;
    }
    Ok(())
}

fn tell_ref<R: Print>(rt: &R, alloc: Global, name: &str, target: &TargetRef<'_>) -> Result<()> {
    match target {
        TargetRef::Object(id) => tell_id(rt, alloc, name, id),
        TargetRef::Symbolic(other) => {
            println!(rt; "{name} -> {}", str::from_utf8(other.as_bytes())?)?;
            Ok(())
        }
    }
}

/// A word and an id.
fn tell_id<R: Print>(rt: &R, alloc: Global, word: &str, id: &ObjectId) -> Result<()> {
    let digits = id.to_hex(alloc)?;
    println!(rt; "{word} {}", str::from_utf8(digits.as_bytes())?)?;
    Ok(())
}

/// A line for each commit whose parents are left out.
pub(crate) fn tell_border<R: Print>(rt: &R, alloc: Global, border: &Border) -> Result<()> {
    for id in border.commits() {
        tell_id(rt, alloc, "border", id)?;
    }
    Ok(())
}

/// The texts of the lines in what a peer heard.
pub(crate) fn tell_lines<R: Print>(rt: &R, lines: &[u8]) -> Result<()> {
    for line in lines.split(|byte| *byte == b'\n') {
        println!(rt; "> {:?}", str::from_utf8(line)?)?;
    }
    Ok(())
}

/// What failed, what kind of failure it is, and the error.
pub(crate) fn tell_failure<R: Print, E: Failure + Display + Drop>(
    rt: &R,
    what: &str,
    e: E,
) -> Result<()> {
    println!(rt; "{what}: {}: {e}", e.failure_kind())?;
    Ok(())
}
