//! What a row chooses of its clone.

use crate::clone_case::CloneCase;
use crate::refusals;
use fetch_clone::PrepareFetch;
use fetch_remote::connect::Connect;
use fetch_remote::ref_map;
use fetch_specs::{Operation, RefSpec, parse};
use fetch_store::{Files, List, NoMemory, Text};
use std::alloc::Global;

/// The clone as the row asks for it, but for its closures. What is refused is told, and passed over.
pub(crate) fn built<F: Files + Drop, C: Connect + Drop, R: Drop, G: Drop>(
    alloc: Global,
    clone_case: &CloneCase,
    clone: PrepareFetch<F, C, R, G>,
    out: &mut Vec<u8>,
) -> Result<PrepareFetch<F, C, R, G>, NoMemory> {
    let overrides = copies_of(alloc, &clone_case.overrides)?;
    let mut options = ref_map::Options::new(alloc);
    options.extra_refspecs = List::from(specs_of(alloc, &clone_case.specs)?);
    let clone = clone
        .with_in_memory_config_overrides(overrides)
        .with_fetch_options(options)
        .with_shallow(clone_case.shallow.try_clone()?);
    let clone = with_remote_name(clone_case, clone, out)?;
    let clone = with_ref_name(clone_case, clone, out)?;
    with_revision(clone_case, clone, out)
}

fn with_remote_name<F: Files + Drop, C: Connect + Drop, R: Drop, G: Drop>(
    clone_case: &CloneCase,
    clone: PrepareFetch<F, C, R, G>,
    out: &mut Vec<u8>,
) -> Result<PrepareFetch<F, C, R, G>, NoMemory> {
    let Some(name) = &clone_case.remote_name else {
        return Ok(clone);
    };
    match clone.with_remote_name(name.as_bytes()) {
        Ok(clone) => Ok(clone),
        Err((clone, e)) => {
            refusals::of_name(out, &e)?;
            Ok(clone)
        }
    }
}

fn with_ref_name<F: Files + Drop, C: Connect + Drop, R: Drop, G: Drop>(
    clone_case: &CloneCase,
    clone: PrepareFetch<F, C, R, G>,
    out: &mut Vec<u8>,
) -> Result<PrepareFetch<F, C, R, G>, NoMemory> {
    let Some(name) = &clone_case.ref_name else {
        return Ok(clone);
    };
    match clone.with_ref_name(Some(name.as_bytes())) {
        Ok(clone) => Ok(clone),
        Err((clone, e)) => {
            refusals::of_ref_name(out, e)?;
            Ok(clone)
        }
    }
}

fn with_revision<F: Files + Drop, C: Connect + Drop, R: Drop, G: Drop>(
    clone_case: &CloneCase,
    clone: PrepareFetch<F, C, R, G>,
    out: &mut Vec<u8>,
) -> Result<PrepareFetch<F, C, R, G>, NoMemory> {
    let Some(revision) = &clone_case.revision else {
        return Ok(clone);
    };
    match clone.with_revision(Some(revision.as_bytes())) {
        Ok(clone) => Ok(clone),
        Err((clone, e)) => {
            refusals::of_revision(out, &e)?;
            Ok(clone)
        }
    }
}

fn copies_of(alloc: Global, texts: &[Text]) -> Result<Vec<Text>, NoMemory> {
    let mut copies = Vec::new(alloc);
    for text in texts {
        copies.push(text.try_clone()?)?;
    }
    Ok(copies)
}

/// The refspecs that these texts are. A text that is none is passed over.
fn specs_of(alloc: Global, texts: &[Text]) -> Result<Vec<RefSpec>, NoMemory> {
    let mut specs = Vec::new(alloc);
    for text in texts {
        if let Ok(spec) = parse(alloc, text.as_bytes(), Operation::Fetch) {
            specs.push(spec)?;
        }
    }
    Ok(specs)
}
