//! Destinations that two sources lead to.

ghost use Rattle.std.specs.Prelude.{ℕ, List as Bytes, [], ◌≡◌, ◌++◌, if◌then◌else◌, IfOk, OnOk, IsOkUnless};
ghost use Rattle.std.specs.List.{list_any};
ghost use Rattle.std.specs.Str.{bytes_eq};
ghost use Rattle.fetch_specs.specs.Conflicts as words;
ghost use Rattle.fetch_specs.specs.Conflicts.{conflicts_of};
ghost use Rattle.fetch_specs.specs.declared.error.SpecError.TheVariants as errors;

use crate::error::SpecError;
use crate::found::{Match, SourceRef};
use fetch_base::{List, NoMemory, Text};
use std::alloc::Global;
use std::collections::BTreeMap;

/// A destination that two different sources lead to.
#[derive(Debug, Drop)]
pub struct Conflict {
    /// The destination, in full.
    pub destination: Text,
    /// The sources, in the order of the matches, each once.
    pub sources: List<SourceRef>,
}

impl Conflict {
    /// An equal conflict.
    pub fn try_clone(&self) -> Result<Conflict, NoMemory>
        ensures { IfOk result (λ copy. copy ≡ self.now) }
    {
        Ok(Conflict {
            destination: self.destination.try_clone()?,
            sources: self.sources.try_clone_with(SourceRef::try_clone)?,
        })
    }
}

/// The destinations that two different sources lead to, in the order in which they first appear. An
/// id and a name are different sources. The only error is out of memory.
pub fn validate(alloc: Global, matches: &[Match]) -> Result<Vec<Conflict>, SpecError>
    ensures conflicts { IfOk result (λ found. found.items ≡ conflicts_of matches.now) }
    ensures memory { IsOkUnless result errors.NoMemory }
{
    Ok(conflicts(alloc, matches)?)
}

fn conflicts(alloc: Global, matches: &[Match]) -> Result<Vec<Conflict>, NoMemory>
    ensures { IfOk result (λ found. found.items ≡ conflicts_of matches.now) }
{
    let mut sources = sources_to(alloc, matches)?;
    let mut found = Vec::new(alloc);
    for i in 0..matches.len() {
        take_conflict(alloc, &mut found, &mut sources, &matches[i].rhs)?;
    }
    Ok(found)
}

/// The sources of each destination, in order, each once.
fn sources_to(alloc: Global, matches: &[Match]) -> Result<BTreeMap<Text, List<SourceRef>>, NoMemory>
    ensures { IfOk result (λ sources. (text : Bytes ℕ) → words.sources_at sources.entries text ≡ words.sources_to matches.now text) }
{
    let mut sources = BTreeMap::new(alloc);
    for i in 0..matches.len() {
        add_source(alloc, &mut sources, &matches[i])?;
    }
    Ok(sources)
}

/// Adds the source of a match to those of its destination.
fn add_source(
    alloc: Global,
    sources: &mut BTreeMap<Text, List<SourceRef>>,
    found: &Match,
) -> Result<(), NoMemory>
    ensures { OnOk result ((text : Bytes ℕ) → words.sources_at sources.new.entries text ≡ if words.is_side text found.now.rhs
        then words.more_sources (words.sources_at sources.old.entries text) found.now.lhs else words.sources_at sources.old.entries text) }
{
    let Some(destination) = &found.rhs else {
        return Ok(());
    };
    let key = destination.try_clone()?;
    let before = taken_out(alloc, sources, destination);
    let after = with_source(before, &found.lhs)?;
    sources.insert(key, after)?;
    Ok(())
}

/// Takes the sources of a destination out of the map.
fn taken_out(
    alloc: Global,
    sources: &mut BTreeMap<Text, List<SourceRef>>,
    destination: &Text,
) -> List<SourceRef>
    ensures taken { result ≡ words.sources_at sources.old.entries destination.now }
    ensures others { (text : Bytes ℕ) → words.sources_at sources.new.entries text ≡ if bytes_eq text destination.now then []
        else words.sources_at sources.old.entries text }
{
    match sources.remove(destination) {
        Some(list) => list,
        None => List::new(alloc),
    }
}

/// The sources with one more, unless it is there.
fn with_source(sources: List<SourceRef>, source: &SourceRef) -> Result<List<SourceRef>, NoMemory>
    ensures { IfOk result (λ more. more ≡ words.more_sources sources source.now) }
{
    if has_source(sources.as_slice(), source) {
        return Ok(sources);
    }
    let mut more = sources;
    more.push(source.try_clone()?)?;
    Ok(more)
}

/// Takes the sources of a destination out of the map, and adds its conflict, if it is one.
fn take_conflict(
    alloc: Global,
    found: &mut Vec<Conflict>,
    sources: &mut BTreeMap<Text, List<SourceRef>>,
    destination: &Option<Text>,
) -> Result<(), NoMemory>
    ensures found { OnOk result (found.new.items ≡ found.old.items ++ words.conflict_in sources.old.entries destination.now) }
    ensures others { OnOk result ((text : Bytes ℕ) → words.sources_at sources.new.entries text ≡ if words.is_side text destination.now
        then [] else words.sources_at sources.old.entries text) }
{
    let Some(destination) = destination else {
        return Ok(());
    };
    let taken = taken_out(alloc, sources, destination);
    push_conflict(found, destination, taken)
}

fn push_conflict(
    found: &mut Vec<Conflict>,
    destination: &Text,
    sources: List<SourceRef>,
) -> Result<(), NoMemory>
    ensures { OnOk result (found.new.items ≡ found.old.items ++ words.conflict_of destination.now sources) }
{
    if sources.len() > 1 {
        let destination = destination.try_clone()?;
        found.push(Conflict {
            destination,
            sources,
        })?;
    }
    Ok(())
}

fn has_source(sources: &[SourceRef], source: &SourceRef) -> bool
    ensures { result ≡ list_any (λ s. words.is_same_source s source.now) sources.now }
{
    for other in sources {
        if is_same_source(other, source) {
            return true;
        }
    }
    false
}

fn is_same_source(a: &SourceRef, b: &SourceRef) -> bool
    ensures { result ≡ words.is_same_source a.now b.now }
{
    match (a, b) {
        (SourceRef::FullName(a), SourceRef::FullName(b)) => a.as_bytes() == b.as_bytes(),
        (SourceRef::ObjectId(a), SourceRef::ObjectId(b)) => a.as_bytes() == b.as_bytes(),
        _ => false,
    }
}
