//! What refspecs match, each once.

ghost use Rattle.std.specs.Prelude.{◌≡◌, ◌<◌, ◌++◌, if◌then◌else◌, [], ◌∷◌, vec_len, vec_capacity, IfOk, OnOk};
ghost use Rattle.fetch_specs.specs.Matches as spec;

use fetch_base::{NoMemory, ObjectId, Text};
use std::alloc::Global;
use std::collections::BTreeSet;
use std::marker::Model;

/// Where a match comes from.
#[derive(Debug, Drop)]
pub enum SourceRef {
    /// A name.
    FullName(Text),
    /// An object by itself.
    ObjectId(ObjectId),
}

impl SourceRef {
    /// An equal source.
    pub fn try_clone(&self) -> Result<SourceRef, NoMemory>
        ensures { IfOk result (λ copy. copy ≡ self.now) }
    {
        match self {
            SourceRef::FullName(name) => Ok(SourceRef::FullName(name.try_clone()?)),
            SourceRef::ObjectId(id) => Ok(SourceRef::ObjectId(*id)),
        }
    }
}

/// What a refspec matches: where from, and where to.
#[derive(Debug, Drop)]
pub struct Match {
    /// The source.
    pub lhs: SourceRef,
    /// The destination, in full, where the refspec has one.
    pub rhs: Option<Text>,
    /// Which item it is, where it is one.
    pub item_index: Option<usize>,
    /// Which refspec it is.
    pub spec_index: usize,
}

impl Match {
    /// An equal match.
    pub fn try_clone(&self) -> Result<Match, NoMemory>
        ensures { IfOk result (λ copy. copy ≡ self.now) }
    {
        let rhs = match &self.rhs {
            Some(text) => Some(text.try_clone()?),
            None => None,
        };
        Ok(Match {
            lhs: self.lhs.try_clone()?,
            rhs,
            item_index: self.item_index,
            spec_index: self.spec_index,
        })
    }
}

/// The matches so far, and the keys by which a repeated one is known.
#[derive(Drop)]
pub(crate) struct Found {
    alloc: Global,
    pairs: bool,
    matches: Vec<Match>,
    keys: BTreeSet<(Text, Text)>,
}

impl Model for Found {
    ghost use Rattle.fetch_specs.specs.FoundSets.{FoundValue, HasKeys};

    ghost Value = { FoundValue };

    ghost view = { λ s. record { pairs = s.pairs; matches = s.matches.items } };

    ghost invariant = { λ s. HasKeys s.pairs s.matches.items s.keys.keys };
}

impl Found {
    /// Nothing yet. Where pairs count, a match is repeated by source and destination, else by source.
    pub fn new(alloc: Global, pairs: bool) -> Found
        ensures { result ≡ record { pairs = pairs; matches = [] } }
    {
        Found {
            alloc,
            pairs,
            matches: Vec::new(alloc),
            keys: BTreeSet::new(alloc),
        }
    }

    /// Adds a match, unless the same is there.
    pub fn add(&mut self, found: Match) -> Result<(), NoMemory>
        ensures added { OnOk result (self.new.matches ≡ spec.added self.old.pairs self.old.matches found) }
        ensures pairs { self.new.pairs ≡ self.old.pairs }
    {
        let key = key_of(self.alloc, self.pairs, &found)?;
        self.matches.reserve(1)?;
        let is_new = self.keys.insert(key)?;
        push_if(is_new, &mut self.matches, found);
        Ok(())
    }

    /// The matches.
    pub fn into_matches(self) -> Vec<Match>
        ensures { result.items ≡ self.matches }
    {
        self.matches
    }
}

fn push_if(is_new: bool, matches: &mut Vec<Match>, found: Match)
    requires { vec_len matches.old < vec_capacity matches.old }
    ensures { matches.new.items ≡ if is_new then matches.old.items ++ found ∷ [] else matches.old.items }
{
    if is_new {
        matches.push_reserved(found);
    }
}

fn key_of(alloc: Global, pairs: bool, found: &Match) -> Result<(Text, Text), NoMemory>
    ensures { IfOk result (λ key. key ≡ spec.key_of pairs found.now) }
{
    let source = source_key(alloc, &found.lhs)?;
    if pairs {
        Ok((source, destination_key(alloc, &found.rhs)?))
    } else {
        Ok((source, Text::new(alloc, b"")?))
    }
}

fn marked(alloc: Global, mark: u8, bytes: &[u8]) -> Result<Text, NoMemory>
    ensures { IfOk result (λ text. text ≡ mark ∷ bytes.now) }
{
    let mut text = Vec::new(alloc);
    text.push(mark)?;
    text.extend_from_slice(bytes)?;
    Ok(Text::from(text))
}

fn source_key(alloc: Global, source: &SourceRef) -> Result<Text, NoMemory>
    ensures { IfOk result (λ key. key ≡ spec.source_key source.now) }
{
    match source {
        SourceRef::FullName(name) => marked(alloc, 0, name.as_bytes()),
        SourceRef::ObjectId(id) => marked(alloc, 1, id.as_bytes()),
    }
}

fn destination_key(alloc: Global, destination: &Option<Text>) -> Result<Text, NoMemory>
    ensures { IfOk result (λ key. key ≡ spec.destination_key destination.now) }
{
    match destination {
        Some(text) => marked(alloc, 0, text.as_bytes()),
        None => Ok(Text::new(alloc, b"")?),
    }
}
