//! Remotes whose refspecs lead to a tracking branch.

ghost use Rattle.std.specs.Prelude.{◌≡◌, ◌++◌, ◌∷◌, [], IfOk, OnOk};
ghost use Rattle.std.specs.List.{flat_map};
ghost use Rattle.fetch_base.specs.Answers.{AnswersBy, AnswersUnless};
ghost use Rattle.fetch_lookup.specs.Names.{remote_names_of};
ghost use Rattle.fetch_lookup.specs.Results.{all_of};
ghost use Rattle.fetch_lookup.specs.Upstreams as spec;

use crate::find;
use crate::names::{Names, remote_names};
use crate::remote::{RemoteParts, found};
use crate::upstream::Error;
use fetch_base::{List, NoMemory, Text};
use fetch_config::File;
use fetch_specs::{FullName, Item, Match, MatchGroup, RefSpec, SourceRef};
use std::alloc::Global;

/// A remote, and the names that its refspecs lead to a tracking branch from.
#[derive(Debug, Drop)]
pub(crate) struct Leading {
    /// The remote's name.
    pub name: Text,
    /// The names, each once.
    pub sources: List<Text>,
    /// The remote.
    pub remote: RemoteParts,
}

/// All remotes, in ascending order of their names, or why the first is refused that is refused.
pub(crate) fn all_leading(
    alloc: Global,
    file: &File,
    tracking: &FullName,
) -> Result<Vec<Leading>, Error>
    ensures { AnswersBy (λ found. found.items) spec.is_memory
        (all_of (spec.leading_in file.now.sections tracking.now) (remote_names_of file.now.sections)) result }
{
    let names = in_a_list(alloc, remote_names(alloc, file)?)?;
    each_leading(alloc, file, tracking, names.as_slice())
}

fn in_a_list(alloc: Global, names: Names) -> Result<Vec<Text>, NoMemory>
    ensures { IfOk result (λ list. list.items ≡ names.keys) }
{
    let mut list = Vec::with_capacity(alloc, names.len())?;
    for name in names {
        list.push(name)?;
    }
    Ok(list)
}

fn each_leading(
    alloc: Global,
    file: &File,
    tracking: &FullName,
    names: &[Text],
) -> Result<Vec<Leading>, Error>
    ensures { AnswersBy (λ found. found.items) spec.is_memory (all_of (spec.leading_in file.now.sections tracking.now) names.now) result }
{
    let mut found = Vec::new(alloc);
    for name in names {
        add(&mut found, leads_from(alloc, file, tracking, name)?)?;
    }
    Ok(found)
}

fn add(found: &mut Vec<Leading>, leading: Leading) -> Result<(), NoMemory>
    ensures { OnOk result (found.new.items ≡ found.old.items ++ leading ∷ []) }
{
    found.push(leading)?;
    Ok(())
}

#[tactic(auto, unfolding(crate::specs::Upstreams::leading_in))]
fn leads_from(
    alloc: Global,
    file: &File,
    tracking: &FullName,
    name: &Text,
) -> Result<Leading, Error>
    ensures { AnswersUnless spec.is_memory (spec.leading_in file.now.sections tracking.now name.now) result }
{
    match found(alloc, file, name.as_bytes()) {
        Ok(remote) => {
            let sources = names_leading(alloc, remote.fetch_specs.as_slice(), tracking)?;
            Ok(Leading {
                name: name.try_clone()?,
                sources,
                remote,
            })
        }
        Err(e) => Err(refusal_of(e)),
    }
}

fn refusal_of(e: find::Error) -> Error
    ensures { result ≡ spec.find_refusal e }
{
    match e {
        find::Error::TagOpt { value } => Error::FindRemote(find::Error::TagOpt { value }),
        find::Error::Url { kind, remote_name } => {
            Error::FindRemote(find::Error::Url { kind, remote_name })
        }
        find::Error::RefSpec {
            kind,
            remote_name,
            source,
        } => Error::FindRemote(find::Error::RefSpec {
            kind,
            remote_name,
            source,
        }),
        find::Error::NoMemory => Error::NoMemory,
    }
}

#[tactic(auto, unfolding(crate::specs::Upstreams::names_leading))]
fn names_leading(
    alloc: Global,
    specs: &[RefSpec],
    tracking: &FullName,
) -> Result<List<Text>, NoMemory>
    ensures { IfOk result (λ names. names ≡ spec.names_leading specs.now tracking.now) }
{
    let mut items = Vec::new(alloc);
    items.push(Item {
        full_ref_name: Text::new(alloc, tracking.as_bytes())?,
    })?;
    match MatchGroup::from_fetch_specs(specs).match_rhs(alloc, items.as_slice()) {
        Ok(found) => source_names(alloc, found.as_slice()),
        Err(_) => Err(NoMemory),
    }
}

fn source_names(alloc: Global, found: &[Match]) -> Result<List<Text>, NoMemory>
    ensures { IfOk result (λ names. names ≡ flat_map (λ m. spec.names_of_source m.lhs) found.now) }
{
    let mut names = List::new(alloc);
    for item in found {
        push_source(&mut names, &item.lhs)?;
    }
    Ok(names)
}

fn push_source(names: &mut List<Text>, source: &SourceRef) -> Result<(), NoMemory>
    ensures { OnOk result (names.new ≡ names.old ++ spec.names_of_source source.now) }
{
    match source {
        SourceRef::FullName(name) => names.push(name.try_clone()?),
        SourceRef::ObjectId(_) => Ok(()),
    }
}
