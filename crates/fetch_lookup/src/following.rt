//! The branch of a remote that a tracking branch follows.

ghost use Rattle.std.specs.Prelude.{◌≡◌, ◌++◌, ◌||◌, if◌then◌else◌, nat_lt, length, [], ◌∷◌, IfOk, OnOk, Some};
ghost use Rattle.std.specs.List.{flat_map, list_any, find};
ghost use Rattle.fetch_specs.specs.Categories.{category_of};
ghost use Rattle.fetch_base.specs.Answers.{AnswersUnless};
ghost use Rattle.fetch_lookup.specs.Saved.{first_or_empty};
ghost use Rattle.fetch_lookup.specs.Upstreams as spec;

use crate::leading::{Leading, all_leading};
use crate::remote::RemoteParts;
use crate::upstream::Error;
use fetch_base::{List, NoMemory, Text};
use fetch_config::File;
use fetch_specs::{Category, FullName, NameError};
use std::alloc::Global;

/// The branch that a tracking branch follows, and its remote: the refspecs of one remote alone lead there, and from one
/// branch alone. None where none do. `BranchCategory` comes first, where the name isn't below `refs/remotes/`; then the
/// first remote that is refused, in ascending order of names; then `AmbiguousRemotes`, where refspecs lead there from
/// several branches.
#[tactic(auto, unfolding(crate::specs::Upstreams::upstream_in))]
pub fn upstream_branch_and_remote_for_tracking_branch(
    alloc: Global,
    file: &File,
    tracking: &FullName,
) -> Result<Option<(FullName, RemoteParts)>, Error>
    ensures { AnswersUnless spec.is_memory (spec.upstream_in file.now.sections tracking.now) result }
{
    if !is_tracking(tracking) {
        return Err(Error::BranchCategory {
            full_name: tracking.try_clone()?,
        });
    }
    match all_leading(alloc, file, tracking) {
        Ok(found) => upstream_among(alloc, found),
        Err(e) => Err(e),
    }
}

fn is_tracking(name: &FullName) -> bool
    ensures { result ≡ spec.is_tracking_category (category_of name.now) }
{
    match name.category() {
        Some(Category::RemoteBranch) => true,
        _ => false,
    }
}

#[tactic(auto, unfolding(crate::specs::Upstreams::upstream_among))]
fn upstream_among(
    alloc: Global,
    found: Vec<Leading>,
) -> Result<Option<(FullName, RemoteParts)>, Error>
    ensures { AnswersUnless spec.is_memory (spec.upstream_among found.items) result }
{
    let names = names_told(alloc, found.as_slice())?;
    if is_several(names.as_slice(), found.as_slice()) {
        return Err(Error::AmbiguousRemotes {
            remotes: List::from(names),
        });
    }
    upstream_at(alloc, single(found))
}

fn is_several(names: &[Text], found: &[Leading]) -> bool
    ensures { result ≡ (nat_lt 1 (length names.now) || list_any spec.is_ambiguous found.now) }
{
    names.len() > 1 || any_ambiguous(found)
}

fn any_ambiguous(found: &[Leading]) -> bool
    ensures { result ≡ list_any spec.is_ambiguous found.now }
{
    found.iter().any(|leading| is_ambiguous(leading))
}

#[tactic(auto, unfolding(crate::specs::Upstreams::names_told))]
fn names_told(alloc: Global, found: &[Leading]) -> Result<Vec<Text>, NoMemory>
    ensures { IfOk result (λ names. names.items ≡ spec.names_told found.now) }
{
    let mut names = Vec::new(alloc);
    push_ambiguous(&mut names, found)?;
    push_single(&mut names, found)?;
    Ok(names)
}

fn push_ambiguous(names: &mut Vec<Text>, found: &[Leading]) -> Result<(), NoMemory>
    ensures { OnOk result (names.new.items ≡ names.old.items ++ flat_map (spec.name_where spec.is_ambiguous) found.now) }
{
    for leading in found {
        push_if(names, leading, is_ambiguous(leading))?;
    }
    Ok(())
}

fn push_single(names: &mut Vec<Text>, found: &[Leading]) -> Result<(), NoMemory>
    ensures { OnOk result (names.new.items ≡ names.old.items ++ flat_map (spec.name_where spec.is_single) found.now) }
{
    for leading in found {
        push_if(names, leading, is_single(leading))?;
    }
    Ok(())
}

fn push_if(names: &mut Vec<Text>, leading: &Leading, is_told: bool) -> Result<(), NoMemory>
    ensures { OnOk result (names.new.items ≡ names.old.items ++ (if is_told then leading.now.name ∷ [] else [])) }
{
    if is_told {
        names.push(leading.name.try_clone()?)?;
    }
    Ok(())
}

fn is_ambiguous(leading: &Leading) -> bool
    ensures { result ≡ spec.is_ambiguous leading.now }
{
    leading.sources.len() > 1
}

fn is_single(leading: &Leading) -> bool
    ensures { result ≡ spec.is_single leading.now }
{
    leading.sources.len() == 1
}

fn single(found: Vec<Leading>) -> Option<Leading>
    ensures { result ≡ find spec.is_single found.items }
{
    for leading in found {
        if is_single(&leading) {
            return Some(leading);
        }
    }
    None
}

fn upstream_at(
    alloc: Global,
    leading: Option<Leading>,
) -> Result<Option<(FullName, RemoteParts)>, Error>
    ensures { AnswersUnless spec.is_memory (spec.upstream_at leading) result }
{
    match leading {
        Some(leading) => validated(alloc, leading),
        None => Ok(None),
    }
}

fn validated(alloc: Global, leading: Leading) -> Result<Option<(FullName, RemoteParts)>, Error>
    ensures { AnswersUnless spec.is_memory (spec.upstream_at (Some leading)) result }
{
    match FullName::new(alloc, first_or_empty(leading.sources.as_slice())) {
        Ok(name) => Ok(Some((name, leading.remote))),
        Err(NameError::Invalid { place }) => Err(Error::ValidateUpstreamBranch { place }),
        Err(NameError::NoMemory) => Err(Error::NoMemory),
    }
}

fn first_or_empty(texts: &[Text]) -> &[u8]
    ensures { result.now ≡ first_or_empty texts.now }
{
    match texts {
        [text, ..] => text.as_bytes(),
        [] => b"",
    }
}
