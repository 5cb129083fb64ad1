//! Which reference a name means among those that are mapped.

ghost use Rattle.std.specs.Prelude.{◌≡◌, ◌++◌, codes, find, map, IfOk, OnOk, Some};
ghost use Rattle.std.specs.List.{list_any};
ghost use Rattle.std.specs.Option.{option_copied};
ghost use Rattle.fetch_base.specs.Answers.{AnswersUnless};
ghost use Rattle.fetch_init.specs.NamedRefs as spec;

use fetch_specs::{PartialName, matches};
use fetch_store::{List, NoMemory, ObjectId, Text};
use fetch_wire::Mapping;
use std::alloc::Global;

/// A reference of the remote that is mapped and has an id.
// Not copied: it is the answer of one call, given to its caller.
#[derive(Debug, Drop)]
pub struct NamedRef {
    /// Its name, as the remote lists it.
    pub name: Text,
    /// Its id, of a tag before what it peels to.
    pub id: ObjectId,
}

/// Why a name means no reference.
// Not copied: a clone tells it by its own error, which can be copied.
#[derive(Debug, Drop)]
pub enum RefNameError {
    /// None is called so.
    Missing,
    /// Several may be meant.
    Ambiguous {
        /// The names that it may mean, in the order of the mappings.
        candidates: List<Text>,
    },
    /// Memory ran out.
    NoMemory,
}

impl From<NoMemory> for RefNameError {
    ghost use Rattle.std.specs.Prelude.{◌≡◌};
    ghost use Rattle.fetch_init.specs.declared.named_ref.RefNameError.TheVariants as errors;

    ghost from_gives = { λ _ e. e ≡ errors.NoMemory };

    fn from(_e: NoMemory) -> RefNameError {
        RefNameError::NoMemory
    }
}

/// The reference that a name means: the one of that full name, or else, outside `refs/`, the branch, the tag, or else what a
/// refspec with this source takes, of which there has to be one.
#[tactic(auto, unfolding(crate::specs::NamedRefs::ref_named_in))]
pub fn ref_named(
    alloc: Global,
    mappings: &[Mapping],
    wanted: &PartialName,
) -> Result<NamedRef, RefNameError>
    ensures { AnswersUnless spec.is_memory (spec.ref_named_in mappings.now wanted.now) result }
{
    match written_out(alloc, mappings, wanted.as_bytes())? {
        Some(found) => Ok(found),
        None => only_one(alloc, taken(alloc, mappings, wanted)?),
    }
}

/// The name itself; outside `refs/` also a branch, or else a tag.
fn written_out(
    alloc: Global,
    mappings: &[Mapping],
    wanted: &[u8],
) -> Result<Option<NamedRef>, NoMemory>
    ensures { IfOk result (λ found. found ≡ spec.written_out mappings.now wanted.now) }
{
    match named(mappings, Text::new(alloc, wanted)?) {
        Some(found) => Ok(Some(found)),
        None if wanted.starts_with(b"refs/") => Ok(None),
        None => branch_or_tag(alloc, mappings, wanted),
    }
}

fn branch_or_tag(
    alloc: Global,
    mappings: &[Mapping],
    wanted: &[u8],
) -> Result<Option<NamedRef>, NoMemory>
    ensures { IfOk result (λ found. found ≡ spec.branch_or_tag mappings.now wanted.now) }
{
    match named(mappings, behind(alloc, b"refs/heads/", wanted)?) {
        Some(found) => Ok(Some(found)),
        None => Ok(named(mappings, behind(alloc, b"refs/tags/", wanted)?)),
    }
}

/// What a refspec with this source takes, in the order of the mappings, each name once.
fn taken(
    alloc: Global,
    mappings: &[Mapping],
    wanted: &PartialName,
) -> Result<Vec<NamedRef>, NoMemory>
    ensures { IfOk result (λ found. found.items ≡ spec.taken_of mappings.now wanted.now) }
{
    let mut found = Vec::new(alloc);
    for mapping in mappings {
        push_taken(alloc, &mut found, mapping, wanted)?;
    }
    Ok(found)
}

fn push_taken(
    alloc: Global,
    found: &mut Vec<NamedRef>,
    mapping: &Mapping,
    wanted: &PartialName,
) -> Result<(), NoMemory>
    ensures { OnOk result (found.new.items ≡ spec.with_new found.old.items (spec.taken_at wanted.now mapping.now)) }
{
    match taken_at(alloc, mapping, wanted)? {
        Some(named_ref) => push_new(found, named_ref),
        None => Ok(()),
    }
}

/// Adds one, unless there is one of that name.
fn push_new(found: &mut Vec<NamedRef>, named_ref: NamedRef) -> Result<(), NoMemory>
    ensures { OnOk result (found.new.items ≡ spec.with_new found.old.items (Some named_ref)) }
{
    if is_there(found.as_slice(), &named_ref) {
        return Ok(());
    }
    found.push(named_ref)?;
    Ok(())
}

fn is_there(found: &[NamedRef], named_ref: &NamedRef) -> bool
    ensures { result ≡ list_any (λ x. spec.is_same x named_ref.now) found.now }
{
    found.iter().any(|other| is_same(other, named_ref))
}

fn is_same(a: &NamedRef, b: &NamedRef) -> bool
    ensures { result ≡ spec.is_same a.now b.now }
{
    a.name.as_bytes() == b.name.as_bytes()
}

/// The reference that a mapping is of, where it has an id, and a refspec with this source takes it.
fn taken_at(
    alloc: Global,
    mapping: &Mapping,
    wanted: &PartialName,
) -> Result<Option<NamedRef>, NoMemory>
    ensures { IfOk result (λ found. found ≡ spec.taken_at wanted.now mapping.now) }
{
    match (mapping.remote.as_name(), mapping.remote.as_id()) {
        (Some(name), Some(id)) if matches(wanted, name) => Ok(Some(NamedRef {
            name: Text::new(alloc, name)?,
            id: *id,
        })),
        _ => Ok(None),
    }
}

fn only_one(alloc: Global, found: Vec<NamedRef>) -> Result<NamedRef, RefNameError>
    ensures { AnswersUnless spec.is_memory (spec.only_one found.items) result }
{
    let mut found = found;
    if found.len() > 1 {
        return Err(RefNameError::Ambiguous {
            candidates: List::from(names_of(alloc, found.as_slice())?),
        });
    }
    match found.pop() {
        Some(only) => Ok(only),
        None => Err(RefNameError::Missing),
    }
}

fn names_of(alloc: Global, found: &[NamedRef]) -> Result<Vec<Text>, NoMemory>
    ensures { IfOk result (λ names. names.items ≡ map spec.name_of found.now) }
{
    let mut names = Vec::new(alloc);
    for named_ref in found {
        names.push(named_ref.name.try_clone()?)?;
    }
    Ok(names)
}

fn behind(alloc: Global, front: &[u8], name: &[u8]) -> Result<Text, NoMemory>
    ensures { IfOk result (λ text. text ≡ front.now ++ name.now) }
{
    let mut text = Vec::from_slice(alloc, front)?;
    text.extend_from_slice(name)?;
    Ok(Text::from(text))
}

/// The mapped reference of this name, where it has an id.
fn named(mappings: &[Mapping], name: Text) -> Option<NamedRef>
    ensures { result ≡ spec.named mappings.now name }
{
    match id_of(mappings, name.as_bytes()) {
        Some(id) => Some(NamedRef { name, id }),
        None => None,
    }
}

fn id_of(mappings: &[Mapping], name: &[u8]) -> Option<ObjectId>
    ensures { result ≡ spec.id_of mappings.now name.now }
{
    match with_id_of(mappings, name) {
        Some(mapping) => mapping.remote.as_id().copied(),
        None => None,
    }
}

/// The first mapping of a reference of this name that has an id.
fn with_id_of<'a>(mappings: &'a [Mapping], name: &[u8]) -> Option<&'a Mapping>
    ensures { option_copied result ≡ find (spec.has_id_of name.now) mappings.now }
{
    mappings.iter().find(|m| has_id_of(name, m))
}

fn has_id_of(name: &[u8], mapping: &Mapping) -> bool
    ensures { result ≡ spec.has_id_of name.now mapping.now }
{
    is_called(name, mapping.remote.as_name()) && mapping.remote.as_id().is_some()
}

fn is_called(name: &[u8], own: Option<&[u8]>) -> bool
    ensures { result ≡ spec.is_called name.now (option_copied own.entry) }
{
    match own {
        Some(own) => own == name,
        None => false,
    }
}
