//! From a name to an id.

ghost use Rattle.std.specs.Prelude.{◌≡◌, ℕ, List, [], ◌∷◌, length, Err, IfSome, IsTrue};
ghost use Rattle.std.specs.FinMap as finmap;
ghost use Rattle.fetch_base.specs.Answers.{AnswersUnless};
ghost use Rattle.fetch_base.specs.declared.id.ObjectId.{ObjectId};
ghost use Rattle.fetch_refs.specs.Answers.{is_memory};
ghost use Rattle.fetch_refs.specs.declared.error.RefError.TheVariants as errors;
ghost use Rattle.fetch_refs.specs.Leading.{Leads, next_name, next_tag};
ghost use Rattle.fetch_refs.specs.Peeled.{is_met, is_met_id, follow, resolved, stopped, through, peeled, has_name};
ghost use Rattle.fetch_refs.specs.Targets.{seen};

use crate::error::RefError;
use crate::refs::Refs;
use crate::target::TargetRef;
use fetch_specs::FullName;
use fetch_store::{ObjectId, Objects, same_id};

impl Refs {
    /// The id that a name stands for: a direct reference's as it stands, and what a symbolic one
    /// leads to, with tags peeled. `Unborn`, `Cycle` and `Depth` come of the names on the way, and
    /// then `TagCycle` and `MissingObject` of the tags. Memory is taken for the name of a refusal alone.
    #[tactic(auto, unfolding(crate::specs::Peeled::peeled))]
    pub fn peel<O: Objects>(&self, objects: &O, name: &FullName) -> Result<ObjectId, RefError>
        ensures answer { AnswersUnless is_memory (peeled self.now.names (O.graph objects.now) name.now) result }
        ensures memory { result ≡ Err errors.NoMemory → IsTrue (has_name (peeled self.now.names (O.graph objects.now) name.now)) }
    {
        match self.find(name) {
            None => unborn(name),
            Some(TargetRef::Object(id)) => Ok(id),
            Some(TargetRef::Symbolic(next)) => {
                let id = end_of_names(self, name.as_bytes(), next)?;
                peel_tags(objects, id)
            }
        }
    }

    /// The id that a reference of `iter` leads to by names, else `Unborn`, `Cycle` or `Depth`. Memory is taken for the name
    /// of a refusal alone.
    pub fn resolve(&self, name: &[u8], target: TargetRef<'_>) -> Result<ObjectId, RefError>
        ensures answer { AnswersUnless is_memory (resolved self.now.names name.now (seen target.entry)) result }
        ensures memory { result ≡ Err errors.NoMemory → IsTrue (has_name (resolved self.now.names name.now (seen target.entry))) }
    {
        match target {
            TargetRef::Object(id) => Ok(id),
            TargetRef::Symbolic(next) => end_of_names(self, name, next),
        }
    }
}

fn unborn(name: &FullName) -> Result<ObjectId, RefError>
    ensures { AnswersUnless is_memory (Err (errors.Unborn name.now)) result }
{
    Err(RefError::Unborn {
        name: name.try_clone()?,
    })
}

/// The id at the end of a way of symbolic references, of which one was met. A way has five names at most, so the ones before
/// are read again and not kept.
fn end_of_names(refs: &Refs, first: &[u8], next: &FullName) -> Result<ObjectId, RefError>
    ensures answer { AnswersUnless is_memory (follow refs.now.names 4 (first.now ∷ []) next.now) result }
    ensures memory { result ≡ Err errors.NoMemory → IsTrue (has_name (follow refs.now.names 4 (first.now ∷ []) next.now)) }
{
    let mut name = next;
    let mut left = 4usize;
    'names: while left > 0 {
        if is_met(refs, first, next, 4 - left, name) {
            return cycle(name);
        }
        match refs.find(name) {
            None => return unborn(name),
            Some(TargetRef::Object(id)) => return Ok(id),
            Some(TargetRef::Symbolic(target)) => {
                name = target;
                left -= 1;
            }
        }
    }
    if is_met(refs, first, next, 4, name) {
        return cycle(name);
    }
    too_deep(name)
}

fn too_deep(name: &FullName) -> Result<ObjectId, RefError>
    ensures { AnswersUnless is_memory (Err (errors.Depth name.now)) result }
{
    Err(RefError::Depth {
        name: name.try_clone()?,
    })
}

fn cycle(name: &FullName) -> Result<ObjectId, RefError>
    ensures { AnswersUnless is_memory (Err (errors.Cycle name.now)) result }
{
    Err(RefError::Cycle {
        name: name.try_clone()?,
    })
}

/// Whether a name is the first, or among those that the next leads to, that many.
fn is_met(refs: &Refs, first: &[u8], next: &FullName, count: usize, name: &FullName) -> bool
    ensures { (way : List (List ℕ)) (end : List ℕ) → Leads (next_name refs.now.names) next.now way end → length way ≡ count
        → result ≡ is_met (first.now ∷ way) name.now }
{
    if first == name.as_bytes() {
        return true;
    }
    leads_to(refs, next, count, name)
}

/// Whether a name is among the first ones of a way of symbolic references, that many.
fn leads_to(refs: &Refs, first: &FullName, count: usize, name: &FullName) -> bool
    ensures { (way : List (List ℕ)) (end : List ℕ) → Leads (next_name refs.now.names) first.now way end → length way ≡ count
        → result ≡ is_met way name.now }
{
    let mut at = first;
    let mut left = count;
    'names: while left > 0 {
        if *at == *name {
            return true;
        }
        match refs.find(at) {
            None => return false,
            Some(TargetRef::Object(_)) => return false,
            Some(TargetRef::Symbolic(target)) => {
                at = target;
                left -= 1;
            }
        }
    }
    false
}

/// The id that is no tag, at the end of stored tags, else `TagCycle` or `MissingObject`. This takes no memory.
pub fn peel_tags<O: Objects>(objects: &O, first: ObjectId) -> Result<ObjectId, RefError>
    ensures { result ≡ through (O.graph objects.now) (finmap.len (O.graph objects.now)) [] first }
{
    match end_of_tags(objects, first) {
        Some(end) => end,
        None => along_tags(objects, first),
    }
}

/// What ends the tags, where there is an end. No tag is read twice.
fn end_of_tags<O: Objects>(objects: &O, first: ObjectId) -> Option<Result<ObjectId, RefError>>
    ensures { IfSome result (λ end. end ≡ through (O.graph objects.now) (finmap.len (O.graph objects.now)) [] first) }
{
    let mut id = first;
    let mut left = objects.len();
    'tags: while left > 0 {
        match objects.tag_target(&id) {
            Some(target) => {
                id = target;
                left -= 1;
            }
            None => return Some(if_stored(objects, id)),
        }
    }
    if objects.kind_of(&id).is_none() {
        return Some(Err(RefError::MissingObject { id }));
    }
    None
}

/// The id, where it is stored.
pub(crate) fn if_stored<O: Objects>(objects: &O, id: ObjectId) -> Result<ObjectId, RefError>
    ensures { result ≡ stopped id (finmap.get (O.graph objects.now) id) }
{
    if objects.kind_of(&id).is_none() {
        return Err(RefError::MissingObject { id });
    }
    Ok(id)
}

/// Along tags up to one that was met. An id is a hash of what it leads to, so only objects that were made up come here:
/// each tag is looked for among those before it, which takes time, and no memory.
fn along_tags<O: Objects>(objects: &O, first: ObjectId) -> Result<ObjectId, RefError>
    ensures { result ≡ through (O.graph objects.now) (finmap.len (O.graph objects.now)) [] first }
{
    let mut id = first;
    let mut count = 0usize;
    let mut left = objects.len();
    'tags: while left > 0 {
        if is_among(objects, first, count, &id) {
            return Err(RefError::TagCycle { id });
        }
        match objects.tag_target(&id) {
            Some(target) => {
                id = target;
                count += 1;
                left -= 1;
            }
            None => return if_stored(objects, id),
        }
    }
    if is_among(objects, first, count, &id) {
        return Err(RefError::TagCycle { id });
    }
    Err(RefError::MissingObject { id })
}

/// Whether the id is among the first ones of a way of tags, that many.
fn is_among<O: Objects>(objects: &O, first: ObjectId, count: usize, id: &ObjectId) -> bool
    ensures { (way : List ObjectId) (end : ObjectId) → Leads (next_tag (O.graph objects.now)) first way end → length way ≡ count
        → result ≡ is_met_id way id.now }
{
    let mut at = first;
    let mut left = count;
    'tags: while left > 0 {
        if same_id(&at, id) {
            return true;
        }
        match objects.tag_target(&at) {
            Some(target) => {
                at = target;
                left -= 1;
            }
            None => return false,
        }
    }
    false
}
