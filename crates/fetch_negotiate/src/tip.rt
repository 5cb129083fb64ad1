//! The commits that a fetch begins with.

ghost use Rattle.std.specs.Prelude.{◌≡◌, [], Some, Result, IfOk};
ghost use Rattle.std.specs.FinMap as map;
ghost use Rattle.std.specs.List.{filter_map};
ghost use Rattle.fetch_base.specs.declared.id.ObjectId.{ObjectId};
ghost use Rattle.fetch_base.specs.Answers.{AnswersUnless};
ghost use Rattle.fetch_refs.specs.Answers.{is_memory};
ghost use Rattle.fetch_refs.specs.declared.error.RefError.{RefError};
ghost use Rattle.fetch_refs.specs.Peeled.{through};
ghost use Rattle.fetch_refs.specs.TagEnds.{AreEnds};
ghost use Rattle.fetch_refs.specs.Targets.{seen};
ghost use Rattle.fetch_negotiate.specs.Commits.{commit_of};
ghost use Rattle.fetch_negotiate.specs.Tips.{found, tip_of, tips_of, if_commit};

use fetch_refs::{RefError, Refs, TagEnds, TargetRef};
use fetch_store::{NoMemory, ObjectId, Objects, ascending};
use std::alloc::Global;

/// The stored commits that references peel to, each once, in ascending order. Each tag is followed once.
#[tactic(auto, unfolding(crate::specs::Tips::tips_of))]
pub fn tips<O: Objects>(alloc: Global, refs: &Refs, objects: &O) -> Result<Vec<ObjectId>, NoMemory>
    ensures { IfOk result (λ tips. tips.items ≡ tips_of refs.now.names (O.graph objects.now)) }
{
    Ok(ascending(ends(alloc, refs, objects)?))
}

/// The stored commits that references peel to, in the order of their names.
fn ends<O: Objects>(alloc: Global, refs: &Refs, objects: &O) -> Result<Vec<ObjectId>, NoMemory>
    ensures { IfOk result (λ ids. ids.items ≡ filter_map (tip_of refs.now.names (O.graph objects.now)) (map.entries refs.now.names)) }
{
    let mut ids = Vec::new(alloc);
    let mut known = TagEnds::new(alloc);
    for (name, target) in refs.iter() {
        if let Some(id) = end(refs, objects, &mut known, name, target)? {
            ids.push(id)?;
        }
    }
    Ok(ids)
}

/// The stored commit that a reference peels to, if there is one.
fn end<O: Objects>(
    refs: &Refs,
    objects: &O,
    known: &mut TagEnds,
    name: &[u8],
    target: TargetRef<'_>,
) -> Result<Option<ObjectId>, NoMemory>
    requires { AreEnds (O.graph objects.now) known.old }
    ensures end { IfOk result (λ end. end ≡ tip_of refs.now.names (O.graph objects.now) (name.now, seen target.entry)) }
    ensures known { AreEnds (O.graph objects.now) known.new }
{
    match if_found(refs.resolve(name, target))? {
        Some(id) => Ok(end_in_objects(objects, known, id)),
        None => Ok(None),
    }
}

/// The stored commit at the end of a way through stored tags, if there is one.
fn end_in_objects<O: Objects>(objects: &O, known: &mut TagEnds, id: ObjectId) -> Option<ObjectId>
    requires { AreEnds (O.graph objects.now) known.old }
    ensures end { result ≡ if_commit (O.graph objects.now) (found (through (O.graph objects.now) (map.len (O.graph objects.now)) [] id)) }
    ensures known { AreEnds (O.graph objects.now) known.new }
{
    match known.peel(objects, id) {
        Ok(end) => when_commit(objects, end),
        Err(_) => None,
    }
}

#[tactic(auto, using(crate::proofs::Finding::commit_test))]
fn when_commit<O: Objects>(objects: &O, id: ObjectId) -> Option<ObjectId>
    ensures { result ≡ if_commit (O.graph objects.now) (Some id) }
{
    if objects.is_commit(&id) {
        return Some(id);
    }
    None
}

/// The id, if there is one.
fn if_found(answer: Result<ObjectId, RefError>) -> Result<Option<ObjectId>, NoMemory>
    ensures { (expected : Result ObjectId RefError) → AnswersUnless is_memory expected answer → IfOk result (λ id. id ≡ found expected) }
{
    match answer {
        Ok(id) => Ok(Some(id)),
        Err(RefError::NoMemory) => Err(NoMemory),
        Err(_) => Ok(None),
    }
}
