//! The commits of a line.

ghost use Rattle.std.specs.Prelude.{◌≡◌, ◌≤◌, ◌+◌, ◌++◌, ◌∷◌, [], map, IfOk, OnOk, option_map};
ghost use Rattle.std.specs.List.{flat_map};
ghost use Rattle.std.specs.Option.{option_copied, option_to_list};
ghost use Rattle.fetch_objects.specs.CommitTexts.{parent_line};
ghost use Rattle.fetch_base.specs.Digits.{hex_of};
ghost use Rattle.fetch_bench.specs.Commits as spec;

use fetch_store::{
    Kind, NoMemory, Object, ObjectId, ObjectKind, StoreError, append_hex, append_number, id_of,
};
use std::alloc::Global;

/// Puts who wrote the commit of a number, and when, after what is there.
#[tactic(auto, unfolding(crate::specs::Commits::signature))]
fn append_signature(out: &mut Vec<u8>, number: usize) -> Result<(), NoMemory>
    ensures { OnOk result (out.new.items ≡ out.old.items ++ spec.signature number) }
{
    out.extend_from_slice(b"A <a@x> ")?;
    append_number(out, number)?;
    out.extend_from_slice(b" +0000")?;
    Ok(())
}

/// Puts the line of a parent, where there is one, after what is there.
fn append_parent(out: &mut Vec<u8>, parent: Option<&ObjectId>) -> Result<(), NoMemory>
    ensures { OnOk result (out.new.items ≡ out.old.items
        ++ flat_map parent_line (option_to_list (option_map hex_of (option_copied parent.entry)))) }
{
    if let Some(parent) = parent {
        out.extend_from_slice(b"parent ")?;
        append_hex(out, parent)?;
        out.extend_from_slice(b"\n")?;
    }
    Ok(())
}

/// Puts the commit of a number with this parent after what is there. `tree` is the id of the empty tree.
fn append_commit(
    out: &mut Vec<u8>,
    tree: &ObjectId,
    parent: Option<&ObjectId>,
    number: usize,
) -> Result<(), NoMemory>
    requires { tree.now ≡ spec.tree_id }
    ensures { OnOk result (out.new.items ≡ out.old.items ++ spec.text_of (option_copied parent.entry) number) }
{
    out.extend_from_slice(b"tree ")?;
    append_hex(out, tree)?;
    out.extend_from_slice(b"\n")?;
    append_parent(out, parent)?;
    out.extend_from_slice(b"author ")?;
    append_signature(out, number)?;
    out.extend_from_slice(b"\n")?;
    out.extend_from_slice(b"committer ")?;
    append_signature(out, number)?;
    out.extend_from_slice(b"\n")?;
    out.extend_from_slice(b"\n")?;
    append_number(out, number)?;
    out.extend_from_slice(b"\n")?;
    Ok(())
}

/// The object of a kind that the bytes are. They are one, so that memory alone may refuse them.
fn object_of(alloc: Global, kind: ObjectKind, bytes: &[u8]) -> Result<Object, NoMemory>
    ensures { IfOk result (λ object. object ≡ record { hash = Kind.Sha1; kind = kind; bytes = bytes.now }) }
{
    match Object::parse(Kind::Sha1, kind, Vec::from_slice(alloc, bytes)?) {
        Ok(object) => Ok(object),
        Err(
            StoreError::NoMemory
            | StoreError::BadHex { .. }
            | StoreError::MalformedObject { .. }
            | StoreError::Collision { .. },
        ) => Err(NoMemory),
    }
}

/// The id of the empty tree.
fn tree_id() -> ObjectId
    ensures { result ≡ spec.tree_id }
{
    id_of(Kind::Sha1, ObjectKind::Tree, &[])
}

/// A list of the empty tree alone, under its id.
pub(crate) fn empty_line(alloc: Global) -> Result<Vec<(ObjectId, Object)>, NoMemory>
    ensures { IfOk result (λ line. line.items ≡ spec.under_its_id spec.empty_tree ∷ []) }
{
    let mut line = Vec::new(alloc);
    line.push((tree_id(), object_of(alloc, ObjectKind::Tree, &[])?))?;
    Ok(line)
}

/// Puts `count` commits after what is there, each under its id, of which the first stands after `before` others in
/// the line; and answers the id of the last of all these, where there is one. `tip` is the id of the last of the others.
pub(crate) fn push_commits(
    alloc: Global,
    out: &mut Vec<(ObjectId, Object)>,
    before: usize,
    count: usize,
    tip: Option<ObjectId>,
) -> Result<Option<ObjectId>, NoMemory>
    requires few { before + count ≤ 100000 }
    requires tip { tip ≡ spec.tip before }
    ensures commits { OnOk result (out.new.items ≡ out.old.items ++ map spec.under_its_id (spec.commits_after before count)) }
    ensures tip { IfOk result (λ tip. tip ≡ spec.tip (before + count)) }
{
    out.reserve(count)?;
    let tree = tree_id();
    let mut last = tip;
    let mut text = Vec::new(alloc);
    for i in 0..count {
        text.clear();
        append_commit(&mut text, &tree, last.as_ref(), before + i + 1)?;
        let id = id_of(Kind::Sha1, ObjectKind::Commit, &text);
        out.push((id, object_of(alloc, ObjectKind::Commit, &text)?))?;
        last = Some(id);
    }
    Ok(last)
}
