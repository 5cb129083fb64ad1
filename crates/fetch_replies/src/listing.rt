//! The references that a server lists.

ghost use Rattle.std.specs.Prelude.{◌≡◌, ◌<◌, ◌++◌, ◌∷◌, ◌||◌, [], if◌then◌else◌, not, Some, None, IfOk, OnOk, option_and_then, vec_len};
ghost use Rattle.std.specs.Prelude.{vec_capacity};
ghost use Rattle.std.specs.Option.{option_copied, option_map};
ghost use Rattle.fetch_lines.specs.Words.{words, words_in};
ghost use Rattle.fetch_replies.specs.Advertisements.{with_peel, peeled_to};
ghost use Rattle.fetch_replies.specs.Listings.{no_attributes, with_attribute, with_attributes, ref_with, id_or_unborn, named_by, ref_in};
ghost use Rattle.fetch_replies.specs.Listings.{if_new, is_listed};

use crate::greetings::advertisement::peeled_to;
use fetch_base::{Kind, NoMemory, ObjectId, Text, after, copy_slice, digest, split_first};
use fetch_lines::{Ref, next_word};
use std::alloc::Global;
use std::collections::BTreeSet;
use std::marker::Model;

/// The target and the peeled id that attributes tell.
type Attributes<'a> = (Option<&'a [u8]>, Option<ObjectId>);

/// One more attribute. The last of a kind counts.
#[tactic(auto, unfolding(crate::specs::Listings::with_attribute))]
fn with_attribute<'a>(kind: Kind, found: Attributes<'a>, word: &'a [u8]) -> Option<Attributes<'a>>
    ensures { option_map (λ x. (option_copied x.0, x.1)) result
        ≡ with_attribute kind (option_copied found.entry.0, found.entry.1) word.now }
{
    if let Some(target) = after(b"symref-target:", word) {
        if target.is_empty() {
            return None;
        }
        return Some((Some(target), found.1));
    }
    if let Some(hex) = after(b"peeled:", word) {
        return match ObjectId::in_hex(kind, hex) {
            Some(id) => Some((found.0, Some(id))),
            None => None,
        };
    }
    Some(found)
}

/// The attributes of a text, where there is one.
fn attributes(kind: Kind, text: Option<&[u8]>) -> Option<Attributes<'_>>
    ensures { option_map (λ x. (option_copied x.0, x.1)) result ≡ with_attributes kind no_attributes (words_in (option_copied text.entry)) }
{
    let mut found = (None, None);
    let mut rest = text;
    'words: while let Some(text) = rest {
        let (word, behind) = next_word(text);
        match with_attribute(kind, found, word) {
            Some(more) => found = more,
            None => return None,
        }
        rest = behind;
    }
    Some(found)
}

/// The reference with this name, id and attributes: what it is symbolic for, and what its tag leads to. None without an id and
/// without a name that it is symbolic for; an unborn one has such a name.
// Long: one arm for each kind of reference, a field a line.
pub fn make_ref(
    alloc: Global,
    name: &[u8],
    id: Option<ObjectId>,
    attributes: (Option<&[u8]>, Option<ObjectId>),
) -> Result<Option<Ref>, NoMemory>
    ensures { IfOk result (λ found. found ≡ ref_with name.now id (option_copied attributes.entry.0, attributes.entry.1)) }
{
    let (target, peeled) = attributes;
    let full_ref_name = Text::new(alloc, name)?;
    let target = match target {
        Some(target) => Some(Text::new(alloc, target)?),
        None => None,
    };
    Ok(match (id, target, peeled) {
        (None, Some(target), _) => Some(Ref::Unborn {
            full_ref_name,
            target,
        }),
        (None, None, _) => None,
        (Some(id), Some(target), Some(object)) => Some(Ref::Symbolic {
            full_ref_name,
            target,
            tag: Some(id),
            object,
        }),
        (Some(object), Some(target), None) => Some(Ref::Symbolic {
            full_ref_name,
            target,
            tag: None,
            object,
        }),
        (Some(tag), None, Some(object)) => Some(Ref::Peeled {
            full_ref_name,
            tag,
            object,
        }),
        (Some(object), None, None) => Some(Ref::Direct {
            full_ref_name,
            object,
        }),
    })
}

/// `unborn`, or an id.
#[tactic(auto, unfolding(crate::specs::Listings::id_or_unborn))]
fn id_or_unborn(kind: Kind, text: &[u8]) -> Option<Option<ObjectId>>
    ensures { result ≡ id_or_unborn kind text.now }
{
    if text == b"unborn".as_slice() {
        return Some(None);
    }
    match ObjectId::in_hex(kind, text) {
        Some(id) => Some(Some(id)),
        None => None,
    }
}

/// The reference with this id, of a name, which isn't empty, and attributes.
fn named(
    alloc: Global,
    kind: Kind,
    id: Option<ObjectId>,
    text: &[u8],
) -> Result<Option<Ref>, NoMemory>
    ensures { IfOk result (λ found. found ≡ named_by kind id (words text.now)) }
{
    let (name, rest) = next_word(text);
    if name.is_empty() {
        return Ok(None);
    }
    match attributes(kind, rest) {
        Some(attributes) => make_ref(alloc, name, id, attributes),
        None => Ok(None),
    }
}

/// The reference that a text lists.
fn read_ref(alloc: Global, kind: Kind, text: &[u8]) -> Result<Option<Ref>, NoMemory>
    ensures { IfOk result (λ found. found ≡ ref_in kind text.now) }
{
    let Some((id, rest)) = split_first(b' ', text) else {
        return Ok(None);
    };
    match id_or_unborn(kind, id) {
        Some(id) => named(alloc, kind, id, rest),
        None => Ok(None),
    }
}

/// Whether a reference has the name of one of these.
fn is_listed(before: &[Ref], reference: &Ref) -> bool
    ensures { result ≡ is_listed before.now reference.now }
{
    let name = reference.unpack().0;
    before.iter().any(|other| other.unpack().0 == name)
}

/// Whether a reference is new. Where its name's digest is, its name is too, so the list is walked for a name that is
/// repeated alone.
fn is_new(is_new_digest: bool, before: &[Ref], reference: &Ref) -> bool
    ensures { result ≡ (is_new_digest || not (is_listed before.now reference.now)) }
{
    is_new_digest || !is_listed(before, reference)
}

/// The references listed so far, and digests of their names, by which a repeated one is known: the bytes of a name are
/// stored once.
#[derive(Drop)]
pub(crate) struct PartialListing {
    refs: Vec<Ref>,
    digests: BTreeSet<ObjectId>,
}

impl Model for PartialListing {
    ghost use Rattle.std.specs.Prelude.{List};
    ghost use Rattle.fetch_replies.specs.Listings.{HasDigests};
    ghost use Rattle.fetch_lines.specs.declared.listings.reference.Ref.{Ref};

    ghost Value = { List Ref };

    ghost view = { λ listed. listed.refs.items };

    ghost invariant = { λ listed. HasDigests listed.refs.items listed.digests };
}

impl PartialListing {
    /// No reference.
    pub(crate) fn new(alloc: Global) -> PartialListing
        ensures { result ≡ [] }
    {
        PartialListing {
            refs: Vec::new(alloc),
            digests: BTreeSet::new(alloc),
        }
    }

    /// Adds a reference, unless its name is listed, and says whether it was added.
    pub(crate) fn add(&mut self, reference: Ref) -> Result<bool, NoMemory>
        ensures new { IfOk result (λ is_new. is_new ≡ not (is_listed self.old reference)) }
        ensures added { OnOk result (self.new ≡ if is_listed self.old reference then self.old else self.old ++ reference ∷ []) }
    {
        self.refs.reserve(1)?;
        let digest = digest(Kind::Sha256, reference.unpack().0);
        let is_new_digest = self.digests.insert(digest)?;
        let is_new = is_new(is_new_digest, self.refs.as_slice(), &reference);
        push_if(is_new, &mut self.refs, reference);
        Ok(is_new)
    }

    /// Tells what the tag of the last reference peels to, where it has this name, and says whether it has.
    pub(crate) fn peel_last(&mut self, id: ObjectId, name: &[u8]) -> bool
        ensures { (if result then Some self.new else None) ≡ with_peel id name.now self.old }
    {
        let Some(last) = self.refs.pop() else {
            return false;
        };
        let is_last = last.unpack().0 == name;
        self.refs.push_reserved(peel_if(is_last, id, last));
        is_last
    }

    /// An equal listing.
    pub(crate) fn try_clone(&self) -> Result<PartialListing, NoMemory>
        ensures { IfOk result (λ copy. copy ≡ self.now) }
    {
        let alloc = *self.refs.allocator();
        Ok(PartialListing {
            refs: copy_slice(alloc, self.refs.as_slice())?.into_vec(),
            digests: self.digests.clone()?,
        })
    }

    /// The references.
    pub(crate) fn into_refs(self) -> Vec<Ref>
        ensures { result.items ≡ self }
    {
        self.refs
    }
}

fn peel_if(is_last: bool, id: ObjectId, reference: Ref) -> Ref
    ensures { result ≡ if is_last then peeled_to id reference else reference }
{
    if is_last {
        peeled_to(id, reference)
    } else {
        reference
    }
}

fn push_if(is_new: bool, refs: &mut Vec<Ref>, reference: Ref)
    requires { vec_len refs.old < vec_capacity refs.old }
    ensures { refs.new.items ≡ if is_new then refs.old.items ++ reference ∷ [] else refs.old.items }
{
    if is_new {
        refs.push_reserved(reference);
    }
}

/// Adds the reference that a text lists, and says whether it lists one whose name is new.
pub(crate) fn add_text(
    alloc: Global,
    kind: Kind,
    listed: &mut PartialListing,
    text: &[u8],
) -> Result<bool, NoMemory>
    ensures { IfOk result (λ is_new. (if is_new then Some listed.new else None)
        ≡ option_map (λ reference. listed.old ++ reference ∷ []) (option_and_then (if_new listed.old) (ref_in kind text.now))) }
{
    match read_ref(alloc, kind, text)? {
        Some(reference) => listed.add(reference),
        None => Ok(false),
    }
}
