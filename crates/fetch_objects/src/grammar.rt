//! The grammar of objects: the parts that a text begins with.

ghost use Rattle.std.specs.Prelude.{◌≡◌, ◌≤◌, length};
ghost use Rattle.std.specs.Int.{is_in_range};
ghost use Rattle.std.specs.List.{list_all};
ghost use Rattle.std.specs.Option.{option_map};
ghost use Rattle.fetch_objects.specs.Grammar as spec;
ghost use Rattle.fetch_objects.specs.declared.grammar.Expected.TheVariants as expect;
ghost use Rattle.fetch_base.specs.declared.id.Kind.{Kind};
ghost use Rattle.fetch_base.specs.Id.{byte_len};
ghost use Rattle.fetch_objects.specs.Steps.{step_view};

use fetch_base::{
    Kind, LF, NUL, ObjectId, ObjectKind, SPACE, after, is_offset, seconds_in, split_first,
    split_last,
};

/// What a line or an entry says.
#[derive(Clone, Copy, Debug, PartialEq, Eq)]
pub(crate) enum Part {
    /// The tree of a commit.
    Tree(ObjectId),
    /// A parent of a commit.
    Parent(ObjectId),
    /// Who wrote a commit.
    Author,
    /// When a commit was made, in seconds since 1970.
    Committer(u64),
    /// An entry of a tree.
    Entry(ObjectId),
    /// An entry of a tree whose id is no link.
    Submodule,
    /// What a tag is of.
    Tagged(ObjectId),
    /// The kind of what a tag is of.
    TaggedKind(ObjectKind),
}

/// What may come next in a text.
#[derive(Clone, Copy, Debug, PartialEq, Eq)]
pub(crate) enum Expected {
    /// The line `tree`.
    TreeLine,
    /// A line `parent`, or the line `author`.
    ParentOrAuthor,
    /// The line `committer`.
    CommitterLine,
    /// The line `object` of a tag.
    TaggedLine,
    /// The line `type` of a tag.
    TypeLine,
    /// An entry of a tree, or its end.
    Entry,
    /// Any bytes.
    Anything,
}

/// A part, what is expected after it, and the bytes there.
#[derive(Clone, Copy)]
pub(crate) struct Step<'a> {
    /// What was read.
    pub part: Part,
    /// What may come after it.
    pub expected: Expected,
    /// The bytes after it.
    pub rest: &'a [u8],
}

/// The part at the front of the bytes, where it is one that is expected.
pub(crate) fn part_at(hash: Kind, expected: Expected, bytes: &[u8]) -> Option<Step<'_>>
    ensures { option_map step_view result ≡ spec.part_at hash expected bytes.now }
{
    match expected {
        Expected::TreeLine => tree_line(hash, bytes),
        Expected::ParentOrAuthor => parent_or_author_line(hash, bytes),
        Expected::CommitterLine => committer_line(bytes),
        Expected::TaggedLine => tagged_line(hash, bytes),
        Expected::TypeLine => type_line(bytes),
        Expected::Entry => entry_at(hash, bytes),
        Expected::Anything => None,
    }
}

fn tree_line(hash: Kind, bytes: &[u8]) -> Option<Step<'_>>
    ensures { option_map step_view result ≡ spec.part_at hash expect.TreeLine bytes.now }
{
    let (line, rest) = split_first(LF, bytes)?;
    let id = id_after(hash, b"tree ", line)?;
    Some(Step {
        part: Part::Tree(id),
        expected: Expected::ParentOrAuthor,
        rest,
    })
}

fn parent_or_author_line(hash: Kind, bytes: &[u8]) -> Option<Step<'_>>
    ensures { option_map step_view result ≡ spec.part_at hash expect.ParentOrAuthor bytes.now }
{
    let (line, rest) = split_first(LF, bytes)?;
    parent_or_author(hash, line, rest)
}

fn committer_line(bytes: &[u8]) -> Option<Step<'_>>
    ensures { (hash : Kind) → option_map step_view result ≡ spec.part_at hash expect.CommitterLine bytes.now }
{
    let (line, rest) = split_first(LF, bytes)?;
    let seconds = committed(line)?;
    Some(Step {
        part: Part::Committer(seconds),
        expected: Expected::Anything,
        rest,
    })
}

fn tagged_line(hash: Kind, bytes: &[u8]) -> Option<Step<'_>>
    ensures { option_map step_view result ≡ spec.part_at hash expect.TaggedLine bytes.now }
{
    let (line, rest) = split_first(LF, bytes)?;
    let id = id_after(hash, b"object ", line)?;
    Some(Step {
        part: Part::Tagged(id),
        expected: Expected::TypeLine,
        rest,
    })
}

fn type_line(bytes: &[u8]) -> Option<Step<'_>>
    ensures { (hash : Kind) → option_map step_view result ≡ spec.part_at hash expect.TypeLine bytes.now }
{
    let (line, rest) = split_first(LF, bytes)?;
    let kind = kind_after(line)?;
    Some(Step {
        part: Part::TaggedKind(kind),
        expected: Expected::Anything,
        rest,
    })
}

fn id_after(hash: Kind, word: &[u8], line: &[u8]) -> Option<ObjectId>
    ensures { result ≡ spec.id_after hash word.now line.now }
{
    ObjectId::in_hex(hash, after(word, line)?)
}

fn parent_or_author<'a>(hash: Kind, line: &[u8], rest: &'a [u8]) -> Option<Step<'a>>
    ensures { option_map step_view result ≡ spec.parent_or_author hash line.now rest.now }
{
    if line.starts_with(b"author ") {
        return Some(Step {
            part: Part::Author,
            expected: Expected::CommitterLine,
            rest,
        });
    }
    let id = id_after(hash, b"parent ", line)?;
    Some(Step {
        part: Part::Parent(id),
        expected: Expected::ParentOrAuthor,
        rest,
    })
}

fn committed(line: &[u8]) -> Option<u64>
    ensures { result ≡ spec.committed line.now }
{
    let text = after(b"committer ", line)?;
    let (front, offset) = split_last(SPACE, text)?;
    let (_, seconds) = split_last(SPACE, front)?;
    if is_offset(offset) {
        seconds_in(seconds)
    } else {
        None
    }
}

fn kind_named(name: &[u8]) -> Option<ObjectKind>
    ensures { result ≡ spec.kind_named name.now }
{
    if name == b"commit".as_slice() {
        Some(ObjectKind::Commit)
    } else if name == b"tree".as_slice() {
        Some(ObjectKind::Tree)
    } else if name == b"blob".as_slice() {
        Some(ObjectKind::Blob)
    } else if name == b"tag".as_slice() {
        Some(ObjectKind::Tag)
    } else {
        None
    }
}

fn kind_after(line: &[u8]) -> Option<ObjectKind>
    ensures { result ≡ spec.kind_after line.now }
{
    kind_named(after(b"type ", line)?)
}

fn is_octal(digits: &[u8]) -> bool
    ensures { result ≡ list_all (λ c. is_in_range 48 55 c) digits.now }
{
    digits.iter().all(|c| (b'0'..=b'7').contains(c))
}

fn is_mode(mode: &[u8]) -> bool
    ensures { result ≡ spec.is_mode mode.now }
{
    !mode.is_empty() && mode.len() <= 6 && is_octal(mode)
}

fn entry(hash: Kind, mode: &[u8], id: &[u8]) -> Part
    requires { length id.now ≡ byte_len hash }
    ensures { result ≡ spec.entry hash mode.now id.now }
{
    if mode == b"160000".as_slice() {
        Part::Submodule
    } else {
        Part::Entry(ObjectId::from_bytes(hash, id))
    }
}

fn entry_of<'a>(hash: Kind, mode: &[u8], name: &[u8], bytes: &'a [u8]) -> Option<Step<'a>>
    ensures { option_map step_view result ≡ spec.entry_of hash mode.now name.now bytes.now }
{
    let len = hash.len_in_bytes();
    if is_mode(mode) && !name.is_empty() && len <= bytes.len() {
        let (id, rest) = bytes.split_at(len);
        Some(Step {
            part: entry(hash, mode, id),
            expected: Expected::Entry,
            rest,
        })
    } else {
        None
    }
}

fn entry_at(hash: Kind, bytes: &[u8]) -> Option<Step<'_>>
    ensures { option_map step_view result ≡ spec.entry_at hash bytes.now }
{
    let (mode, behind) = split_first(SPACE, bytes)?;
    let (name, behind) = split_first(NUL, behind)?;
    entry_of(hash, mode, name, behind)
}
