//! Paths of files, as lists of their parts.

ghost use Rattle.std.specs.Prelude.{◌≡◌, ◌≤◌, ◌<◌, ◌∷◌, ◌++◌, [], List, ℕ, IfOk, IfSome, Some, filter, length, take, refl};
ghost use Rattle.std.specs.Cmp.{partial_equiv_from_equiv, po};
ghost use Rattle.std.specs.Cmp.Lexicographic.{slice_cmp, pointwise, nat_list_eq_equiv, nat_list_cmp_total, lists_per, lists_equiv};
ghost use Rattle.std.specs.Cmp.Lexicographic.{lists_total, lists_ties, texts_ties};
ghost use Rattle.std.specs.Option.{option_copied};
ghost use Rattle.std.specs.Ordering.{nat_cmp};
ghost use Rattle.std.specs.Str.{bytes_eq};
ghost use Rattle.fetch_files.specs.Paths.{path_cmp, is_part, is_root, is_same_path, parts_of, parts_in, parents_of, parent_of, after_path};

use fetch_base::{NoMemory, Text, split_first};
use std::alloc::Global;
use std::cmp::Ordering;
use std::marker::Model;

const SLASH: u8 = b'/';

/// A path. Contracts see it as the list of its parts.
#[derive(Debug, Drop)]
pub(crate) struct FilePath {
    parts: Vec<Text>,
}

impl Model for FilePath {
    ghost use Rattle.fetch_files.specs.Paths.{Path};

    ghost Value = { Path };

    ghost view = { λ path. path.parts.items };
}

impl FilePath {
    /// The path that a text tells.
    pub(crate) fn new(alloc: Global, path: &[u8]) -> Result<FilePath, NoMemory>
        ensures { IfOk result (λ found. found ≡ parts_of path.now) }
    {
        let mut parts = Vec::new(alloc);
        let mut rest = Some(path);
        'pieces: while let Some(text) = rest {
            let (piece, behind) = next_piece(text);
            push_part(alloc, &mut parts, piece)?;
            rest = behind;
        }
        Ok(FilePath { parts })
    }

    /// The path of the root. Takes no memory.
    pub(crate) fn root(alloc: Global) -> FilePath
        ensures { result ≡ [] }
    {
        FilePath {
            parts: Vec::new(alloc),
        }
    }

    /// Whether this is the root.
    pub(crate) fn is_root(&self) -> bool
        ensures { result ≡ is_root self.now }
    {
        match self.parts.as_slice() {
            [] => true,
            [_, ..] => false,
        }
    }

    /// How many parts there are.
    pub(crate) fn len(&self) -> usize
        ensures { result ≡ length self.now }
    {
        self.parts.len()
    }

    /// The path of the first parts, that many.
    pub(crate) fn prefix(&self, depth: usize) -> Result<FilePath, NoMemory>
        requires { depth ≤ length self.now }
        ensures { IfOk result (λ path. path ≡ take depth self.now) }
    {
        Ok(FilePath {
            parts: copy_parts(*self.parts.allocator(), &self.parts[..depth])?,
        })
    }

    /// The paths above this one, the root first.
    pub(crate) fn parents(&self) -> Result<Vec<FilePath>, NoMemory>
        ensures { IfOk result (λ paths. paths.items ≡ parents_of self.now) }
    {
        let mut paths = Vec::new(*self.parts.allocator());
        for depth in 0..self.len() {
            paths.push(self.prefix(depth)?)?;
        }
        Ok(paths)
    }

    /// The path right above: the root is above itself.
    pub(crate) fn parent(&self) -> Result<FilePath, NoMemory>
        ensures { IfOk result (λ path. path ≡ parent_of self.now) }
    {
        self.prefix(self.len().saturating_sub(1))
    }

    /// The parts after those of a text, where this path begins with it. Takes no memory.
    pub(crate) fn after(&self, path: &[u8]) -> Option<&[Text]>
        ensures { option_copied result ≡ after_path (parts_of path.now) self.now }
    {
        let mut parts = self.parts.as_slice();
        let mut rest = Some(path);
        'pieces: while let Some(text) = rest {
            let (piece, behind) = next_piece(text);
            match without_part(piece, parts) {
                Some(more) => parts = more,
                None => return None,
            }
            rest = behind;
        }
        Some(parts)
    }

    /// Whether a text tells this path. Takes no memory.
    pub(crate) fn is_told_by(&self, path: &[u8]) -> bool
        ensures { result ≡ is_same_path (parts_of path.now) self.now }
    {
        match self.after(path) {
            Some(rest) => rest.is_empty(),
            None => false,
        }
    }

    /// A path with the same parts.
    pub(crate) fn try_clone(&self) -> Result<FilePath, NoMemory>
        ensures { IfOk result (λ copy. copy ≡ self.now) }
    {
        Ok(FilePath {
            parts: copy_parts(*self.parts.allocator(), &self.parts)?,
        })
    }
}

/// What stands before the first slash, and what stands after it, if there is one.
fn next_piece(text: &[u8]) -> (&[u8], Option<&[u8]>)
    ensures parts { parts_of text.now ≡ filter is_part (result.0.now ∷ []) ++ parts_in (option_copied result.1) }
    ensures shorter { IfSome result.1 (λ rest. length rest.now < length text.now) }
{
    match split_first(SLASH, text) {
        Some((piece, rest)) => (piece, Some(rest)),
        None => (text, None),
    }
}

/// Adds the piece, unless it is empty.
fn push_part(alloc: Global, parts: &mut Vec<Text>, piece: &[u8]) -> Result<(), NoMemory>
    ensures { IfOk result (λ _. parts.new.items ≡ parts.old.items ++ filter is_part (piece.now ∷ [])) }
{
    if !piece.is_empty() {
        parts.push(Text::new(alloc, piece)?)?;
    }
    Ok(())
}

/// The parts after the piece, where they begin with it or it is empty.
fn without_part<'a>(piece: &[u8], parts: &'a [Text]) -> Option<&'a [Text]>
    ensures { option_copied result ≡ after_path (filter is_part (piece.now ∷ [])) parts.now }
{
    if piece.is_empty() {
        return Some(parts);
    }
    match parts {
        [first, rest @ ..] => {
            if is_text(piece, first.as_bytes()) {
                Some(rest)
            } else {
                None
            }
        }
        [] => None,
    }
}

fn is_text(piece: &[u8], text: &[u8]) -> bool
    ensures { result ≡ bytes_eq piece.now text.now }
{
    piece == text
}

fn copy_parts(alloc: Global, parts: &[Text]) -> Result<Vec<Text>, NoMemory>
    ensures { IfOk result (λ copy. copy.items ≡ parts.now) }
{
    let mut copy = Vec::with_capacity(alloc, parts.len())?;
    for part in parts {
        copy.push(part.try_clone()?)?;
    }
    Ok(copy)
}

impl PartialEq for FilePath {
    ghost eq = { pointwise bytes_eq };

    ghost laws = { lists_per (partial_equiv_from_equiv nat_list_eq_equiv) };

    fn eq(&self, other: &FilePath) -> bool {
        self.parts.as_slice() == other.parts.as_slice()
    }
}

impl Eq for FilePath {
    ghost laws = { lists_equiv nat_list_eq_equiv };
}

/// Paths are ordered by their first parts that differ.
impl PartialOrd for FilePath {
    ghost partial_cmp = { λ a b. Some (path_cmp a b) };

    ghost laws = { po (lists_total nat_list_cmp_total) (lists_ties (slice_cmp nat_cmp) texts_ties) };

    fn partial_cmp(&self, other: &FilePath) -> Option<Ordering> {
        Some(self.cmp(other))
    }
}

impl Ord for FilePath {
    ghost cmp = { path_cmp };

    ghost total = { lists_total nat_list_cmp_total };

    ghost matches_partial_cmp = { λ a b. refl };

    ghost matches_eq = { lists_ties (slice_cmp nat_cmp) texts_ties };

    fn cmp(&self, other: &FilePath) -> Ordering {
        self.parts.as_slice().cmp(other.parts.as_slice())
    }
}
