//! Names of references.

ghost use Rattle.std.specs.Prelude.{◌≡◌, ◌++◌, ◌∷◌, [], IfOk, IsOkUnless, IsTrue, MatchOption, Some, Err, refl, List, ℕ, false};
ghost use Rattle.std.specs.Cmp.{partial_equiv_from_equiv};
ghost use Rattle.std.specs.Cmp.Lexicographic.{slice_cmp, nat_list_eq_equiv, nat_list_cmp_total, texts_ties, texts_po};
ghost use Rattle.std.specs.Ordering.{nat_cmp};
ghost use Rattle.std.specs.Str.{bytes_eq};
ghost use Rattle.fetch_specs.specs.Categories as spec;
ghost use Rattle.fetch_specs.specs.Names.{is_name, is_full_name, name_trouble, full_name_trouble};
ghost use Rattle.fetch_specs.specs.declared.error.NameError.TheVariants as errors;
ghost use Rattle.fetch_specs.specs.Categories.{category_of, prefix_of, shortened};

use crate::category::Category;
use crate::error::NameError;
use crate::grammar;
use fetch_base::{NoMemory, Text};
use std::alloc::Global;
use std::cmp::Ordering;
use std::marker::Model;

/// A full name of a reference, as `refs/heads/main` or `HEAD`. Contracts see it as its bytes.
#[derive(Debug, Drop)]
pub struct FullName {
    text: Text,
}

impl Model for FullName {
    ghost Value = { List ℕ };

    ghost view = { λ name. name.text };

    ghost invariant = { λ name. IsTrue (is_full_name name.text) };
}

/// A name of a reference, which may be short, as `main`. Contracts see it as its bytes.
#[derive(Debug, Drop)]
pub struct PartialName {
    text: Text,
}

impl Model for PartialName {
    ghost Value = { List ℕ };

    ghost view = { λ name. name.text };

    ghost invariant = { λ name. IsTrue (is_name false name.text) };
}

impl FullName {
    /// Reads a full name. `Invalid` comes exactly where the text is none.
    pub fn new(alloc: Global, text: &[u8]) -> Result<FullName, NameError>
        ensures name { IfOk result (λ name. name ≡ text.now) }
        ensures verdict { MatchOption (full_name_trouble text.now) (IsOkUnless result errors.NoMemory)
            (λ place. result ≡ Err (errors.Invalid place)) }
    {
        if let Some(place) = grammar::full_name_trouble(text) {
            return Err(NameError::Invalid { place });
        }
        Ok(FullName {
            text: Text::new(alloc, text)?,
        })
    }

    /// Whether a text is a full name. This takes no memory.
    pub fn is_valid(text: &[u8]) -> bool
        ensures { result ≡ is_full_name text.now }
    {
        grammar::full_name_trouble(text).is_none()
    }

    /// The bytes, lent.
    pub fn as_bytes(&self) -> &[u8]
        ensures bytes { result.now ≡ self.now }
        ensures valid { IsTrue (is_full_name self.now) }
    {
        self.text.as_bytes()
    }

    /// What the name is for, where its prefix says so.
    #[tactic(auto, unfolding(crate::specs::Categories::tags, crate::specs::Categories::heads, crate::specs::Categories::remotes, crate::specs::Categories::notes))]
    pub fn category(&self) -> Option<Category>
        ensures { result ≡ category_of self.now }
    {
        let name = self.as_bytes();
        if name.starts_with(b"refs/tags/") {
            Some(Category::Tag)
        } else if name.starts_with(b"refs/heads/") {
            Some(Category::LocalBranch)
        } else if name.starts_with(b"refs/remotes/") {
            Some(Category::RemoteBranch)
        } else if name.starts_with(b"refs/notes/") {
            Some(Category::Note)
        } else if name.contains(&b'/') {
            None
        } else {
            Some(Category::PseudoRef)
        }
    }

    /// The name without what its category begins with, or else without `refs/`.
    pub fn shorten(&self) -> &[u8]
        ensures { result.now ≡ shortened self.now }
    {
        let front = front_of(self.category());
        without(front, self.as_bytes())
    }

    /// A name with the same bytes.
    pub fn try_clone(&self) -> Result<FullName, NoMemory>
        ensures { IfOk result (λ copy. copy ≡ self.now) }
    {
        Ok(FullName {
            text: self.text.try_clone()?,
        })
    }
}

impl PartialName {
    /// Reads a name, full or short. `Invalid` comes exactly where the text is none.
    pub fn new(alloc: Global, text: &[u8]) -> Result<PartialName, NameError>
        ensures name { IfOk result (λ name. name ≡ text.now) }
        ensures verdict { MatchOption (name_trouble false text.now) (IsOkUnless result errors.NoMemory)
            (λ place. result ≡ Err (errors.Invalid place)) }
    {
        if let Some(place) = grammar::name_trouble(false, text) {
            return Err(NameError::Invalid { place });
        }
        Ok(PartialName {
            text: Text::new(alloc, text)?,
        })
    }

    /// The bytes, lent.
    pub fn as_bytes(&self) -> &[u8]
        ensures bytes { result.now ≡ self.now }
        ensures valid { IsTrue (is_name false self.now) }
    {
        self.text.as_bytes()
    }

    /// A name with the same bytes.
    pub fn try_clone(&self) -> Result<PartialName, NoMemory>
        ensures { IfOk result (λ copy. copy ≡ self.now) }
    {
        Ok(PartialName {
            text: self.text.try_clone()?,
        })
    }
}

impl Category {
    /// The full name that the category's prefix and a short name make. `Invalid` comes exactly where
    /// that is no name, with the place in the whole text.
    pub fn to_full_name(self, alloc: Global, short: &[u8]) -> Result<FullName, NameError>
        ensures name { IfOk result (λ name. name ≡ prefix_of self ++ short.now) }
        ensures verdict { MatchOption (full_name_trouble (prefix_of self ++ short.now)) (IsOkUnless result errors.NoMemory)
            (λ place. result ≡ Err (errors.Invalid place)) }
    {
        if let Some(place) = trouble_behind(self, short) {
            return Err(NameError::Invalid { place });
        }
        let mut text = Vec::from_slice(alloc, self.prefix())?;
        text.extend_from_slice(short)?;
        Ok(FullName {
            text: Text::from(text),
        })
    }
}

fn is_pseudo(category: Category) -> bool
    ensures { result ≡ spec.is_pseudo category }
{
    match category {
        Category::PseudoRef => true,
        Category::Tag | Category::LocalBranch | Category::RemoteBranch | Category::Note => false,
    }
}

fn is_at_sign(text: &[u8]) -> bool
    ensures { result ≡ bytes_eq text.now (64 ∷ []) }
{
    text == b"@".as_slice()
}

/// The place of what a category's prefix and a short name make, where it is no full name.
fn trouble_behind(category: Category, short: &[u8]) -> Option<usize>
    ensures { result ≡ full_name_trouble (prefix_of category ++ short.now) }
{
    if is_pseudo(category) {
        return grammar::full_name_trouble(short);
    }
    if is_at_sign(short) {
        return None;
    }
    match grammar::name_trouble(false, short) {
        Some(place) => Some(category.prefix().len() + place),
        None => None,
    }
}

/// What `shorten` takes away.
#[tactic(auto, unfolding(crate::specs::Categories::refs))]
fn front_of(category: Option<Category>) -> &'static [u8]
    ensures { result.now ≡ spec.front_of category }
{
    match category {
        Some(category) => category.prefix(),
        None => b"refs/",
    }
}

fn without<'a>(front: &[u8], name: &'a [u8]) -> &'a [u8]
    ensures { result.now ≡ spec.without front.now name.now }
{
    if name.starts_with(front) {
        &name[front.len()..]
    } else {
        name
    }
}

impl PartialEq for FullName {
    ghost eq = { bytes_eq };

    ghost laws = { partial_equiv_from_equiv nat_list_eq_equiv };

    fn eq(&self, other: &FullName) -> bool {
        self.as_bytes() == other.as_bytes()
    }
}

impl Eq for FullName {
    ghost laws = { nat_list_eq_equiv };
}

/// Names are ordered byte by byte.
impl PartialOrd for FullName {
    ghost partial_cmp = { λ a b. Some (slice_cmp nat_cmp a b) };

    ghost laws = { texts_po };

    fn partial_cmp(&self, other: &FullName) -> Option<Ordering> {
        Some(self.cmp(other))
    }
}

impl Ord for FullName {
    ghost cmp = { slice_cmp nat_cmp };

    ghost total = { nat_list_cmp_total };

    ghost matches_partial_cmp = { λ a b. refl };

    ghost matches_eq = { texts_ties };

    fn cmp(&self, other: &FullName) -> Ordering {
        self.as_bytes().cmp(other.as_bytes())
    }
}

impl PartialEq for PartialName {
    ghost eq = { bytes_eq };

    ghost laws = { partial_equiv_from_equiv nat_list_eq_equiv };

    fn eq(&self, other: &PartialName) -> bool {
        self.as_bytes() == other.as_bytes()
    }
}

impl Eq for PartialName {
    ghost laws = { nat_list_eq_equiv };
}

/// Names are ordered byte by byte.
impl PartialOrd for PartialName {
    ghost partial_cmp = { λ a b. Some (slice_cmp nat_cmp a b) };

    ghost laws = { texts_po };

    fn partial_cmp(&self, other: &PartialName) -> Option<Ordering> {
        Some(self.cmp(other))
    }
}

impl Ord for PartialName {
    ghost cmp = { slice_cmp nat_cmp };

    ghost total = { nat_list_cmp_total };

    ghost matches_partial_cmp = { λ a b. refl };

    ghost matches_eq = { texts_ties };

    fn cmp(&self, other: &PartialName) -> Ordering {
        self.as_bytes().cmp(other.as_bytes())
    }
}
