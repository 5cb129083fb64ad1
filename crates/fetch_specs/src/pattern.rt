//! Which names a source matches, and what a destination becomes.

ghost use Rattle.std.specs.Prelude.{◌≡◌, ◌==◌, ◌++◌, ◌≤◌, length, IfOk};
ghost use Rattle.std.specs.List.{position_or_len};
ghost use Rattle.std.specs.Option.{option_copied};
ghost use Rattle.std.specs.Str.{bytes_eq};
ghost use Rattle.fetch_specs.specs.Exact as exactly;
ghost use Rattle.fetch_specs.specs.Matches as spec;

use fetch_base::NoMemory;
use std::alloc::Global;

/// Whether the text is a pattern.
pub(crate) fn has_star(text: &[u8]) -> bool
    ensures { result ≡ spec.has_star text.now }
{
    text.contains(&b'*')
}

/// What stands before a pattern's star, or the whole where it has none.
pub(crate) fn front_of(pattern: &[u8]) -> &[u8]
    ensures { result.now ≡ spec.front_of pattern.now }
{
    &pattern[..star_or_end(pattern)]
}

/// What stands after a pattern's star.
pub(crate) fn back_of(pattern: &[u8]) -> &[u8]
    ensures { result.now ≡ spec.back_of pattern.now }
{
    let star = star_or_end(pattern);
    if star < pattern.len() {
        &pattern[star + 1..]
    } else {
        b""
    }
}

fn star_or_end(pattern: &[u8]) -> usize
    ensures place { result ≡ position_or_len (λ b. b == 42) pattern.now }
    ensures within { result ≤ length pattern.now }
{
    pattern.iter().take_while(|b| **b != b'*').count()
}

/// What stands between a prefix and a suffix in a name that has both.
pub(crate) fn between<'a>(front: &[u8], back: &[u8], name: &'a [u8]) -> Option<&'a [u8]>
    ensures { option_copied result ≡ spec.between front.now back.now name.now }
{
    if front.len() > name.len() || back.len() > name.len() - front.len() {
        return None;
    }
    if name.starts_with(front) && name.ends_with(back) {
        Some(&name[front.len()..name.len() - back.len()])
    } else {
        None
    }
}

#[tactic(auto, unfolding(crate::specs::Parses::head, crate::specs::Categories::refs))]
fn is_full(source: &[u8]) -> bool
    ensures { result ≡ spec.is_full source.now }
{
    source == b"HEAD".as_slice() || source.starts_with(b"refs/")
}

/// A source that takes one name alone, its own: in full, without a star.
pub(crate) fn exact(source: &[u8]) -> Option<&[u8]>
    ensures { option_copied result ≡ exactly.exact source.now }
{
    if has_star(source) || !is_full(source) {
        return None;
    }
    Some(source)
}

/// Whether a name is a prefix and a text.
fn is_joined(front: &[u8], text: &[u8], name: &[u8]) -> bool
    ensures { result ≡ bytes_eq (front.now ++ text.now) name.now }
{
    if !name.starts_with(front) {
        return false;
    }
    let behind = &name[front.len()..];
    text == behind
}

/// Whether a name is a prefix, a text and a suffix.
fn is_wrapped(front: &[u8], text: &[u8], back: &[u8], name: &[u8]) -> bool
    ensures { result ≡ bytes_eq (front.now ++ (text.now ++ back.now)) name.now }
{
    if !name.starts_with(front) {
        return false;
    }
    let behind = &name[front.len()..];
    is_joined(text, back, behind)
}

/// Whether a name is one that a short source may stand for.
#[tactic(auto, unfolding(crate::specs::Categories::refs, crate::specs::Categories::tags, crate::specs::Categories::heads, crate::specs::Categories::remotes, crate::specs::Matches::slash_head))]
fn is_expansion(source: &[u8], name: &[u8]) -> bool
    ensures { result ≡ spec.is_expansion source.now name.now }
{
    source == name
        || is_joined(b"refs/", source, name)
        || is_joined(b"refs/tags/", source, name)
        || is_joined(b"refs/heads/", source, name)
        || is_joined(b"refs/remotes/", source, name)
        || is_wrapped(b"refs/remotes/", source, b"/HEAD", name)
}

/// An empty text where it holds, and None where it does not.
pub(crate) fn where_true(holds: bool) -> Option<&'static [u8]>
    ensures { option_copied result ≡ spec.where_true holds }
{
    if holds { Some(b"") } else { None }
}

/// Where a source matches a name, what its star stands for: nothing, where it has none.
pub(crate) fn taken<'a>(source: &[u8], name: &'a [u8]) -> Option<&'a [u8]>
    ensures { option_copied result ≡ spec.taken source.now name.now }
{
    if has_star(source) {
        return between(front_of(source), back_of(source), name);
    }
    if is_full(source) {
        where_true(source == name)
    } else {
        where_true(is_expansion(source, name))
    }
}

/// What a destination lacks at its front.
#[tactic(auto, unfolding(crate::specs::Categories::refs, crate::specs::Categories::heads, crate::specs::Matches::short_heads, crate::specs::Matches::short_tags, crate::specs::Matches::short_remotes))]
fn missing_front(text: &[u8]) -> &'static [u8]
    ensures { result.now ≡ spec.missing_front text.now }
{
    if text.starts_with(b"heads/") || text.starts_with(b"tags/") || text.starts_with(b"remotes/") {
        b"refs/"
    } else if text.starts_with(b"refs/") {
        b""
    } else {
        b"refs/heads/"
    }
}

/// Whether a text is this name when it is completed.
pub(crate) fn is_completed(text: &[u8], name: &[u8]) -> bool
    ensures { result ≡ bytes_eq (spec.completed text.now) name.now }
{
    is_joined(missing_front(text), text, name)
}

/// A destination in full.
fn completed(alloc: Global, text: &[u8]) -> Result<Vec<u8>, NoMemory>
    ensures { IfOk result (λ full. full.items ≡ spec.completed text.now) }
{
    let mut full = Vec::from_slice(alloc, missing_front(text))?;
    full.extend_from_slice(text)?;
    Ok(full)
}

/// A pattern with its star replaced.
pub(crate) fn with_middle(alloc: Global, pattern: &[u8], middle: &[u8]) -> Result<Vec<u8>, NoMemory>
    ensures { IfOk result (λ text. text.items ≡ spec.with_middle pattern.now middle.now) }
{
    if has_star(pattern) {
        let mut text = Vec::from_slice(alloc, front_of(pattern))?;
        text.extend_from_slice(middle)?;
        text.extend_from_slice(back_of(pattern))?;
        Ok(text)
    } else {
        Ok(Vec::from_slice(alloc, pattern)?)
    }
}

/// A destination with its star replaced, in full.
pub(crate) fn expanded(
    alloc: Global,
    middle: &[u8],
    destination: &[u8],
) -> Result<Vec<u8>, NoMemory>
    ensures { IfOk result (λ text. text.items ≡ spec.expanded middle.now destination.now) }
{
    let text = with_middle(alloc, destination, middle)?;
    completed(alloc, text.as_slice())
}
