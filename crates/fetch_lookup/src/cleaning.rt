//! What was saved of a remote before goes.

ghost use Rattle.std.specs.Prelude.{◌≡◌, ◌<◌, ◌==◌, ◌&&◌, ◌||◌, not, length, false};
ghost use Rattle.std.specs.List.{list_any, list_all};
ghost use Rattle.std.specs.Option.{option_map_or};
ghost use Rattle.fetch_config.specs.Contents.{with_sections, on_section};
ghost use Rattle.fetch_config.specs.Lookups as lookups;
ghost use Rattle.fetch_config.specs.Pieces as pieces;
ghost use Rattle.fetch_lookup.specs.Edited.{edited_at};
ghost use Rattle.fetch_lookup.specs.Saved as spec;

use crate::direction::Direction;
use crate::lines::address_key;
use fetch_base::Text;
use fetch_config::{File, Meta, Section, is_same_name, is_same_sub};

/// The keys go from all sections of the remote, and sections that this empties go too.
pub(crate) fn clean(file: &mut File, name: &[u8])
    ensures { file.new ≡ with_sections file.old (spec.cleaned name.now file.old.sections) }
{
    let mut left = file.section_count();
    'sections: while left > 0 {
        left -= 1;
        clean_at(file, left, name);
    }
}

#[tactic(auto, unfolding(crate::specs::Saved::cleaned_at))]
fn clean_at(file: &mut File, index: usize, name: &[u8])
    requires { index < length file.old.sections }
    ensures { file.new ≡ with_sections file.old (edited_at index (spec.cleaned_at name.now) file.old.sections) }
{
    let section = &file.sections()[index];
    if !is_of_remote(section, name) {
        return;
    }
    if is_emptied(section) {
        file.remove_section(index);
    } else {
        remove_keys(file, index);
    }
}

#[tactic(auto, using(crate::proofs::Edits::on_length))]
fn remove_keys(file: &mut File, index: usize)
    requires { index < length file.old.sections }
    ensures { file.new ≡ with_sections file.old (on_section index spec.cleaned_section file.old.sections) }
{
    file.remove_key(index, b"url");
    file.remove_key(index, b"pushurl");
    file.remove_key(index, b"tagOpt");
    file.remove_key(index, b"fetch");
    file.remove_key(index, b"push");
}

#[tactic(auto, unfolding(crate::specs::Names::remote))]
pub(crate) fn is_of_remote(section: &Section, name: &[u8]) -> bool
    ensures { result ≡ spec.is_of_remote name.now section.now }
{
    is_same_name(section.name.as_bytes(), b"remote") && is_same_sub(&section.sub, Some(name))
}

fn is_emptied(section: &Section) -> bool
    ensures { result ≡ spec.is_emptied section.now }
{
    has_entries(section) && are_saved(section.entries.as_slice())
}

fn has_entries(section: &Section) -> bool
    ensures { result ≡ not (length section.now.entries == 0) }
{
    section.entries.len() != 0
}

fn are_saved(entries: &[(Text, Option<Text>)]) -> bool
    ensures { result ≡ list_all (λ e. spec.is_saved_key e.0) entries.now }
{
    entries.iter().all(|entry| is_saved_key(entry.0.as_bytes()))
}

#[tactic(auto, unfolding(crate::specs::Saved::address_key, crate::specs::Saved::tag_key, crate::specs::Remotes::spec_key))]
fn is_saved_key(key: &[u8]) -> bool
    ensures { result ≡ spec.is_saved_key key.now }
{
    is_same_name(key, b"url")
        || is_same_name(key, b"pushurl")
        || is_same_name(key, b"tagOpt")
        || is_same_name(key, b"fetch")
        || is_same_name(key, b"push")
}

pub(crate) fn is_same_meta(a: &Meta, b: &Meta) -> bool
    ensures { result ≡ spec.is_same_meta a.now b.now }
{
    a.source == b.source
        && a.level == b.level
        && is_same_path(&a.path, &b.path)
        && a.trusted == b.trusted
}

fn is_same_path(a: &Option<Text>, b: &Option<Text>) -> bool
    ensures { result ≡ lookups.is_same_sub a.now b.now }
{
    match b {
        Some(b) => is_same_sub(a, Some(b.as_bytes())),
        None => is_same_sub(a, None),
    }
}

/// Whether addresses of other files are to be cleared: a section of the remote from elsewhere has an address, or one
/// of the file itself an empty address.
#[tactic(auto, unfolding(crate::specs::Saved::clears))]
pub(crate) fn clears(file: &File, name: &[u8], direction: Direction) -> bool
    ensures { result ≡ spec.clears file.now name.now direction }
{
    let meta = file.meta();
    file.sections()
        .iter()
        .any(|section| clears_at(section, meta, name, direction))
}

fn clears_at(section: &Section, meta: &Meta, name: &[u8], direction: Direction) -> bool
    ensures { result ≡ spec.clears_at meta.now name.now direction section.now }
{
    is_of_remote(section, name)
        && has_cleared(
            section.entries.as_slice(),
            address_key(direction),
            !is_same_meta(&section.meta, meta),
        )
}

/// Whether an address is among the entries, or, if `any` isn't asked, an empty one.
fn has_cleared(entries: &[(Text, Option<Text>)], key: &[u8], any: bool) -> bool
    ensures { result ≡ spec.has_cleared key.now any entries.now }
{
    any_cleared(entries, key, any)
}

fn any_cleared(entries: &[(Text, Option<Text>)], key: &[u8], any: bool) -> bool
    ensures { result ≡ list_any (λ e. pieces.is_same_name e.0 key.now
        && option_map_or (λ address. any || spec.is_empty address) e.1 false) entries.now }
{
    entries.iter().any(|entry| is_cleared(entry, key, any))
}

fn is_cleared(entry: &(Text, Option<Text>), key: &[u8], any: bool) -> bool
    ensures { result ≡ (pieces.is_same_name entry.now.0 key.now
        && option_map_or (λ address. any || spec.is_empty address) entry.now.1 false) }
{
    is_same_name(entry.0.as_bytes(), key) && is_cleared_value(&entry.1, any)
}

fn is_cleared_value(value: &Option<Text>, any: bool) -> bool
    ensures { result ≡ option_map_or (λ address. any || spec.is_empty address) value.now false }
{
    match value {
        Some(address) => any || address.is_empty(),
        None => false,
    }
}
