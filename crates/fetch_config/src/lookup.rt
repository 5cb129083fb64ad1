//! Looking entries up.

ghost use Rattle.std.specs.Prelude.{◌≡◌, ◌+◌, ◌-◌, ◌^◌, ◌++◌, min, length, option_map, OnOk, IfOk};
ghost use Rattle.std.specs.List.{flat_map};
ghost use Rattle.std.specs.Option.{option_copied};
ghost use Rattle.fetch_config.specs.Lookups as spec;
ghost use Rattle.fetch_config.specs.Numbers.{truth_of, number_of};

use crate::error::Unreadable;
use crate::number::{integer_in, truth_of};
use crate::section::Section;
use crate::text::is_same_name;
use fetch_base::{NoMemory, Text};
use std::alloc::Global;

/// Whether a section's subsection is this one, byte by byte; a section may have none.
pub fn is_same_sub(own: &Option<Text>, sub: Option<&[u8]>) -> bool
    ensures { result ≡ spec.is_same_sub own.now (option_map (λ s. s.now) sub.entry) }
{
    match own {
        Some(own) => match sub {
            Some(sub) => own.as_bytes() == sub,
            None => false,
        },
        None => sub.is_none(),
    }
}

fn is_meant(section: &Section, name: &[u8], sub: Option<&[u8]>, trusted_only: bool) -> bool
    ensures { result ≡ spec.is_meant name.now (option_map (λ s. s.now) sub.entry) trusted_only section.now }
{
    is_same_name(section.name.as_bytes(), name)
        && is_same_sub(&section.sub, sub)
        && (section.meta.trusted || !trusted_only)
}

/// The value of this entry, if it is one of the key, or else the one found before.
#[tactic(auto, unfolding(crate::specs::Lookups::last_or))]
fn later<'a>(
    entry: &'a (Text, Option<Text>),
    key: &[u8],
    found: Option<&'a Option<Text>>,
) -> Option<&'a Option<Text>>
    ensures { option_copied result ≡ spec.last_or (option_copied found.entry) (spec.values_at key.now entry.now) }
{
    if is_same_name(entry.0.as_bytes(), key) {
        Some(&entry.1)
    } else {
        found
    }
}

fn last_at<'a>(
    entries: &'a [(Text, Option<Text>)],
    key: &[u8],
    found: Option<&'a Option<Text>>,
) -> Option<&'a Option<Text>>
    ensures { option_copied result ≡ spec.last_or (option_copied found.entry) (flat_map (spec.values_at key.now) entries.now) }
{
    let mut last = found;
    for entry in entries {
        last = later(entry, key, last);
    }
    last
}

#[tactic(auto, unfolding(crate::specs::Lookups::last_or))]
fn last_in<'a>(
    section: &'a Section,
    name: &[u8],
    sub: Option<&[u8]>,
    key: &[u8],
    trusted_only: bool,
    found: Option<&'a Option<Text>>,
) -> Option<&'a Option<Text>>
    ensures { option_copied result ≡ spec.last_or (option_copied found.entry)
        (spec.values_in name.now (option_map (λ s. s.now) sub.entry) key.now trusted_only section.now) }
{
    if is_meant(section, name, sub, trusted_only) {
        last_at(section.entries.as_slice(), key, found)
    } else {
        found
    }
}

/// The value of the last entry.
pub(crate) fn last_value<'a>(
    sections: &'a [Section],
    name: &[u8],
    sub: Option<&[u8]>,
    key: &[u8],
    trusted_only: bool,
) -> Option<&'a Option<Text>>
    ensures { option_copied result ≡ spec.last_of
        (spec.values_of name.now (option_map (λ s. s.now) sub.entry) key.now trusted_only sections.now) }
{
    let mut last = None;
    for section in sections {
        last = last_in(section, name, sub, key, trusted_only, last);
    }
    last
}

/// The same, of entries that aren't implicit.
#[tactic(auto, unfolding(crate::specs::Lookups::last_or, crate::specs::Lookups::explicit))]
fn later_text<'a>(
    entry: &'a (Text, Option<Text>),
    key: &[u8],
    found: Option<&'a [u8]>,
) -> Option<&'a [u8]>
    ensures { option_map (λ v. v.now) result ≡ spec.last_or (option_map (λ v. v.now) found.entry)
        (spec.explicit (spec.values_at key.now entry.now)) }
{
    if !is_same_name(entry.0.as_bytes(), key) {
        return found;
    }
    match &entry.1 {
        Some(value) => Some(value.as_bytes()),
        None => found,
    }
}

fn last_text_at<'a>(
    entries: &'a [(Text, Option<Text>)],
    key: &[u8],
    found: Option<&'a [u8]>,
) -> Option<&'a [u8]>
    ensures { option_map (λ v. v.now) result ≡ spec.last_or (option_map (λ v. v.now) found.entry)
        (spec.explicit (flat_map (spec.values_at key.now) entries.now)) }
{
    let mut last = found;
    for entry in entries {
        last = later_text(entry, key, last);
    }
    last
}

#[tactic(auto, unfolding(crate::specs::Lookups::last_or, crate::specs::Lookups::explicit))]
fn last_text_in<'a>(
    section: &'a Section,
    name: &[u8],
    sub: Option<&[u8]>,
    key: &[u8],
    trusted_only: bool,
    found: Option<&'a [u8]>,
) -> Option<&'a [u8]>
    ensures { option_map (λ v. v.now) result ≡ spec.last_or (option_map (λ v. v.now) found.entry)
        (spec.explicit (spec.values_in name.now (option_map (λ s. s.now) sub.entry) key.now trusted_only section.now)) }
{
    if is_meant(section, name, sub, trusted_only) {
        last_text_at(section.entries.as_slice(), key, found)
    } else {
        found
    }
}

/// The value of the last entry that isn't implicit.
pub(crate) fn last_text<'a>(
    sections: &'a [Section],
    name: &[u8],
    sub: Option<&[u8]>,
    key: &[u8],
    trusted_only: bool,
) -> Option<&'a [u8]>
    ensures { option_map (λ v. v.now) result ≡ spec.last_of
        (spec.explicit (spec.values_of name.now (option_map (λ s. s.now) sub.entry) key.now trusted_only sections.now)) }
{
    let mut last = None;
    for section in sections {
        last = last_text_in(section, name, sub, key, trusted_only, last);
    }
    last
}

fn count_one(entry: &(Text, Option<Text>), key: &[u8], count: usize) -> usize
    ensures { result ≡ min (count + length (spec.values_at key.now entry.now)) (2 ^ 64 - 1) }
{
    if is_same_name(entry.0.as_bytes(), key) {
        count.saturating_add(1)
    } else {
        count
    }
}

fn count_at(entries: &[(Text, Option<Text>)], key: &[u8], before: usize) -> usize
    ensures { result ≡ min (before + length (flat_map (spec.values_at key.now) entries.now)) (2 ^ 64 - 1) }
{
    let mut count = before;
    for entry in entries {
        count = count_one(entry, key, count);
    }
    count
}

fn count_in(
    section: &Section,
    name: &[u8],
    sub: Option<&[u8]>,
    key: &[u8],
    trusted_only: bool,
    count: usize,
) -> usize
    ensures { result ≡ min (count + length (spec.values_in name.now (option_map (λ s. s.now) sub.entry) key.now trusted_only section.now))
        (2 ^ 64 - 1) }
{
    if is_meant(section, name, sub, trusted_only) {
        count_at(section.entries.as_slice(), key, count)
    } else {
        count
    }
}

/// How many entries are looked at. The count stands still at the end of its type.
fn count(
    sections: &[Section],
    name: &[u8],
    sub: Option<&[u8]>,
    key: &[u8],
    trusted_only: bool,
) -> usize
    ensures { result ≡ min (length (spec.values_of name.now (option_map (λ s. s.now) sub.entry) key.now trusted_only sections.now))
        (2 ^ 64 - 1) }
{
    let mut count = 0;
    for section in sections {
        count = count_in(section, name, sub, key, trusted_only, count);
    }
    count
}

#[tactic(auto, unfolding(crate::specs::Lookups::explicit))]
fn collect_one(
    values: &mut Vec<Text>,
    entry: &(Text, Option<Text>),
    key: &[u8],
) -> Result<(), NoMemory>
    ensures { OnOk result (values.new.items ≡ values.old.items ++ spec.explicit (spec.values_at key.now entry.now)) }
{
    if !is_same_name(entry.0.as_bytes(), key) {
        return Ok(());
    }
    match &entry.1 {
        Some(value) => {
            values.push(value.try_clone()?)?;
            Ok(())
        }
        None => Ok(()),
    }
}

fn collect_at(
    values: &mut Vec<Text>,
    entries: &[(Text, Option<Text>)],
    key: &[u8],
) -> Result<(), NoMemory>
    ensures { OnOk result (values.new.items ≡ values.old.items ++ spec.explicit (flat_map (spec.values_at key.now) entries.now)) }
{
    for entry in entries {
        collect_one(values, entry, key)?;
    }
    Ok(())
}

#[tactic(auto, unfolding(crate::specs::Lookups::explicit))]
fn collect_in(
    values: &mut Vec<Text>,
    section: &Section,
    name: &[u8],
    sub: Option<&[u8]>,
    key: &[u8],
    trusted_only: bool,
) -> Result<(), NoMemory>
    ensures { OnOk result (values.new.items ≡ values.old.items
        ++ spec.explicit (spec.values_in name.now (option_map (λ s. s.now) sub.entry) key.now trusted_only section.now)) }
{
    if is_meant(section, name, sub, trusted_only) {
        return collect_at(values, section.entries.as_slice(), key);
    }
    Ok(())
}

/// The values of the entries that aren't implicit, in order.
pub(crate) fn collect(
    alloc: Global,
    sections: &[Section],
    name: &[u8],
    sub: Option<&[u8]>,
    key: &[u8],
    trusted_only: bool,
) -> Result<Vec<Text>, NoMemory>
    ensures { IfOk result (λ values. values.items
        ≡ spec.explicit (spec.values_of name.now (option_map (λ s. s.now) sub.entry) key.now trusted_only sections.now)) }
{
    let mut values = Vec::new(alloc);
    for section in sections {
        collect_in(&mut values, section, name, sub, key, trusted_only)?;
    }
    Ok(values)
}

/// The last entry as a truth value.
#[tactic(auto, unfolding(crate::specs::Lookups::boolean_of))]
pub(crate) fn boolean(
    sections: &[Section],
    name: &[u8],
    sub: Option<&[u8]>,
    key: &[u8],
    trusted_only: bool,
) -> Option<Result<bool, Unreadable>>
    ensures { result ≡ spec.boolean_of (spec.values_of name.now (option_map (λ s. s.now) sub.entry) key.now trusted_only sections.now) }
{
    let value = last_value(sections, name, sub, key, trusted_only)?;
    match truth_in(value) {
        Some(truth) => Some(Ok(truth)),
        None => Some(Err(Unreadable {
            place: count(sections, name, sub, key, trusted_only).saturating_sub(1),
        })),
    }
}

/// The last entry as a number.
#[tactic(auto, unfolding(crate::specs::Lookups::integer_of))]
pub(crate) fn integer(
    sections: &[Section],
    name: &[u8],
    sub: Option<&[u8]>,
    key: &[u8],
    trusted_only: bool,
) -> Option<Result<i64, Unreadable>>
    ensures { result ≡ spec.integer_of (spec.values_of name.now (option_map (λ s. s.now) sub.entry) key.now trusted_only sections.now) }
{
    let value = last_value(sections, name, sub, key, trusted_only)?;
    match number_in(value) {
        Some(number) => Some(Ok(number)),
        None => Some(Err(Unreadable {
            place: count(sections, name, sub, key, trusted_only).saturating_sub(1),
        })),
    }
}

fn truth_in(value: &Option<Text>) -> Option<bool>
    ensures { result ≡ truth_of value.now }
{
    match value {
        Some(text) => truth_of(Some(text.as_bytes())),
        None => truth_of(None),
    }
}

fn number_in(value: &Option<Text>) -> Option<i64>
    ensures { result ≡ number_of value.now }
{
    match value {
        Some(text) => integer_in(text.as_bytes()),
        None => None,
    }
}
