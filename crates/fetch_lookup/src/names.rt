//! Which remotes and branches a configuration names, and which remote is meant.

ghost use Rattle.std.specs.Prelude.{◌≡◌, ◌||◌, IfOk, OnOk, option_map, filter};
ghost use Rattle.std.specs.List.{find};
ghost use Rattle.std.specs.Str.{bytes_eq, is_utf8 as is_valid};
ghost use Rattle.fetch_lookup.specs.Names as spec;
ghost use Rattle.fetch_lookup.specs.Ordered.{ascending, placed};

use crate::direction::Direction;
use crate::name::{Name, named};
use crate::utf8::is_utf8;
use fetch_base::{NoMemory, Text};
use fetch_config::{File, Section, is_same_name};
use std::alloc::Global;
use std::collections::BTreeSet;

/// Names in ascending order.
pub type Names = BTreeSet<Text>;

/// The names of the remotes: the subsections of the trusted sections `remote`.
#[tactic(auto, unfolding(crate::specs::Names::remote, crate::specs::Names::remote_names_of))]
pub fn remote_names(alloc: Global, file: &File) -> Result<Names, NoMemory>
    ensures { IfOk result (λ names. names.keys ≡ spec.remote_names_of file.now.sections) }
{
    subsections(alloc, file.sections(), b"remote")
}

/// The names of the branches: the subsections of the trusted sections `branch` that are UTF-8.
#[tactic(auto, unfolding(crate::specs::Names::branch, crate::specs::Names::branch_names_of))]
pub fn branch_names(alloc: Global, file: &File) -> Result<BTreeSet<Text>, NoMemory>
    ensures { IfOk result (λ names. names.keys ≡ spec.branch_names_of file.now.sections) }
{
    let mut names = subsections(alloc, file.sections(), b"branch")?;
    keep_utf8(&mut names);
    Ok(names)
}

/// The remote that is meant where none is named. To push, a trusted `remote.pushDefault` comes first. Else it is the
/// only remote, or `origin` among several.
#[tactic(auto, unfolding(crate::specs::Names::default_name_of))]
pub fn remote_default_name(
    alloc: Global,
    file: &File,
    direction: Direction,
) -> Result<Option<Text>, NoMemory>
    ensures { IfOk result (λ name. name ≡ spec.default_name_of file.now.sections direction) }
{
    match direction {
        Direction::Push => {
            if let Some(name) = push_default(file, true) {
                return Ok(Some(Text::new(alloc, name)?));
            }
        }
        Direction::Fetch => {}
    }
    Ok(only_or_origin(remote_names(alloc, file)?))
}

/// Which remote a branch has: to push, that of `branch.<short>.pushRemote`, or else of `remote.pushDefault`, or else,
/// as to fetch, of `branch.<short>.remote`. None also where that text is neither a place nor UTF-8.
pub fn branch_remote_name(
    alloc: Global,
    file: &File,
    short: &[u8],
    direction: Direction,
) -> Result<Option<Name>, NoMemory>
    ensures { IfOk result (λ name. name ≡ spec.branch_name_of file.now.sections short.now direction) }
{
    let Some(text) = branch_text(file, short, direction) else {
        return Ok(None);
    };
    named(alloc, text)
}

#[tactic(auto, unfolding(crate::specs::Ordered::placed))]
fn add_subsection(
    names: &mut BTreeSet<Text>,
    section: &Section,
    name: &[u8],
) -> Result<(), NoMemory>
    ensures { OnOk result (names.new.keys ≡ placed spec.text_cmp names.old.keys (spec.subsection_in name.now section.now)) }
{
    if !is_same_name(section.name.as_bytes(), name) || !section.meta.trusted {
        return Ok(());
    }
    if let Some(sub) = &section.sub {
        names.insert(sub.try_clone()?)?;
    }
    Ok(())
}

fn subsections(alloc: Global, sections: &[Section], name: &[u8]) -> Result<BTreeSet<Text>, NoMemory>
    ensures { IfOk result (λ names. names.keys ≡ ascending spec.text_cmp (spec.subsections_of name.now sections.now)) }
{
    let mut names = BTreeSet::new(alloc);
    for section in sections {
        add_subsection(&mut names, section, name)?;
    }
    Ok(names)
}

#[tactic(auto, unfolding(crate::specs::Names::remote))]
fn push_default(file: &File, trusted_only: bool) -> Option<&[u8]>
    ensures { option_map (λ s. s.now) result ≡ spec.push_default_of file.now.sections trusted_only }
{
    file.string(b"remote", None, b"pushDefault", trusted_only)
}

#[tactic(auto, unfolding(crate::specs::Names::origin))]
fn is_origin(name: &Text) -> bool
    ensures { result ≡ bytes_eq name.now spec.origin }
{
    name.as_bytes() == b"origin".as_slice()
}

/// The only name, or `origin` among several.
fn only_or_origin(names: Names) -> Option<Text>
    ensures { result ≡ spec.only_or_origin names.keys }
{
    let single = names.len() == 1;
    first_meant(names, single)
}

/// The first name, where it is the only one, or else `origin`.
fn first_meant(names: Names, single: bool) -> Option<Text>
    ensures { result ≡ find (λ name. single || bytes_eq name spec.origin) names.keys }
{
    for name in names {
        if single || is_origin(&name) {
            return Some(name);
        }
    }
    None
}

fn keep_utf8(names: &mut BTreeSet<Text>)
    ensures { names.new.keys ≡ filter is_valid names.old.keys }
{
    names.retain(|name| is_utf8(name.as_bytes()));
}

#[tactic(auto, unfolding(crate::specs::Names::branch))]
pub(crate) fn branch_string<'a>(file: &'a File, short: &[u8], key: &[u8]) -> Option<&'a [u8]>
    ensures { option_map (λ s. s.now) result ≡ spec.branch_string_of file.now.sections short.now key.now }
{
    file.string(b"branch", Some(short), key, false)
}

/// The text that says which remote a branch has.
#[tactic(auto, unfolding(crate::specs::Names::branch_text_of))]
fn branch_text<'a>(file: &'a File, short: &[u8], direction: Direction) -> Option<&'a [u8]>
    ensures { option_map (λ s. s.now) result ≡ spec.branch_text_of file.now.sections short.now direction }
{
    match direction {
        Direction::Push => {
            if let Some(name) = branch_string(file, short, b"pushRemote") {
                return Some(name);
            }
            if let Some(name) = push_default(file, false) {
                return Some(name);
            }
        }
        Direction::Fetch => {}
    }
    branch_string(file, short, b"remote")
}
