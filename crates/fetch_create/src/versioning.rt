//! A configuration that says which hash a repository is of.

ghost use Rattle.std.specs.Prelude.{◌≡◌, ◌<◌, if◌then◌else◌, [], ◌∷◌, OnOk, IfSome, length, position, None, Some};
ghost use Rattle.fetch_config.specs.Contents.{with_sections, on_section, with_entry};
ghost use Rattle.fetch_lookup.specs.Edited.{edited_at};
ghost use Rattle.fetch_create.specs.Versioned as spec;

use fetch_config::{File, Section, is_same_name};
use fetch_store::{Kind, NoMemory};
use std::alloc::Global;

/// The file says the version of the hash. SHA-1 is what the first version means, without extensions; SHA-256 is an
/// extension of the next.
#[tactic(auto, unfolding(crate::specs::Versioned::versioned))]
pub fn set_version(alloc: Global, file: &mut File, kind: Kind) -> Result<(), NoMemory>
    ensures { OnOk result (file.new ≡ spec.versioned kind file.old) }
{
    match kind {
        Kind::Sha1 => {
            set_only(alloc, file, b"core", b"repositoryformatversion", b"0")?;
            remove_sections(file, b"extensions");
            Ok(())
        }
        Kind::Sha256 => {
            set_only(alloc, file, b"core", b"repositoryformatversion", b"1")?;
            set_only(alloc, file, b"extensions", b"objectformat", b"sha256")
        }
    }
}

/// The key has one value in all sections of this name.
#[tactic(auto, unfolding(crate::specs::Versioned::with_only))]
fn set_only(
    alloc: Global,
    file: &mut File,
    name: &[u8],
    key: &[u8],
    value: &[u8],
) -> Result<(), NoMemory>
    ensures { OnOk result (file.new ≡ spec.with_only name.now key.now value.now file.old) }
{
    remove_setting(file, name, key);
    add_setting(alloc, file, name, key, value)
}

/// The key goes from all sections of this name.
fn remove_setting(file: &mut File, name: &[u8], key: &[u8])
    ensures { file.new ≡ spec.without_setting name.now key.now file.old }
{
    let mut left = file.section_count();
    'sections: while left > 0 {
        left -= 1;
        remove_key_at(file, left, name, key);
    }
}

fn remove_key_at(file: &mut File, index: usize, name: &[u8], key: &[u8])
    requires { index < length file.old.sections }
    ensures { file.new ≡ with_sections file.old (edited_at index (λ s. spec.cleared_of name.now key.now s ∷ []) file.old.sections) }
{
    let section = &file.sections()[index];
    if is_plain(section, name) {
        file.remove_key(index, key);
    }
}

/// The first section of this name ends with the key and its value, or a new one does.
fn add_setting(
    alloc: Global,
    file: &mut File,
    name: &[u8],
    key: &[u8],
    value: &[u8],
) -> Result<(), NoMemory>
    ensures { OnOk result (file.new ≡ spec.with_setting name.now key.now value.now file.old) }
{
    match first_section(file, name) {
        Some(index) => push_at(alloc, file, index, key, value),
        None => push_new(alloc, file, name, key, value),
    }
}

fn first_section(file: &File, name: &[u8]) -> Option<usize>
    ensures place { result ≡ position (spec.is_plain name.now) file.now.sections }
    ensures within { IfSome result (λ index. index < length file.now.sections) }
{
    file.sections()
        .iter()
        .position(|section| is_plain(section, name))
}

fn push_at(
    alloc: Global,
    file: &mut File,
    index: usize,
    key: &[u8],
    value: &[u8],
) -> Result<(), NoMemory>
    requires { index < length file.old.sections }
    ensures { OnOk result (file.new ≡ with_sections file.old (on_section index (with_entry (key.now, Some value.now)) file.old.sections)) }
{
    match file.push_value(alloc, index, key, value) {
        Ok(()) => Ok(()),
        Err(_) => Err(NoMemory),
    }
}

fn push_new(
    alloc: Global,
    file: &mut File,
    name: &[u8],
    key: &[u8],
    value: &[u8],
) -> Result<(), NoMemory>
    ensures { OnOk result (file.new ≡ with_sections file.old
        (spec.placed None (spec.empty_section file.old.meta name.now) (key.now, Some value.now) file.old.sections)) }
{
    let meta = file.meta().try_clone()?;
    match file.push_section(alloc, name, None, meta) {
        Ok(index) => push_at(alloc, file, index, key, value),
        Err(_) => Err(NoMemory),
    }
}

/// The sections of this name go.
fn remove_sections(file: &mut File, name: &[u8])
    ensures { file.new ≡ spec.without_sections name.now file.old }
{
    let mut left = file.section_count();
    'sections: while left > 0 {
        left -= 1;
        remove_section_at(file, left, name);
    }
}

fn remove_section_at(file: &mut File, index: usize, name: &[u8])
    requires { index < length file.old.sections }
    ensures { file.new ≡ with_sections file.old (edited_at index (λ s. if spec.is_plain name.now s then [] else s ∷ []) file.old.sections) }
{
    let section = &file.sections()[index];
    if is_plain(section, name) {
        file.remove_section(index);
    }
}

fn is_plain(section: &Section, name: &[u8]) -> bool
    ensures { result ≡ spec.is_plain name.now section.now }
{
    is_same_name(section.name.as_bytes(), name) && section.sub.is_none()
}
