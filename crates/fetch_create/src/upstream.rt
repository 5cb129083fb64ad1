//! The section of a configuration by which a branch follows the one that it was cloned from.

ghost use Rattle.std.specs.Prelude.{◌≡◌, ◌⊎◌, if◌then◌else◌, IfOk, IfErr, OnOk, Some, None, true, false};
ghost use Rattle.std.specs.List.{list_any};
ghost use Rattle.std.specs.Str.{is_utf8 as is_valid};
ghost use Rattle.fetch_config.specs.declared.error.ConfigError.TheVariants as errors;
ghost use Rattle.fetch_create.specs.Upstreams as spec;

use fetch_config::{ConfigError, File};
use fetch_specs::{Category, FullName, Item, Match, MatchGroup, RefSpec};
use fetch_store::{Kind, NoMemory, Text};
use std::alloc::Global;

/// The local file with a section for a branch that the remote's refspecs take. None where the name is no such branch, or
/// isn't UTF-8, or a byte can't be kept.
pub fn following(
    alloc: Global,
    local: &File,
    remote: &[u8],
    specs: &[RefSpec],
    kind: Kind,
    name: &FullName,
) -> Result<Option<File>, NoMemory>
    ensures { IfOk result (λ found. found ≡ spec.following local.now remote.now specs.now kind name.now) }
{
    if !is_followed(alloc, specs, kind, name)? {
        return Ok(None);
    }
    with_branch(alloc, local, remote, name)
}

fn is_followed(
    alloc: Global,
    specs: &[RefSpec],
    kind: Kind,
    name: &FullName,
) -> Result<bool, NoMemory>
    ensures { IfOk result (λ holds. holds ≡ spec.is_followed specs.now kind name.now) }
{
    if !is_local(name.category()) || !is_utf8(name.shorten()) {
        return Ok(false);
    }
    maps(alloc, specs, kind, name.as_bytes())
}

fn is_local(category: Option<Category>) -> bool
    ensures { result ≡ spec.is_local category }
{
    matches!(category, Some(Category::LocalBranch))
}

fn is_utf8(text: &[u8]) -> bool
    ensures { result ≡ is_valid text.now }
{
    match str::from_utf8(text) {
        Ok(_) => true,
        Err(_) => false,
    }
}

/// Whether refspecs take a name.
fn maps(alloc: Global, specs: &[RefSpec], kind: Kind, name: &[u8]) -> Result<bool, NoMemory>
    ensures { IfOk result (λ holds. holds ≡ spec.maps specs.now kind name.now) }
{
    let items = [Item {
        full_ref_name: Text::new(alloc, name)?,
    }];
    let group = MatchGroup::from_fetch_specs(specs);
    match group.match_lhs(alloc, &items, kind) {
        Ok(found) => Ok(has_item(found.as_slice())),
        Err(_) => Err(NoMemory),
    }
}

fn has_item(found: &[Match]) -> bool
    ensures { result ≡ list_any spec.is_of_item found.now }
{
    found.iter().any(is_of_item)
}

fn is_of_item(found: &Match) -> bool
    ensures { result ≡ spec.is_of_item found.now }
{
    found.item_index.is_some()
}

/// The file with the section, or None where a byte can't be kept.
fn with_branch(
    alloc: Global,
    local: &File,
    remote: &[u8],
    name: &FullName,
) -> Result<Option<File>, NoMemory>
    ensures { IfOk result (λ found. found ≡ if spec.is_kept remote.now name.now
        then Some (spec.with_branch local.now remote.now name.now) else None) }
{
    let mut file = local.try_clone(alloc)?;
    match push_branch(alloc, &mut file, remote, name) {
        Ok(()) => Ok(Some(file)),
        Err(ConfigError::NoMemory) => Err(NoMemory),
        Err(_) => Ok(None),
    }
}

fn push_branch(
    alloc: Global,
    file: &mut File,
    remote: &[u8],
    name: &FullName,
) -> Result<(), ConfigError>
    ensures ok { OnOk result (file.new ≡ spec.with_branch file.old remote.now name.now) }
    ensures kept { OnOk result (spec.is_kept remote.now name.now ≡ true) }
    ensures refused { IfErr result (λ e. e ≡ errors.NoMemory ⊎ (spec.is_kept remote.now name.now ≡ false)) }
{
    let meta = file.meta().try_clone()?;
    let index = file.push_section(alloc, b"branch", Some(name.shorten()), meta)?;
    file.push_value(alloc, index, b"remote", remote)?;
    file.push_value(alloc, index, b"merge", name.as_bytes())
}
