//! The configuration that a new repository begins with.

ghost use Rattle.std.specs.Prelude.{◌≡◌, IfOk, OnOk, ◌++◌};
ghost use Rattle.fetch_create.specs.Configuration as spec;

use crate::create::{Capabilities, Kind};
use fetch_store::{NoMemory, Text};
use std::alloc::Global;

/// The text of the configuration.
#[tactic(auto, unfolding(crate::specs::Configuration::configuration_of))]
pub(crate) fn configuration_of(
    alloc: Global,
    kind: Kind,
    can: Capabilities,
    hash: fetch_store::Kind,
) -> Result<Text, NoMemory>
    ensures { IfOk result (λ text. text ≡ spec.configuration_of kind can hash) }
{
    let bare = is_bare(kind);
    let mut text = Vec::from_slice(alloc, b"[core]\n")?;
    push_truth(&mut text, b"filemode", can.executable_bit)?;
    push_truth(&mut text, b"bare", bare)?;
    push_truth(&mut text, b"logallrefupdates", !bare)?;
    push_symlinks(&mut text, can.symlink)?;
    push_truth(&mut text, b"ignorecase", can.ignore_case)?;
    push_truth(&mut text, b"precomposeunicode", can.precompose_unicode)?;
    push_version(&mut text, hash)?;
    Ok(Text::from(text))
}

fn is_bare(kind: Kind) -> bool
    ensures { result ≡ spec.is_bare kind }
{
    kind == Kind::Bare
}

fn push_truth(text: &mut Vec<u8>, key: &[u8], value: bool) -> Result<(), NoMemory>
    ensures { OnOk result (text.new.items ≡ text.old.items ++ spec.entry key.now (spec.truth value)) }
{
    let value: &[u8] = if value { b"true" } else { b"false" };
    push_entry(text, key, value)
}

fn push_symlinks(text: &mut Vec<u8>, can: bool) -> Result<(), NoMemory>
    ensures { OnOk result (text.new.items ≡ text.old.items ++ spec.symlinks_in can) }
{
    if can {
        return Ok(());
    }
    push_entry(text, b"symlinks", b"false")
}

fn push_version(text: &mut Vec<u8>, hash: fetch_store::Kind) -> Result<(), NoMemory>
    ensures { OnOk result (text.new.items ≡ text.old.items ++ spec.version_in hash) }
{
    match hash {
        fetch_store::Kind::Sha1 => push_entry(text, b"repositoryformatversion", b"0"),
        fetch_store::Kind::Sha256 => {
            push_entry(text, b"repositoryformatversion", b"1")?;
            text.extend_from_slice(b"[extensions]\n")?;
            push_entry(text, b"objectformat", b"sha256")?;
            Ok(())
        }
    }
}

/// Adds a line: a tab, the key and its value.
fn push_entry(text: &mut Vec<u8>, key: &[u8], value: &[u8]) -> Result<(), NoMemory>
    ensures { OnOk result (text.new.items ≡ text.old.items ++ spec.entry key.now value.now) }
{
    text.push(b'\t')?;
    text.extend_from_slice(key)?;
    text.extend_from_slice(b" = ")?;
    text.extend_from_slice(value)?;
    text.push(b'\n')?;
    Ok(())
}
