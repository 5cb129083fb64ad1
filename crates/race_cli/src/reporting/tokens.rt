//! How the report of a race tells a refusal.

ghost use Rattle.std.specs.Prelude.{◌≡◌, ◌++◌, OnOk};
ghost use Rattle.std.specs.List.{flat_map};
ghost use Rattle.race_cli.specs.SharedTokens as spec;

use fetch_cli::append_token;
use fetch_cli::tokens::{
    append_both, append_count, append_digits, append_found, append_text, append_word,
};
use fetch_journal::SharedError;
use fetch_refs::Target;
use fetch_remote::{OpenError, delete};
use fetch_specs::FullName;
use fetch_store::{NoMemory, Text};

/// The token of a configuration that can't be read.
#[tactic(auto, unfolding(crate::specs::SharedTokens::open_token))]
fn append_open(out: &mut Vec<u8>, refusal: &OpenError) -> Result<(), NoMemory>
    ensures { OnOk result (out.new.items ≡ out.old.items ++ spec.open_token refusal.now) }
{
    match refusal {
        OpenError::Io => append_word(out, b"Io"),
        OpenError::Missing { path } => append_text(out, b"Missing", path.as_bytes()),
        OpenError::Config { line } => append_count(out, b"Config", *line),
        OpenError::Override { text } => append_text(out, b"Override", text.as_bytes()),
        OpenError::NoMemory => append_word(out, b"NoMemory"),
    }
}

fn append_cleanup(out: &mut Vec<u8>, cause: delete::CleanupError) -> Result<(), NoMemory>
    ensures { OnOk result (out.new.items ≡ out.old.items ++ spec.cleanup_token cause) }
{
    match cause {
        delete::CleanupError::Write => append_word(out, b"Write"),
        delete::CleanupError::Commit => append_word(out, b"Commit"),
    }
}

#[tactic(auto, unfolding(crate::specs::SharedTokens::spaced))]
fn append_spaced(out: &mut Vec<u8>, text: &[u8]) -> Result<(), NoMemory>
    ensures { OnOk result (out.new.items ≡ out.old.items ++ spec.spaced text.now) }
{
    out.extend_from_slice(b" ")?;
    out.extend_from_slice(text)?;
    Ok(())
}

fn append_texts(out: &mut Vec<u8>, texts: &[Text]) -> Result<(), NoMemory>
    ensures { OnOk result (out.new.items ≡ out.old.items ++ flat_map spec.spaced texts.now) }
{
    for text in texts {
        append_spaced(out, text.as_bytes())?;
    }
    Ok(())
}

fn append_names(out: &mut Vec<u8>, names: &[FullName]) -> Result<(), NoMemory>
    ensures { OnOk result (out.new.items ≡ out.old.items ++ flat_map spec.spaced names.now) }
{
    for name in names {
        append_spaced(out, name.as_bytes())?;
    }
    Ok(())
}

/// A branch, and where it is checked out.
#[tactic(auto, unfolding(crate::specs::SharedTokens::checked_out_token))]
fn append_checked_out(
    out: &mut Vec<u8>,
    name: &FullName,
    directories: &[Text],
) -> Result<(), NoMemory>
    ensures { OnOk result (out.new.items ≡ out.old.items ++ spec.checked_out_token name.now directories.now) }
{
    append_text(out, b"CheckedOut", name.as_bytes())?;
    append_texts(out, directories)
}

/// The branches whose sections stand, and why.
#[tactic(auto, unfolding(crate::specs::SharedTokens::left_token))]
fn append_left(
    out: &mut Vec<u8>,
    names: &[FullName],
    cause: delete::CleanupError,
) -> Result<(), NoMemory>
    ensures { OnOk result (out.new.items ≡ out.old.items ++ spec.left_token names.now cause) }
{
    append_word(out, b"Cleanup")?;
    append_names(out, names)?;
    append_word(out, b" ")?;
    append_cleanup(out, cause)
}

#[tactic(auto, unfolding(crate::specs::SharedTokens::delete_token))]
fn append_delete(out: &mut Vec<u8>, refusal: &delete::Error) -> Result<(), NoMemory>
    ensures { OnOk result (out.new.items ≡ out.old.items ++ spec.delete_token refusal.now) }
{
    match refusal {
        delete::Error::NotLocal { name } => append_text(out, b"NotLocal", name.as_bytes()),
        delete::Error::WorktreeListing => append_word(out, b"WorktreeListing"),
        delete::Error::OpenWorktreeRepo => append_word(out, b"OpenWorktreeRepo"),
        delete::Error::FollowSymref => append_word(out, b"FollowSymref"),
        delete::Error::CheckedOut {
            name,
            worktree_dirs,
        } => append_checked_out(out, name, worktree_dirs.as_slice()),
        delete::Error::ConfigRead { cause } => append_open(out, cause),
        delete::Error::Cleanup { references, source } => {
            append_left(out, references.as_slice(), *source)
        }
        delete::Error::NoMemory => append_word(out, b"NoMemory"),
    }
}

/// An edit that doesn't find what it expects: its name, and what stands there.
#[tactic(auto, unfolding(crate::specs::SharedTokens::edit_token))]
fn append_edit(out: &mut Vec<u8>, name: &FullName, found: &Option<Target>) -> Result<(), NoMemory>
    ensures { OnOk result (out.new.items ≡ out.old.items ++ spec.edit_token name.now found.now) }
{
    append_text(out, b"EditReferences", name.as_bytes())?;
    append_word(out, b" ")?;
    append_found(out, found)
}

/// Puts the name of a refusal and what it keeps behind what is there. A refused fetch or deletion is told as what it wraps.
/// After an error a part of it may stand there.
#[tactic(auto, unfolding(crate::specs::SharedTokens::shared_token))]
pub fn append_shared_token(out: &mut Vec<u8>, refusal: &SharedError) -> Result<(), NoMemory>
    ensures { OnOk result (out.new.items ≡ out.old.items ++ spec.shared_token refusal.now) }
{
    match refusal {
        SharedError::NotClosed { link } => append_both(out, b"NotClosed", &link.from, &link.to),
        SharedError::Disconnected { link } => {
            append_both(out, b"Disconnected", &link.from, &link.to)
        }
        SharedError::Collision { id } => append_digits(out, b"Collision", id),
        SharedError::EditReferences { name, found } => append_edit(out, name, found),
        SharedError::Fetch(cause) => append_token(out, cause),
        SharedError::Delete(cause) => append_delete(out, cause),
        SharedError::NoMemory => append_word(out, b"NoMemory"),
    }
}
