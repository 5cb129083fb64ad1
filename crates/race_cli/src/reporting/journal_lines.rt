//! What a report tells of a journal.

ghost use Rattle.std.specs.Prelude.{◌≡◌, ◌++◌, map, OnOk};
ghost use Rattle.std.specs.List.{flat_map};
ghost use Rattle.race_cli.specs.JournalLines as spec;

use fetch_cli::append_target;
use fetch_journal::Entry;
use fetch_refs::{Change, RefEdit, RefLog, Target};
use fetch_specs::FullName;
use fetch_store::{NoMemory, ObjectId, append_hex, append_number};

/// What was done, at which place, and the number of the pass that did it.
#[tactic(auto, unfolding(crate::specs::JournalLines::entry_line))]
fn append_entry_line(
    out: &mut Vec<u8>,
    word: &[u8],
    place: usize,
    pass: u64,
) -> Result<(), NoMemory>
    ensures { OnOk result (out.new.items ≡ out.old.items ++ spec.entry_line word.now place pass) }
{
    out.extend_from_slice(word)?;
    out.extend_from_slice(b" ")?;
    append_number(out, place)?;
    out.extend_from_slice(b" ")?;
    append_number(out, pass as usize)?;
    out.extend_from_slice(b"\n")?;
    Ok(())
}

#[tactic(auto, unfolding(crate::specs::JournalLines::taken_line))]
fn append_taken_line(out: &mut Vec<u8>, word: &[u8], id: &ObjectId) -> Result<(), NoMemory>
    ensures { OnOk result (out.new.items ≡ out.old.items ++ spec.taken_line word.now id.now) }
{
    out.extend_from_slice(word)?;
    out.extend_from_slice(b" ")?;
    append_hex(out, id)?;
    out.extend_from_slice(b"\n")?;
    Ok(())
}

fn append_taken_lines(out: &mut Vec<u8>, word: &[u8], ids: &[ObjectId]) -> Result<(), NoMemory>
    ensures { OnOk result (out.new.items ≡ out.old.items ++ flat_map (spec.taken_line word.now) ids.now) }
{
    for id in ids {
        append_taken_line(out, word, id)?;
    }
    Ok(())
}

/// The lines of a pack: its ids, and what it says of the border.
#[tactic(auto, unfolding(crate::specs::JournalLines::taken_lines))]
fn append_taken(
    out: &mut Vec<u8>,
    ids: &[ObjectId],
    shallow: &[ObjectId],
    unshallow: &[ObjectId],
) -> Result<(), NoMemory>
    ensures { OnOk result (out.new.items ≡ out.old.items ++ spec.taken_lines ids.now shallow.now unshallow.now) }
{
    append_taken_lines(out, b"has", ids)?;
    append_taken_lines(out, b"shallow", shallow)?;
    append_taken_lines(out, b"unshallow", unshallow)
}

#[tactic(auto, unfolding(crate::specs::JournalLines::set_line))]
fn append_set(out: &mut Vec<u8>, name: &FullName, target: &Target) -> Result<(), NoMemory>
    ensures { OnOk result (out.new.items ≡ out.old.items ++ spec.set_line name.now target.now) }
{
    out.extend_from_slice(b"set ")?;
    out.extend_from_slice(name.as_bytes())?;
    out.extend_from_slice(b" ")?;
    append_target(out, &target.as_ref())?;
    out.extend_from_slice(b"\n")?;
    Ok(())
}

#[tactic(auto, unfolding(crate::specs::JournalLines::gone_line))]
fn append_gone(out: &mut Vec<u8>, name: &FullName) -> Result<(), NoMemory>
    ensures { OnOk result (out.new.items ≡ out.old.items ++ spec.gone_line name.now) }
{
    out.extend_from_slice(b"gone ")?;
    out.extend_from_slice(name.as_bytes())?;
    out.extend_from_slice(b"\n")?;
    Ok(())
}

/// What an edit leaves at its name. One of the reflog alone leaves what stood there, and has no line.
#[tactic(auto, unfolding(crate::specs::JournalLines::edit_line))]
fn append_edit(out: &mut Vec<u8>, edit: &RefEdit) -> Result<(), NoMemory>
    ensures { OnOk result (out.new.items ≡ out.old.items ++ spec.edit_line edit.now) }
{
    match &edit.change {
        Change::Update { log, new, .. } => match log.mode {
            RefLog::AndReference => append_set(out, &edit.name, new),
            RefLog::Only => Ok(()),
        },
        Change::Delete { log, .. } => match log {
            RefLog::AndReference => append_gone(out, &edit.name),
            RefLog::Only => Ok(()),
        },
    }
}

fn append_edits(out: &mut Vec<u8>, edits: &[RefEdit]) -> Result<(), NoMemory>
    ensures { OnOk result (out.new.items ≡ out.old.items ++ flat_map spec.edit_line edits.now) }
{
    for edit in edits {
        append_edit(out, edit)?;
    }
    Ok(())
}

fn append_names(out: &mut Vec<u8>, names: &[FullName]) -> Result<(), NoMemory>
    ensures { OnOk result (out.new.items ≡ out.old.items ++ flat_map spec.gone_line names.now) }
{
    for name in names {
        append_gone(out, name)?;
    }
    Ok(())
}

#[tactic(auto, unfolding(crate::specs::JournalLines::entry_lines))]
fn append_entry(out: &mut Vec<u8>, place: usize, entry: &Entry) -> Result<(), NoMemory>
    ensures { OnOk result (out.new.items ≡ out.old.items ++ spec.entry_lines place entry.now) }
{
    match entry {
        Entry::Take {
            pass,
            ids,
            shallow,
            unshallow,
        } => {
            append_entry_line(out, b"take", place, *pass)?;
            append_taken(
                out,
                ids.as_slice(),
                shallow.as_slice(),
                unshallow.as_slice(),
            )
        }
        Entry::Commit { pass, edits, .. } => {
            append_entry_line(out, b"commit", place, *pass)?;
            append_edits(out, edits.as_slice())
        }
        Entry::Delete { pass, names } => {
            append_entry_line(out, b"delete", place, *pass)?;
            append_names(out, names.as_slice())
        }
    }
}

/// Puts the entries of a journal behind what is there, from place 0 on. After an error a part of them may stand there.
pub fn append_journal(out: &mut Vec<u8>, journal: &[Entry]) -> Result<(), NoMemory>
    ensures { OnOk result (out.new.items ≡ out.old.items ++ spec.journal_lines 0 journal.now) }
{
    for (place, entry) in journal.iter().enumerate() {
        append_entry(out, place, entry)?;
    }
    Ok(())
}
