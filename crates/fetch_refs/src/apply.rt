//! Edits, made one after another.

ghost use Rattle.std.specs.Prelude.{◌≡◌, ◌||◌, not, OnOk, OnErr, IfOk};
ghost use Rattle.std.specs.Option.{option_map};
ghost use Rattle.fetch_refs.specs.Changed.{added, changed_in, logged_in, updated_in, deleted_in};
ghost use Rattle.fetch_refs.specs.Contents.{shown_in, KeepsPlaces, TakesBackIf};
ghost use Rattle.fetch_refs.specs.Journals.{before, now_in, HasRoom};
ghost use Rattle.fetch_refs.specs.Logs as spec;
ghost use Rattle.fetch_refs.specs.Logs.{logging_of};
ghost use Rattle.fetch_refs.specs.Names.{Logs};
ghost use Rattle.fetch_refs.specs.Packed.{packed_by, with_packed};
ghost use Rattle.fetch_refs.specs.Slots.{with_slot};
ghost use Rattle.fetch_refs.specs.Targets.{seen};

use crate::contents::Contents;
use crate::edit::{Change, LogChange, PackedRefs, RefEdit, RefLog};
use crate::journal::{Journal, note};
use crate::log::{LogLine, Signature};
use crate::slot::Slot;
use crate::target::{Target, TargetRef};
use crate::undo::Undo;
use fetch_specs::FullName;
use fetch_store::{Kind, NoMemory, ObjectId};

/// How lines are written.
#[derive(Clone, Copy)]
pub(crate) struct Logger<'a> {
    pub(crate) hash: Kind,
    pub(crate) committer: &'a Signature,
    pub(crate) enabled: bool,
}

/// Makes the edits. After an error some are made, and those can be taken back.
pub(crate) fn apply_all(
    journal: &mut Journal,
    edits: &[RefEdit],
    committer: &Signature,
    logging: bool,
    packed: PackedRefs,
) -> Result<(), NoMemory>
    requires { HasRoom journal.old }
    ensures room { HasRoom journal.new }
    ensures before { before journal.new ≡ before journal.old }
    ensures ok { OnOk result (now_in journal.new ≡ spec.after committer.now logging packed (now_in journal.old) edits.now) }
{
    'edits: for edit in edits {
        apply(journal, edit, committer, logging, packed)?;
    }
    Ok(())
}

fn apply(
    journal: &mut Journal,
    edit: &RefEdit,
    committer: &Signature,
    logging: bool,
    packed: PackedRefs,
) -> Result<(), NoMemory>
    requires { HasRoom journal.old }
    ensures room { HasRoom journal.new }
    ensures before { before journal.new ≡ before journal.old }
    ensures ok { OnOk result (now_in journal.new ≡ spec.applied committer.now logging packed (now_in journal.old) edit.now) }
{
    let logger = Logger {
        hash: journal.contents.hash,
        committer,
        enabled: logging,
    };
    apply_log(journal, edit, &logger)?;
    apply_change(journal, edit, packed)
}

/// Changes the reflog.
fn apply_log(journal: &mut Journal, edit: &RefEdit, logger: &Logger<'_>) -> Result<(), NoMemory>
    requires { HasRoom journal.old }
    ensures room { HasRoom journal.new }
    ensures before { before journal.new ≡ before journal.old }
    ensures ok { OnOk result (now_in journal.new ≡ logged_in (logging_of logger.now) (now_in journal.old) edit.now) }
{
    journal.undo.reserve(1)?;
    let undo = log(&mut journal.contents, edit, logger)?;
    note(&mut journal.undo, undo);
    Ok(())
}

/// Changes the reference.
fn apply_change(journal: &mut Journal, edit: &RefEdit, packed: PackedRefs) -> Result<(), NoMemory>
    requires { HasRoom journal.old }
    ensures room { HasRoom journal.new }
    ensures before { before journal.new ≡ before journal.old }
    ensures ok { OnOk result (now_in journal.new ≡ changed_in packed (now_in journal.old) edit.now) }
{
    journal.undo.reserve(1)?;
    let undo = change(&mut journal.contents, edit, packed)?;
    note(&mut journal.undo, undo);
    Ok(())
}

fn change(
    contents: &mut Contents,
    edit: &RefEdit,
    packed: PackedRefs,
) -> Result<Option<Undo>, NoMemory>
    ensures written { OnOk result (shown_in contents.new ≡ changed_in packed (shown_in contents.old) edit.now) }
    ensures undo { IfOk result (TakesBackIf contents.old contents.new) }
    ensures err { OnErr result (shown_in contents.new ≡ shown_in contents.old) }
    ensures keeps { KeepsPlaces contents.old contents.new }
{
    match &edit.change {
        Change::Update { log, new, .. } => match log.mode {
            RefLog::AndReference => update(contents, &edit.name, new, packed),
            RefLog::Only => Ok(None),
        },
        Change::Delete { log, .. } => match log {
            RefLog::AndReference => delete(contents, &edit.name),
            RefLog::Only => Ok(None),
        },
    }
}

/// Gives a reference a value.
fn update(
    contents: &mut Contents,
    name: &FullName,
    new: &Target,
    packed: PackedRefs,
) -> Result<Option<Undo>, NoMemory>
    ensures written { OnOk result (shown_in contents.new ≡ updated_in packed (shown_in contents.old) name.now new.now) }
    ensures undo { IfOk result (TakesBackIf contents.old contents.new) }
    ensures err { OnErr result (shown_in contents.new ≡ shown_in contents.old) }
    ensures keeps { KeepsPlaces contents.old contents.new }
{
    let value = new.try_clone()?;
    let packed = packed_for(contents, name, new, packed);
    let slot = Slot {
        value: Some(value),
        packed,
    };
    Ok(Some(contents.write(name, slot)?))
}

/// What the packed list has at a name after an update.
fn packed_for(
    contents: &Contents,
    name: &FullName,
    new: &Target,
    packed: PackedRefs,
) -> Option<ObjectId>
    ensures { with_slot (shown_in contents.now).packed name.now result
        ≡ with_packed (shown_in contents.now).packed name.now (packed_by packed new.now) }
{
    match packed {
        PackedRefs::Never => contents.packed_id(name),
        PackedRefs::Only => new.direct_id(),
    }
}

/// Takes a reference away.
fn delete(contents: &mut Contents, name: &FullName) -> Result<Option<Undo>, NoMemory>
    ensures written { OnOk result (shown_in contents.new ≡ deleted_in (shown_in contents.old) name.now) }
    ensures undo { IfOk result (TakesBackIf contents.old contents.new) }
    ensures err { OnErr result (shown_in contents.new ≡ shown_in contents.old) }
    ensures keeps { KeepsPlaces contents.old contents.new }
{
    let slot = Slot {
        value: None,
        packed: None,
    };
    Ok(Some(contents.write(name, slot)?))
}

fn log(
    contents: &mut Contents,
    edit: &RefEdit,
    logger: &Logger<'_>,
) -> Result<Option<Undo>, NoMemory>
    ensures written { OnOk result (shown_in contents.new ≡ logged_in (logging_of logger.now) (shown_in contents.old) edit.now) }
    ensures undo { IfOk result (TakesBackIf contents.old contents.new) }
    ensures err { OnErr result (shown_in contents.new ≡ shown_in contents.old) }
    ensures keeps { KeepsPlaces contents.old contents.new }
{
    match &edit.change {
        Change::Update { log, new, .. } => {
            let line = line_of(logger, &edit.name, log, contents.find(&edit.name), new)?;
            match line {
                Some(line) => Ok(Some(contents.add_line(&edit.name, line)?)),
                None => Ok(None),
            }
        }
        Change::Delete { .. } => contents.clear_lines(&edit.name),
    }
}

/// The line of an update, if it gets one.
fn line_of(
    logger: &Logger<'_>,
    name: &FullName,
    change: &LogChange,
    found: Option<TargetRef<'_>>,
    new: &Target,
) -> Result<Option<LogLine>, NoMemory>
    ensures { IfOk result (λ line. (logs : Logs)
        → added logs name.now line ≡ spec.updated (logging_of logger.now) logs name.now change.now (option_map seen found.entry) new.now) }
{
    let Target::Object(id) = new else {
        return Ok(None);
    };
    if !gets_line(logger.enabled, name, change, found, new) {
        return Ok(None);
    }
    Ok(Some(LogLine {
        old: old_id(logger.hash, found),
        new: *id,
        committer: logger.committer.try_clone()?,
        message: change.message.try_clone()?,
    }))
}

#[tactic(auto, unfolding(crate::specs::Logs::gets_line))]
fn gets_line(
    enabled: bool,
    name: &FullName,
    log: &LogChange,
    found: Option<TargetRef<'_>>,
    new: &Target,
) -> bool
    ensures { result ≡ spec.gets_line enabled name.now log.now (option_map seen found.entry) new.now }
{
    if !is_news(log.mode, found, new) {
        return false;
    }
    if log.force_create_reflog {
        return true;
    }
    if !enabled {
        return false;
    }
    is_logged(name.as_bytes())
}

/// Whether the value is to be logged beside the one found.
fn is_news(mode: RefLog, found: Option<TargetRef<'_>>, new: &Target) -> bool
    ensures { result ≡ (spec.is_only mode || not (spec.is_found new.now (option_map seen found.entry))) }
{
    match (mode, found) {
        (RefLog::Only, _) => true,
        (RefLog::AndReference, None) => true,
        (RefLog::AndReference, Some(found)) => !found.is_same(new),
    }
}

/// Whether a name is logged without being asked for.
#[tactic(auto, unfolding(crate::specs::Logs::is_logged))]
fn is_logged(name: &[u8]) -> bool
    ensures { result ≡ spec.is_logged name.now }
{
    if name == b"HEAD".as_slice() {
        return true;
    }
    if name.starts_with(b"refs/heads/") {
        return true;
    }
    if name.starts_with(b"refs/remotes/") {
        return true;
    }
    name.starts_with(b"refs/notes/")
}

/// The id that a reference has by itself.
fn old_id(hash: Kind, found: Option<TargetRef<'_>>) -> ObjectId
    ensures { result ≡ spec.old_id hash (option_map seen found.entry) }
{
    match found {
        Some(TargetRef::Object(id)) => id,
        _ => null_id(hash),
    }
}

fn null_id(hash: Kind) -> ObjectId
    ensures { result ≡ spec.null_id hash }
{
    ObjectId::null(hash)
}
