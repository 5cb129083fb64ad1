//! What a report tells of a repository.

ghost use Rattle.std.specs.Prelude.{◌≡◌, ◌++◌, OnOk};
ghost use Rattle.std.specs.List.{flat_map};
ghost use Rattle.std.specs.FinMap as map;
ghost use Rattle.fetch_refs.specs.Logs.{lines_of};
ghost use Rattle.fetch_remote.specs.Repositories.{state_of};
ghost use Rattle.fetch_cli.specs.Report as spec;
ghost use Rattle.fetch_cli.specs.ReportLines.{log_line, border_line, id_line};

use crate::reporting::lines::{append_border, append_id, append_log, append_ref};
use fetch_refs::{LogLine, Refs};
use fetch_remote::Repository;
use fetch_scene::full_name;
use fetch_store::{NoMemory, ObjectId, Store};

/// The references, by ascending name.
pub fn append_refs(out: &mut Vec<u8>, refs: &Refs) -> Result<(), NoMemory>
    ensures { OnOk result (out.new.items ≡ out.old.items ++ spec.ref_lines refs.now.names) }
{
    let mut entries = refs.iter();
    'entries: loop {
        match entries.next() {
            Some((name, target)) => append_ref(out, name, &target)?,
            None => return Ok(()),
        }
    }
}

fn append_log_lines(out: &mut Vec<u8>, name: &[u8], lines: &[LogLine]) -> Result<(), NoMemory>
    ensures { OnOk result (out.new.items ≡ out.old.items ++ flat_map (log_line name.now) lines.now) }
{
    for line in lines {
        append_log(out, name, line)?;
    }
    Ok(())
}

/// The reflog of a name. A name that isn't full has none.
fn append_log_of(out: &mut Vec<u8>, refs: &Refs, name: &[u8]) -> Result<(), NoMemory>
    ensures { OnOk result (out.new.items ≡ out.old.items ++ spec.log_lines_at refs.now.logs name.now) }
{
    match full_name(*out.allocator(), name)? {
        Some(full) => append_log_lines(out, name, refs.reflog(&full)),
        None => Ok(()),
    }
}

fn append_logs(out: &mut Vec<u8>, refs: &Refs) -> Result<(), NoMemory>
    ensures { OnOk result (out.new.items ≡ out.old.items ++ spec.log_lines refs.now) }
{
    let mut entries = refs.iter();
    'entries: loop {
        match entries.next() {
            Some((name, _)) => append_log_of(out, refs, name)?,
            None => return Ok(()),
        }
    }
}

/// The commits of a border.
pub fn append_commits(out: &mut Vec<u8>, commits: &[ObjectId]) -> Result<(), NoMemory>
    ensures { OnOk result (out.new.items ≡ out.old.items ++ flat_map border_line commits.now) }
{
    for id in commits {
        append_border(out, id)?;
    }
    Ok(())
}

fn append_each_id(out: &mut Vec<u8>, ids: &[ObjectId]) -> Result<(), NoMemory>
    ensures { OnOk result (out.new.items ≡ out.old.items ++ flat_map id_line ids.now) }
{
    for id in ids {
        append_id(out, id)?;
    }
    Ok(())
}

/// The ids of the stored objects, ascending.
pub fn append_ids(out: &mut Vec<u8>, store: &Store) -> Result<(), NoMemory>
    ensures { OnOk result (out.new.items ≡ out.old.items ++ flat_map id_line (map.keys store.now.objects)) }
{
    match store.ids(*out.allocator()) {
        Ok(ids) => append_each_id(out, &ids),
        // Ids are refused only where memory runs out.
        Err(_) => Err(NoMemory),
    }
}

/// The references, their reflogs, the border and the ids.
#[tactic(auto, unfolding(crate::specs::Report::state_lines))]
pub fn append_state(out: &mut Vec<u8>, repo: &Repository) -> Result<(), NoMemory>
    ensures { OnOk result (out.new.items ≡ out.old.items ++ spec.state_lines (state_of repo.now)) }
{
    append_refs(out, repo.refs())?;
    append_logs(out, repo.refs())?;
    append_commits(out, repo.border().commits())?;
    append_ids(out, repo.store())
}
