//! What the report of a race tells of the repository.

ghost use Rattle.std.specs.Prelude.{◌≡◌, ◌++◌, OnOk};
ghost use Rattle.fetch_journal.specs.Replays.{outline};
ghost use Rattle.race_cli.specs.RaceReports as spec;

use fetch_cli::{append_commits, append_ids, append_refs};
use fetch_remote::Repository;
use fetch_store::NoMemory;

/// Puts the references, the border and the ids behind what is there, each in ascending order. After an error a part of them
/// may stand there.
pub fn append_outline(out: &mut Vec<u8>, repo: &Repository) -> Result<(), NoMemory>
    ensures { OnOk result (out.new.items ≡ out.old.items ++ spec.outline_lines (outline repo.now)) }
{
    append_refs(out, repo.refs())?;
    append_commits(out, repo.border().commits())?;
    append_ids(out, repo.store())
}
