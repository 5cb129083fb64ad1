//! Commits as they are read, and how many reads there were.

ghost use Rattle.std.specs.Prelude.{◌≡◌, ◌+◌, MatchOption};
ghost use Rattle.std.specs.Iterator.{YieldsFirst};
ghost use Rattle.std.specs.Option.{option_map};
ghost use Rattle.fetch_objects.specs.References.{parents_left};
ghost use Rattle.fetch_update.specs.Dated.{commit_at, seconds_in};

use fetch_store::{ObjectId, Objects, Parents, Steps};
use std::sync::ledger::Ledger;

/// A commit's seconds. A commit that is read is one step.
pub(crate) fn read_commit<O: Objects, L: Ledger>(
    objects: &O,
    id: &ObjectId,
    steps: &mut Steps<L>,
) -> Option<u64>
    ensures seconds { result ≡ option_map seconds_in (commit_at (O.graph objects.now) id.now) }
    ensures step { MatchOption result (steps.new ≡ steps.old) (λ _. steps.new ≡ steps.old + 1) }
{
    match objects.kind_of(id) {
        Some(kind) if kind.is_commit() => {
            steps.tick();
            Some(objects.seconds(id).unwrap_or(0))
        }
        _ => None,
    }
}

/// The next of a commit's parents. A parent link that is read is one step.
pub(crate) fn read_parent<L: Ledger>(
    parents: &mut Parents<'_>,
    steps: &mut Steps<L>,
) -> Option<ObjectId>
    ensures parent { YieldsFirst parents_left parents.old result parents.new }
    ensures step { MatchOption result (steps.new ≡ steps.old) (λ _. steps.new ≡ steps.old + 1) }
{
    match parents.next() {
        Some(link) => {
            steps.tick();
            Some(link)
        }
        None => None,
    }
}
