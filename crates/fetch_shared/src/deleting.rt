//! Deletions of branches of a shared repository.

ghost use Rattle.std.specs.Prelude.{◌≡◌, ◌≢◌, None, [], Ok, IfOk, IfErr, MatchResult};
ghost use Rattle.std.specs.Bool.{OnTrue};
ghost use Rattle.fetch_remote.specs.Blame.{BlamesWorktrees, lent_trees, told_by};
ghost use Rattle.fetch_remote.specs.Deleting.{in_order};
ghost use Rattle.fetch_shared.specs.Deleting.{HasDeleted, HasEntered, IsUndeleted, is_unlocal};
ghost use Rattle.fetch_journal.specs.Errors.{tree_fault_deleting};
ghost use Rattle.fetch_journal.specs.Journals.{entries_of};
ghost use Rattle.fetch_shared.specs.Passes.{IsBack};
ghost use Rattle.fetch_journal.specs.declared.error.SharedError.TheVariants as errors;

use crate::pass::Pass;
use crate::receipt::Receipt;
use crate::shared::SharedRepository;
use fetch_journal::SharedError;
use fetch_remote::deletable;
use fetch_specs::FullName;
use fetch_update::Worktrees;
use std::alloc::Global;
use std::sync::Wait;

/// Deletes local branches that are checked out nowhere, with their reflogs, in one turn. A branch that isn't there is
/// no fault, and the configuration is left alone. No name at all is Ok at once, without a receipt. After an error the
/// journal has no entry more of the pass. `Delete` tells the first name that is no local branch, a fault of the work
/// trees, whose count rose then, or the first branch that is checked out.
///
/// After `close`, `Repository::delete_local_branches` with the same names takes their sections out of `config`.
pub fn delete_shared<R: Wait, W: Worktrees>(
    rt: &R,
    alloc: Global,
    shared: &SharedRepository,
    pass: Pass,
    names: &[FullName],
    worktrees: &mut W,
) -> Result<(Pass, Option<Receipt>), (Pass, SharedError)>
    requires { pass.shared ≡ shared.now }
    ensures nothing { names.now ≡ [] → (result ≡ Ok (pass, None)) × (worktrees.new ≡ worktrees.old) }
    ensures back { MatchResult result (λ r. IsBack pass r.0) (λ r. IsBack pass r.0) }
    ensures deleted { names.now ≢ [] → IfOk result (λ r. HasDeleted (W.told worktrees.old) (in_order names.now) pass r.0 r.1) }
    ensures refused { IfErr result (λ r. IsUndeleted (W.told worktrees.old) (in_order names.now) r.1) }
    ensures none { IfErr result (λ r. entries_of pass.number r.0.front ≡ entries_of pass.number pass.front) }
    ensures unasked { IfErr result (λ r. OnTrue (is_unlocal r.1) (worktrees.new ≡ worktrees.old)) }
    ensures worktrees { BlamesWorktrees (lent_trees W.told W.asked W.listing W.open_repo W.follow_symref worktrees.old)
        (lent_trees W.told W.asked W.listing W.open_repo W.follow_symref worktrees.new) (told_by (λ r. tree_fault_deleting r.1) result) }
{
    if names.is_empty() {
        return Ok((pass, None));
    }
    match deletable(alloc, names, worktrees) {
        Ok(names) => enter(rt, alloc, shared, pass, names.as_slice()),
        Err(cause) => Err((pass, SharedError::from(cause))),
    }
}

/// Enters a deletion of these names. Out of memory alone refuses it.
fn enter<R: Wait>(
    rt: &R,
    alloc: Global,
    shared: &SharedRepository,
    pass: Pass,
    names: &[FullName],
) -> Result<(Pass, Option<Receipt>), (Pass, SharedError)>
    requires { pass.shared ≡ shared.now }
    ensures back { MatchResult result (λ r. IsBack pass r.0) (λ r. IsBack pass r.0) }
    ensures entered { IfOk result (λ r. HasEntered names.now pass r.0 r.1) }
    ensures memory { IfErr result (λ r. r.1 ≡ errors.NoMemory) }
    ensures none { IfErr result (λ r. entries_of pass.number r.0.front ≡ entries_of pass.number pass.front) }
{
    let number = pass.number();
    let (pass, answer) = shared.delete(rt, alloc, pass, names);
    match answer {
        Ok(place) => {
            let receipt = Receipt {
                pass: number,
                planned: Some(place),
                judged: Some(place),
                place: Some(place),
            };
            Ok((pass, Some(receipt)))
        }
        Err(e) => Err((pass, e)),
    }
}
