//! A fetch over a shared repository.

ghost use Rattle.std.specs.Prelude.{◌≡◌, true, None, Some, IfOk, IfErr, MatchResult};
ghost use Rattle.fetch_conversation.specs.Blame.{BlamesPeer, BlamesInterrupt, is_told};
ghost use Rattle.fetch_conversation.specs.Receiving.{last_question};
ghost use Rattle.fetch_remote.specs.Blame.{BlamesFiles, BlamesWorktrees, SparesFiles, lent_files, lent_trees, told_by};
ghost use Rattle.fetch_journal.specs.Errors.{is_of_peer, is_yes, keep_fault, tree_fault};
ghost use Rattle.fetch_shared.specs.Fetching.{IsSharedFetch, IsSharedRefused, call_of};
ghost use Rattle.fetch_shared.specs.Passes.{IsBack};
ghost use Rattle.fetch_shared.specs.Receipts.{IsReceipt};
ghost use Rattle.fetch_shared.specs.Applying.{is_early};
ghost use Rattle.fetch_shared.specs.Conversed.{line_of};
ghost use Rattle.fetch_shared.specs.Valid.{HasValidInput, is_free};

use crate::applying::apply_in_turns;
use crate::exchange::{Asking, list_and_receive};
use crate::pass::Pass;
use crate::receipt::Receipt;
use crate::shared::SharedRepository;
use fetch_journal::SharedError;
use fetch_remote::phases::apply_options;
use fetch_remote::{FetchOptions, Outcome, Remote};
use fetch_store::{Files, NoMemory};
use fetch_update::Worktrees;
use fetch_wire::{Interrupt, Peer};
use std::alloc::Global;
use std::sync::Wait;
use std::thread::Threads;

/// Fetches from a remote into a shared repository, as `Remote::fetch` does into its own: it lists the references, plans in
/// a turn, asks for what is wanted by that plan, takes the pack in a turn, makes its keep file, judges the mapped
/// references over what the taking left, commits the edits in a turn, and removes the keep file unless it stays. The peer
/// is asked outside the turns. References are written loose.
///
/// After an error the journal has none of the pass's own entries more but the take's, and the commit's where the keep file
/// couldn't be removed. The keep file stands where it was made; where it couldn't be made, the tree that the files tell is as
/// found.
///
/// The pass comes back in both arms: a call with `?` on the whole result would lose it, with its numbers. `Disconnected` and
/// `EditReferences` may be due to what others entered, and are worth one more try; `Collision` isn't.
// Many arguments: the public signature, that of `Remote::fetch` with a pass.
// Long: each stage hands the pass back at its refusal.
pub fn fetch_shared<R: Threads + Wait + Sync, P: Peer, I: Interrupt, F: Files, W: Worktrees>(
    rt: &R,
    alloc: Global,
    shared: &SharedRepository,
    pass: Pass,
    remote: &Remote,
    peer: &mut P,
    interrupt: &mut I,
    files: &mut F,
    worktrees: &mut W,
    options: FetchOptions,
) -> Result<(Pass, Receipt, Outcome), (Pass, Receipt, SharedError)>
    requires { pass.shared ≡ shared.now }
    ensures back { MatchResult result (λ r. IsBack pass r.0) (λ r. IsBack pass r.0) }
    ensures receipt { MatchResult result (λ r. IsReceipt pass r.0 r.1) (λ r. IsReceipt pass r.0 r.1) }
    ensures fetched { IfOk result (λ r. IsSharedFetch (line_of P.answers (P.told peer.old) (P.told peer.new))
        (call_of remote.now options pass r.0 (W.told worktrees.old) (F.told files.old) (F.told files.new)) r.1 r.2) }
    ensures refused { IfErr result (λ r. IsSharedRefused (line_of P.answers (P.told peer.old) (P.told peer.new))
        (call_of remote.now options pass r.0 (W.told worktrees.old) (F.told files.old) (F.told files.new)) r.1 r.2) }
    ensures peer { BlamesPeer (P.faults peer.old) (P.faults peer.new) (is_told (λ r. is_of_peer r.2) result) }
    ensures interrupt { BlamesInterrupt (I.yes interrupt.old) (I.yes interrupt.new) (I.will_stop interrupt.old) (I.will_stop interrupt.new)
        (P.told peer.old) (P.told peer.new) (last_question (λ r. is_yes r.2) result) }
    ensures files { BlamesFiles (lent_files F.may_fail F.told F.faults files.old)
        (lent_files F.may_fail F.told F.faults files.new) (told_by (λ r. keep_fault r.2) result) }
    ensures untouched { SparesFiles result (λ r. r.2.status) (λ r. is_early r.2) options.dry_run
        shared.now.opening.setup.settings.git_dir (files.new ≡ files.old) }
    ensures worktrees { BlamesWorktrees (lent_trees W.told W.asked W.listing W.open_repo W.follow_symref worktrees.old)
        (lent_trees W.told W.asked W.listing W.open_repo W.follow_symref worktrees.new) (told_by (λ r. tree_fault r.2) result) }
    ensures complete { IfErr result (λ r. HasValidInput (line_of P.answers (P.told peer.old) (P.told peer.new))
        (call_of remote.now options pass r.0 (W.told worktrees.old) (F.told files.old) (F.told files.new)) r.1 → is_free r.2 ≡ true) }
{
    let number = pass.number();
    let how = match apply_options(alloc, remote.fetch_tags(), &options) {
        Ok(how) => how,
        Err(NoMemory) => return Err((
            pass,
            receipt(number, None, None, None),
            SharedError::NoMemory,
        )),
    };
    let asking = Asking { remote, options };
    let answer = list_and_receive(rt, alloc, shared, pass, asking, peer, interrupt);
    let (pass, planned, exchange) = match answer {
        Ok(exchange) => exchange,
        Err((pass, planned, e)) => return Err((pass, receipt(number, planned, None, None), e)),
    };
    match apply_in_turns(rt, alloc, shared, pass, &how, exchange, files, worktrees) {
        Ok((pass, judged, place, outcome)) => {
            let receipt = receipt(number, Some(planned), Some(judged), place);
            Ok((pass, receipt, outcome))
        }
        Err((pass, judged, place, e)) => {
            let receipt = receipt(number, Some(planned), judged, place);
            Err((pass, receipt, e))
        }
    }
}

fn receipt(number: u64, planned: Option<u64>, judged: Option<u64>, place: Option<u64>) -> Receipt
    ensures { result ≡ record { pass = number; planned = planned; judged = judged; place = place } }
{
    Receipt {
        pass: number,
        planned,
        judged,
        place,
    }
}
