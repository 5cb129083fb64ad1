//! A fetch that is prepared.

ghost use Rattle.std.specs.Prelude.{◌≡◌, true, Option, Some, IfOk, IfErr};
ghost use Rattle.fetch_lines.specs.Talks.{Talk};
ghost use Rattle.fetch_conversation.specs.Errors.{is_stopped, is_client};
ghost use Rattle.fetch_conversation.specs.Receiving.{last_question};
ghost use Rattle.fetch_remote.specs.Errors.{receiving, is_free};
ghost use Rattle.fetch_remote.specs.Fetched.{IsFetched};
ghost use Rattle.fetch_remote.specs.Refused.{IsRefused};
ghost use Rattle.fetch_remote.specs.Repositories.{state_of, setup_of};
ghost use Rattle.fetch_remote.specs.Applying.{is_early};
ghost use Rattle.fetch_remote.specs.Steps.{lent, prepared_of, given_by, asked_by, HasListed, ReceivesBy};
ghost use Rattle.fetch_remote.specs.Valid.{HasValidInput};
ghost use Rattle.fetch_conversation.specs.Blame.{BlamesPeer, BlamesInterrupt, is_told};
ghost use Rattle.fetch_remote.specs.Blame.{BlamesFiles, BlamesWorktrees, SparesFiles, fault_in, keep_fault_in};
ghost use Rattle.fetch_remote.specs.Blame.{lent_files, lent_trees, told_by};

use crate::fetch;
use crate::fetching::apply_options;
use crate::fetching::applying::apply_reply;
use crate::fetching::exchange::negotiate_and_receive;
use crate::fetching::outcome::Outcome;
use crate::fetching::prepared::Prepared;
use crate::remote::Remote;
use crate::repository::Repository;
use fetch_conversation::Progress;
use fetch_negotiate::Shallow;
use fetch_store::Files;
use fetch_update::{RefLogMessage, Worktrees};
use fetch_wire::{Interrupt, Peer, RefMap};
use std::alloc::Global;
use std::thread::Threads;

/// A fetch whose references were listed. Dropped, it changes nothing.
#[derive(Drop)]
pub struct Prepare<'a, P, L = Prepared> {
    pub(crate) remote: &'a Remote,
    pub(crate) peer: &'a mut P,
    pub(crate) prepared: L,
}

impl<'a, P: Peer> Prepare<'a, P> {
    /// What was listed, mapped.
    pub fn ref_map(&self) -> &RefMap
        ensures { result.now ≡ (prepared_of self.now).listed.ref_map }
    {
        &self.prepared.listed.ref_map
    }

    /// The same, as a dry run or not.
    pub fn with_dry_run(self, enabled: bool) -> Self
        ensures same_reference { (lent result).ghost_name ≡ (lent self.entry).ghost_name }
        ensures peer { (lent result).now ≡ (lent self.entry).now }
        ensures chosen { prepared_of result ≡ record (prepared_of self.entry) {
          options = record (prepared_of self.entry).options { dry_run = enabled };
        } }
    {
        let mut prepare = self;
        prepare.prepared.options.dry_run = enabled;
        prepare
    }

    /// The same, with references that are written packed alone, or loose.
    pub fn with_write_packed_refs_only(self, enabled: bool) -> Self
        ensures same_reference { (lent result).ghost_name ≡ (lent self.entry).ghost_name }
        ensures peer { (lent result).now ≡ (lent self.entry).now }
        ensures chosen { prepared_of result ≡ record (prepared_of self.entry) {
          options = record (prepared_of self.entry).options { write_packed_refs_only = enabled };
        } }
    {
        let mut prepare = self;
        prepare.prepared.options.write_packed_refs_only = enabled;
        prepare
    }

    /// The same, with what the reflogs say.
    pub fn with_reflog_message(self, message: RefLogMessage) -> Self
        ensures same_reference { (lent result).ghost_name ≡ (lent self.entry).ghost_name }
        ensures peer { (lent result).now ≡ (lent self.entry).now }
        ensures chosen { prepared_of result ≡ record (prepared_of self.entry) {
          options = record (prepared_of self.entry).options { reflog_message = Some message };
        } }
    {
        let Prepare {
            remote,
            peer,
            mut prepared,
        } = self;
        prepared.options.reflog_message = Some(message);
        Prepare {
            remote,
            peer,
            prepared,
        }
    }

    /// The same, with a change of the history's depth.
    pub fn with_shallow(self, shallow: Shallow) -> Self
        ensures same_reference { (lent result).ghost_name ≡ (lent self.entry).ghost_name }
        ensures peer { (lent result).now ≡ (lent self.entry).now }
        ensures chosen { prepared_of result ≡ record (prepared_of self.entry) {
          options = record (prepared_of self.entry).options { shallow = shallow };
        } }
    {
        let Prepare {
            remote,
            peer,
            mut prepared,
        } = self;
        prepared.options.shallow = shallow;
        Prepare {
            remote,
            peer,
            prepared,
        }
    }

    /// Asks for what is wanted and isn't there, and goes on as `Remote::fetch` does from there. The interrupt is asked before
    /// each receive.
    ///
    /// After an error references, reflogs, objects, border and files are as `Remote::fetch` leaves them.
    // Many arguments: the public signature, that of a fetch without its options.
    pub fn receive<R: Threads + Sync, Q: Progress, I: Interrupt, F: Files, W: Worktrees>(
        self,
        rt: &R,
        alloc: Global,
        repo: &mut Repository,
        progress: &mut Q,
        interrupt: &mut I,
        files: &mut F,
        worktrees: &mut W,
    ) -> Result<Outcome, fetch::Error>
        // `self.exit.1.0` is the reference to the peer.
        ensures received { ReceivesBy P.answers (P.told (lent self.entry).now) (P.told self.exit.1.0.now)
            (W.told worktrees.old) (F.told files.old) (F.told files.new)
            (given_by (prepared_of self.entry) (setup_of repo.old)) (state_of repo.old) (state_of repo.new)
            (prepared_of self.entry).listed result }
        // Whatever conversation listed the references, that one and this call together are the fetch.
        ensures fetched { IfOk result (λ outcome. (begun : Option Talk)
            → HasListed P.answers begun (P.told (lent self.entry).now) (asked_by (prepared_of self.entry) (setup_of repo.old))
            (prepared_of self.entry).listed
            → IsFetched P.answers begun (P.told self.exit.1.0.now) (W.told worktrees.old) (F.told files.old) (F.told files.new)
            (given_by (prepared_of self.entry) (setup_of repo.old)) (state_of repo.old) (state_of repo.new) outcome) }
        ensures refused { IfErr result (λ e. (begun : Option Talk)
            → HasListed P.answers begun (P.told (lent self.entry).now) (asked_by (prepared_of self.entry) (setup_of repo.old))
            (prepared_of self.entry).listed
            → IsRefused P.answers begun (P.told self.exit.1.0.now) (W.told worktrees.old) (F.told files.old) (F.told files.new)
            (given_by (prepared_of self.entry) (setup_of repo.old)) (state_of repo.old) (state_of repo.new) (receiving e)) }
        ensures complete { IfErr result (λ e. (begun : Option Talk)
            → HasListed P.answers begun (P.told (lent self.entry).now) (asked_by (prepared_of self.entry) (setup_of repo.old))
            (prepared_of self.entry).listed
            → HasValidInput begun (P.told self.exit.1.0.now) (W.told worktrees.old) (given_by (prepared_of self.entry) (setup_of repo.old))
            (state_of repo.old) → is_free (receiving e) ≡ true) }
        ensures setup { setup_of repo.new ≡ setup_of repo.old }
        ensures peer { BlamesPeer (P.faults (lent self.entry).now) (P.faults self.exit.1.0.now) (is_told is_client result) }
        ensures interrupt { BlamesInterrupt (I.yes interrupt.old) (I.yes interrupt.new) (I.will_stop interrupt.old)
            (I.will_stop interrupt.new) (P.told (lent self.entry).now) (P.told self.exit.1.0.now) (last_question is_stopped result) }
        ensures files { BlamesFiles (lent_files F.may_fail F.told F.faults files.old)
            (lent_files F.may_fail F.told F.faults files.new) (told_by keep_fault_in result) }
        ensures untouched { SparesFiles result (λ outcome. outcome.status) is_early (prepared_of self.entry).options.dry_run
            (setup_of repo.old).settings.git_dir (files.new ≡ files.old) }
        ensures worktrees { BlamesWorktrees (lent_trees W.told W.asked W.listing W.open_repo W.follow_symref worktrees.old)
            (lent_trees W.told W.asked W.listing W.open_repo W.follow_symref worktrees.new) (told_by fault_in result) }
    {
        let Prepare {
            remote,
            peer,
            prepared,
        } = self;
        fetch_on(
            rt, alloc, remote, prepared, repo, peer, progress, interrupt, files, worktrees,
        )
    }
}

/// Asks for what is wanted of what was listed, and applies what is received. The interrupt is asked once before each receive.
///
/// After an error references, reflogs, objects, border and files are as `Remote::fetch` leaves them.
// Many arguments: those of `receive`, with what was prepared.
pub fn fetch_on<R: Threads + Sync, P: Peer, Q: Progress, I: Interrupt, F: Files, W: Worktrees>(
    rt: &R,
    alloc: Global,
    remote: &Remote,
    prepared: Prepared,
    repo: &mut Repository,
    peer: &mut P,
    progress: &mut Q,
    interrupt: &mut I,
    files: &mut F,
    worktrees: &mut W,
) -> Result<Outcome, fetch::Error>
    ensures received { ReceivesBy P.answers (P.told peer.old) (P.told peer.new) (W.told worktrees.old)
        (F.told files.old) (F.told files.new)
        (given_by (record { remote = remote.now; listed = prepared.listed; options = prepared.options }) (setup_of repo.old))
        (state_of repo.old) (state_of repo.new) prepared.listed result }
    ensures fetched { IfOk result (λ outcome. (begun : Option Talk)
        → HasListed P.answers begun (P.told peer.old)
        (asked_by (record { remote = remote.now; listed = prepared.listed; options = prepared.options }) (setup_of repo.old))
        prepared.listed
        → IsFetched P.answers begun (P.told peer.new) (W.told worktrees.old) (F.told files.old) (F.told files.new)
        (given_by (record { remote = remote.now; listed = prepared.listed; options = prepared.options }) (setup_of repo.old))
        (state_of repo.old) (state_of repo.new) outcome) }
    ensures refused { IfErr result (λ e. (begun : Option Talk)
        → HasListed P.answers begun (P.told peer.old)
        (asked_by (record { remote = remote.now; listed = prepared.listed; options = prepared.options }) (setup_of repo.old))
        prepared.listed
        → IsRefused P.answers begun (P.told peer.new) (W.told worktrees.old) (F.told files.old) (F.told files.new)
        (given_by (record { remote = remote.now; listed = prepared.listed; options = prepared.options }) (setup_of repo.old))
        (state_of repo.old) (state_of repo.new) (receiving e)) }
    ensures complete { IfErr result (λ e. (begun : Option Talk)
        → HasListed P.answers begun (P.told peer.old)
        (asked_by (record { remote = remote.now; listed = prepared.listed; options = prepared.options }) (setup_of repo.old))
        prepared.listed
        → HasValidInput begun (P.told peer.new) (W.told worktrees.old)
        (given_by (record { remote = remote.now; listed = prepared.listed; options = prepared.options }) (setup_of repo.old))
        (state_of repo.old) → is_free (receiving e) ≡ true) }
    ensures setup { setup_of repo.new ≡ setup_of repo.old }
    ensures peer { BlamesPeer (P.faults peer.old) (P.faults peer.new) (is_told is_client result) }
    ensures interrupt { BlamesInterrupt (I.yes interrupt.old) (I.yes interrupt.new) (I.will_stop interrupt.old)
        (I.will_stop interrupt.new) (P.told peer.old) (P.told peer.new) (last_question is_stopped result) }
    ensures files { BlamesFiles (lent_files F.may_fail F.told F.faults files.old)
        (lent_files F.may_fail F.told F.faults files.new) (told_by keep_fault_in result) }
    ensures untouched { SparesFiles result (λ outcome. outcome.status) is_early prepared.options.dry_run
        (setup_of repo.old).settings.git_dir (files.new ≡ files.old) }
    ensures worktrees { BlamesWorktrees (lent_trees W.told W.asked W.listing W.open_repo W.follow_symref worktrees.old)
        (lent_trees W.told W.asked W.listing W.open_repo W.follow_symref worktrees.new) (told_by fault_in result) }
{
    let Prepared { listed, options } = prepared;
    let how = apply_options(alloc, remote.fetch_tags(), &options)?;
    let exchange = negotiate_and_receive(
        rt, alloc, remote, repo, listed, peer, progress, interrupt, &options,
    )?;
    apply_reply(alloc, repo, &how, exchange, files, worktrees)
}
