//! A clone is fetched into.

ghost use Rattle.std.specs.Prelude.{◌≡◌, Some, None, Err, IfOk, IfErr, IfSome, OnOk};
ghost use Rattle.std.specs.Fn.{CalledAtMut};
ghost use Rattle.fetch_remote.specs.RepositoryValues.{RepositoryValue};
ghost use Rattle.fetch_clone.specs.Cloned.{IsCloned, IsUncloned};
ghost use Rattle.fetch_clone.specs.Counted.{BlamesLent, CountsBy, Later, counts_by, meters, tree_meters};
ghost use Rattle.fetch_clone.specs.CloneStates.{without_repo};
ghost use Rattle.fetch_clone.specs.Reached.{line, ways};
ghost use Rattle.fetch_init.specs.declared.clone.fetch.Error.TheVariants as errors;

use crate::clone_state::CloneState;
use crate::fetching::completing::completed;
use crate::fetching::saving::save;
use crate::prepare_fetch::{ConfigureFault, PrepareFetch};
use fetch_conversation::Progress;
use fetch_init::clone::fetch::Error;
use fetch_remote::connect::Connect;
use fetch_remote::{Outcome, Remote, Repository};
use fetch_store::Files;
use fetch_update::Worktrees;
use fetch_wire::Interrupt;
use std::alloc::Global;
use std::thread::Threads;

impl<F, C, R, G> PrepareFetch<F, C, R, G>
where
    F: Files + Drop,
    C: Connect + Drop,
    R: FnMut(Remote) -> Result<Remote, ConfigureFault> + Drop,
    G: FnMut(&mut C::Peer) -> Result<(), ConfigureFault> + Drop,
{
    /// Fetches into the repository that was created, and gives it. The remote is saved in the file `config` before, and `HEAD`
    /// takes what the remote says afterwards. Each peer is taken back before the next one is made, and before the call returns.
    ///
    /// After success it is `Consumed`, and nothing is done or changed. After any other refusal it may be called again; what was
    /// done before the refusal stays. Where the maker fails nobody can ask it why: keep what you know beside it.
    pub fn fetch_only<T: Threads + Sync, Q: Progress, I: Interrupt, W: Worktrees>(
        &mut self,
        rt: &T,
        progress: &mut Q,
        interrupt: &mut I,
        worktrees: &mut W,
    ) -> Result<(Repository, Outcome), Error>
        requires remote { R.IsAlwaysCallable self.old.configure_remote }
        requires connection { G.IsAlwaysCallable self.old.configure_connection }
        ensures consumed { self.old.draft.repo ≡ None → (result ≡ Err errors.Consumed) × (self.new ≡ self.old) }
        ensures cloned { IfOk result (λ done. (found : RepositoryValue) × (self.old.draft.repo ≡ Some found)
            × IsCloned (I.will_stop interrupt.old) (I.will_stop interrupt.new)
            (λ remote answer. R.step self.old.configure_remote remote answer self.new.configure_remote)
            (ways (CalledAtMut G.FnMut) C.Peer.told C.Peer.answers)
            (line (C.left self.old.maker) (C.taken self.old.maker) (C.addresses self.old.maker) self.old.configure_connection)
            (line (C.left self.new.maker) (C.taken self.new.maker) (C.addresses self.new.maker) self.new.configure_connection)
            (W.told worktrees.old) (F.told self.old.files) (F.told self.new.files) (without_repo self.old.draft) found done.0 done.1) }
        ensures spent { OnOk result (self.new.draft ≡ without_repo self.old.draft) }
        // Before success the repository stays as the refusal leaves it.
        ensures refused { IfErr result (λ e. IfSome self.old.draft.repo (λ found. (repo : RepositoryValue)
            × (self.new.draft ≡ record self.old.draft { repo = Some repo })
            × IsUncloned (λ remote answer. R.step self.old.configure_remote remote answer self.new.configure_remote)
            (self.new.configure_remote ≡ self.old.configure_remote) (ways (CalledAtMut G.FnMut) C.Peer.told C.Peer.answers)
            (C.faults self.old.maker) (C.faults self.new.maker)
            (line (C.left self.old.maker) (C.taken self.old.maker) (C.addresses self.old.maker) self.old.configure_connection)
            (line (C.left self.new.maker) (C.taken self.new.maker) (C.addresses self.new.maker) self.new.configure_connection)
            (W.told worktrees.old) (F.may_fail self.old.files) (F.told self.old.files) (F.told self.new.files)
            (without_repo self.old.draft) found repo e)) }
        ensures counted { CountsBy
            (meters (C.faults self.old.maker) (C.lost self.old.maker) (I.yes interrupt.old) (F.faults self.old.files)
            (tree_meters (W.listing worktrees.old) (W.open_repo worktrees.old) (W.follow_symref worktrees.old)))
            (meters (C.faults self.new.maker) (C.lost self.new.maker) (I.yes interrupt.new) (F.faults self.new.files)
            (tree_meters (W.listing worktrees.new) (W.open_repo worktrees.new) (W.follow_symref worktrees.new))) result }
        ensures later { Later (meters (C.faults self.old.maker) (C.lost self.old.maker) (I.yes interrupt.old) (F.faults self.old.files)
            (tree_meters (W.listing worktrees.old) (W.open_repo worktrees.old) (W.follow_symref worktrees.old)))
            (meters (C.faults self.new.maker) (C.lost self.new.maker) (I.yes interrupt.new) (F.faults self.new.files)
            (tree_meters (W.listing worktrees.new) (W.open_repo worktrees.new) (W.follow_symref worktrees.new))) }
        ensures told { W.told worktrees.new ≡ W.told worktrees.old }
        // Each peer that was made was taken back.
        ensures out { C.out self.new.maker ≡ C.out self.old.maker }
        ensures may_fail { F.may_fail self.new.files ≡ F.may_fail self.old.files }
        ensures again { R.IsAlwaysCallable self.new.configure_remote × G.IsAlwaysCallable self.new.configure_connection }
    {
        let alloc = self.draft.choices.overrides.allocator();
        let Some(mut repo) = self.draft.repo.take() else {
            return Err(Error::Consumed);
        };
        let fetched = fetched_into(
            rt,
            alloc,
            &self.draft,
            &mut repo,
            &mut self.files,
            &mut self.maker,
            &mut self.configure_remote,
            &mut self.configure_connection,
            progress,
            interrupt,
            worktrees,
        );
        match fetched {
            Ok(outcome) => Ok((repo, outcome)),
            Err(e) => {
                self.draft.repo = Some(repo);
                Err(e)
            }
        }
    }
}

/// Saves the remote, lists its references and fetches them, and lets `HEAD` take what it is to take.
// Long: one line an argument of each step.
// Many arguments: a clone's parts, of which several are changed.
fn fetched_into<
    F: Files,
    C: Connect,
    R: FnMut(Remote) -> Result<Remote, ConfigureFault>,
    G: FnMut(&mut C::Peer) -> Result<(), ConfigureFault>,
    I: Interrupt,
    W: Worktrees,
>(
    rt: &(impl Threads + Sync),
    alloc: Global,
    draft: &CloneState,
    repo: &mut Repository,
    files: &mut F,
    maker: &mut C,
    configure_remote: &mut R,
    configure_connection: &mut G,
    progress: &mut impl Progress,
    interrupt: &mut I,
    worktrees: &mut W,
) -> Result<Outcome, Error>
    requires remote { R.IsAlwaysCallable configure_remote.old }
    requires connection { G.IsAlwaysCallable configure_connection.old }
    ensures cloned { IfOk result (IsCloned (I.will_stop interrupt.old) (I.will_stop interrupt.new)
        (λ remote answer. R.step configure_remote.old remote answer configure_remote.new)
        (ways (CalledAtMut G.FnMut) C.Peer.told C.Peer.answers)
        (line (C.left maker.old) (C.taken maker.old) (C.addresses maker.old) configure_connection.old)
        (line (C.left maker.new) (C.taken maker.new) (C.addresses maker.new) configure_connection.new) (W.told worktrees.old)
        (F.told files.old) (F.told files.new) draft.now repo.old repo.new) }
    ensures refused { IfErr result (IsUncloned (λ remote answer. R.step configure_remote.old remote answer configure_remote.new)
        (configure_remote.new ≡ configure_remote.old) (ways (CalledAtMut G.FnMut) C.Peer.told C.Peer.answers) (C.faults maker.old)
        (C.faults maker.new) (line (C.left maker.old) (C.taken maker.old) (C.addresses maker.old) configure_connection.old)
        (line (C.left maker.new) (C.taken maker.new) (C.addresses maker.new) configure_connection.new) (W.told worktrees.old)
        (F.may_fail files.old) (F.told files.old) (F.told files.new) draft.now repo.old repo.new) }
    ensures blames { BlamesLent (counts_by C.faults C.lost I.yes F.faults W.listing W.open_repo W.follow_symref)
        (maker.old, interrupt.old, files.old, worktrees.old) (maker.new, interrupt.new, files.new, worktrees.new) result }
    ensures told { W.told worktrees.new ≡ W.told worktrees.old }
    ensures out { C.out maker.new ≡ C.out maker.old }
    ensures may_fail { F.may_fail files.new ≡ F.may_fail files.old }
    ensures remote_again { R.IsAlwaysCallable configure_remote.new }
    ensures connection_again { G.IsAlwaysCallable configure_connection.new }
{
    let saved = save(
        alloc,
        draft,
        repo,
        files,
        maker,
        configure_remote,
        configure_connection,
        interrupt,
    )?;
    completed(
        rt,
        alloc,
        &saved,
        draft,
        repo,
        files,
        maker,
        configure_connection,
        progress,
        interrupt,
        worktrees,
    )
}
