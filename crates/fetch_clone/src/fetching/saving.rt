//! The remote of a clone is saved.

ghost use Rattle.std.specs.Prelude.{◌≡◌, IfOk, IfErr, IsErrOf, OnOk};
ghost use Rattle.std.specs.Fn.{CalledAtMut};
ghost use Rattle.std.specs.Option.{option_copied};
ghost use Rattle.fetch_base.specs.Faults.{Counts, Rose};
ghost use Rattle.fetch_remote.specs.Repositories.{setup_of};
ghost use Rattle.fetch_remote.specs.declared.repository.open_error.OpenError.TheVariants as opening;
ghost use Rattle.fetch_clone.specs.Counted.{IsCounted, Later, TreeMeters, meters};
ghost use Rattle.fetch_clone.specs.Heeded.{SaysNo};
ghost use Rattle.fetch_clone.specs.Reached.{line, ways};
ghost use Rattle.fetch_clone.specs.Saving as spec;
ghost use Rattle.fetch_clone.specs.Targets.{HeedsFirst};
ghost use Rattle.fetch_clone.specs.Saving.{IsNotSaved, IsSaved};
ghost use Rattle.fetch_init.specs.declared.clone.fetch.Error.TheVariants as errors;

use crate::clone_state::CloneState;
use crate::fetching::planning::{chosen, named};
use crate::prepare_fetch::ConfigureFault;
use fetch_config::File;
use fetch_init::clone::fetch::Error;
use fetch_init::laws::append_remote_to_local_config_file;
use fetch_remote::connect::Connect;
use fetch_remote::{Remote, Repository};
use fetch_specs::{FullName, Tags};
use fetch_store::{Files, Text};
use fetch_wire::Interrupt;
use std::alloc::Global;

/// What a clone is fetched by.
#[derive(Drop)]
pub(crate) struct Saved {
    /// The name of the remote.
    pub name: Text,
    /// The remote, as it was saved, with the tags that are fetched.
    pub remote: Remote,
    /// The remote's section in a file by itself.
    pub section: File,
}

/// Names the clone's remote, lets the closure choose it, and writes its section into the file `config`.
// Many arguments: a clone's parts, of which several are changed.
pub(crate) fn save<
    F: Files,
    C: Connect,
    R: FnMut(Remote) -> Result<Remote, ConfigureFault>,
    G: FnMut(&mut C::Peer) -> Result<(), ConfigureFault>,
    I: Interrupt,
>(
    alloc: Global,
    draft: &CloneState,
    repo: &mut Repository,
    files: &mut F,
    maker: &mut C,
    configure_remote: &mut R,
    configure_connection: &mut G,
    interrupt: &mut I,
) -> Result<Saved, Error>
    requires remote { R.IsAlwaysCallable configure_remote.old }
    requires connection { G.IsAlwaysCallable configure_connection.old }
    ensures saved { IfOk result (λ saved. (s : IsSaved (λ remote answer. R.step configure_remote.old remote answer configure_remote.new)
        (ways (CalledAtMut G.FnMut) C.Peer.told C.Peer.answers)
        (line (C.left maker.old) (C.taken maker.old) (C.addresses maker.old) configure_connection.old)
        (line (C.left maker.new) (C.taken maker.new) (C.addresses maker.new) configure_connection.new) (F.told files.old) (F.told files.new)
        draft.now repo.old repo.new saved) × HeedsFirst (I.will_stop interrupt.old) (I.will_stop interrupt.new) s.named.targeted) }
    ensures refused { IfErr result (IsNotSaved (λ remote answer. R.step configure_remote.old remote answer configure_remote.new)
        (configure_remote.new ≡ configure_remote.old) (ways (CalledAtMut G.FnMut) C.Peer.told C.Peer.answers) (C.faults maker.old)
        (C.faults maker.new) (line (C.left maker.old) (C.taken maker.old) (C.addresses maker.old) configure_connection.old)
        (line (C.left maker.new) (C.taken maker.new) (C.addresses maker.new) configure_connection.new) (F.may_fail files.old)
        (F.told files.old) (F.told files.new) draft.now repo.old repo.new) }
    // It asks nothing of the work trees.
    ensures counted { (trees : TreeMeters) → IfErr result
        (IsCounted (meters (C.faults maker.old) (C.lost maker.old) (I.yes interrupt.old) (F.faults files.old) trees)
        (meters (C.faults maker.new) (C.lost maker.new) (I.yes interrupt.new) (F.faults files.new) trees)) }
    ensures later { (trees : TreeMeters) → Later
        (meters (C.faults maker.old) (C.lost maker.old) (I.yes interrupt.old) (F.faults files.old) trees)
        (meters (C.faults maker.new) (C.lost maker.new) (I.yes interrupt.new) (F.faults files.new) trees) }
    ensures uninterrupted { OnOk result ((I.yes interrupt.new).count ≡ (I.yes interrupt.old).count) }
    ensures questions { OnOk result (SaysNo (I.will_stop interrupt.old) (I.will_stop interrupt.new)) }
    ensures out { C.out maker.new ≡ C.out maker.old }
    ensures may_fail { F.may_fail files.new ≡ F.may_fail files.old }
    ensures remote_again { R.IsAlwaysCallable configure_remote.new }
    ensures connection_again { G.IsAlwaysCallable configure_connection.new }
{
    let (name, target) = named(alloc, draft, repo, maker, configure_connection, interrupt)?;
    save_as(
        alloc,
        draft,
        repo,
        files,
        configure_remote,
        name,
        target.as_ref(),
    )
}

/// Lets the closure choose the remote, and writes its section into the file `config`.
// Many arguments: what is saved by, each of what is lent, and the two names.
fn save_as<F: Files, R: FnMut(Remote) -> Result<Remote, ConfigureFault>>(
    alloc: Global,
    draft: &CloneState,
    repo: &Repository,
    files: &mut F,
    configure: &mut R,
    name: Text,
    target: Option<&FullName>,
) -> Result<Saved, Error>
    requires { R.IsAlwaysCallable configure.old }
    ensures saved { IfOk result (spec.IsSavedAs (λ remote answer. R.step configure.old remote answer configure.new) (F.told files.old)
        (F.told files.new) draft.now (setup_of repo.now) name (option_copied target.entry)) }
    ensures refused { IfErr result (spec.IsNotSavedAs (λ remote answer. R.step configure.old remote answer configure.new)
        (F.may_fail files.old) (F.told files.old) (F.told files.new) draft.now (setup_of repo.now) name (option_copied target.entry)) }
    ensures load { IsErrOf result (errors.LoadConfig opening.Io) → Rose (F.faults files.old) (F.faults files.new) }
    ensures io { IsErrOf result errors.SaveConfigIo → Rose (F.faults files.old) (F.faults files.new) }
    ensures counts { Counts (F.faults files.old) (F.faults files.new) }
    ensures may_fail { F.may_fail files.new ≡ F.may_fail files.old }
    ensures again { R.IsAlwaysCallable configure.new }
{
    let mut remote = chosen(alloc, draft, name.as_bytes(), target, configure)?;
    let section = append_remote_to_local_config_file(
        alloc,
        files,
        repo,
        &mut remote,
        name.as_bytes(),
    )?;
    Ok(Saved {
        name,
        remote: tagged(draft, remote),
        section,
    })
}

/// Once the remote is saved, all tags are fetched, unless a revision is, or the builder set a closure.
fn tagged(draft: &CloneState, remote: Remote) -> Remote
    ensures { result ≡ spec.tagged draft.now remote }
{
    if takes_all_tags(draft) {
        remote.with_fetch_tags(Tags::All)
    } else {
        remote
    }
}

fn takes_all_tags(draft: &CloneState) -> bool
    ensures { result ≡ spec.takes_all_tags draft.now }
{
    !draft.configures_remote && draft.choices.revision().is_none()
}
