//! A repository that was fetched into takes its remote's section, and `HEAD` what the remote listed.

ghost use Rattle.std.specs.Prelude.{◌≡◌, IfErr, IsErrOf, OnErr, OnOk};
ghost use Rattle.std.specs.Option.{option_copied};
ghost use Rattle.fetch_base.specs.Faults.{Counts, Rose};
ghost use Rattle.fetch_remote.specs.Repositories.{setup_of, state_of};
ghost use Rattle.fetch_clone.specs.Cloned.{IsFinished, IsInForce, IsUnfinished};
ghost use Rattle.fetch_init.specs.declared.clone.fetch.Error.TheVariants as errors;

use crate::clone_state::CloneState;
use crate::fetching::receiving::message_of;
use fetch_config::File;
use fetch_init::clone::fetch::Error;
use fetch_init::laws::{append_config_to_repo_config, update_head};
use fetch_remote::Repository;
use fetch_store::{Files, NoMemory};
use fetch_wire::RefMap;
use std::alloc::Global;

/// Puts the remote's section into the configuration in memory, where it is still to be put there, and lets `HEAD` take what it is
/// to take.
// Many arguments: what was saved and fetched, and what it changes.
pub(crate) fn finished<F: Files>(
    alloc: Global,
    draft: &CloneState,
    name: &[u8],
    section: Option<&File>,
    map: &RefMap,
    repo: &mut Repository,
    files: &mut F,
) -> Result<(), Error>
    ensures ok { OnOk result (IsFinished (F.told files.old) (F.told files.new) draft.now name.now
        (option_copied section.entry) map.now repo.old repo.new) }
    ensures refused { IfErr result (IsUnfinished (F.may_fail files.old) (F.told files.old) (F.told files.new) draft.now name.now
        (option_copied section.entry) map.now repo.old repo.new) }
    ensures io { IsErrOf result errors.SaveConfigIo → Rose (F.faults files.old) (F.faults files.new) }
    ensures counts { Counts (F.faults files.old) (F.faults files.new) }
    ensures may_fail { F.may_fail files.new ≡ F.may_fail files.old }
{
    let message = message_of(alloc, draft)?;
    put_in_force(alloc, section, repo)?;
    let ref_name = draft.choices.ref_name();
    let revision = draft.choices.revision();
    update_head(
        alloc,
        repo,
        files,
        map,
        message.as_bytes(),
        name,
        ref_name,
        revision,
    )
}

/// Puts the remote's section into the configuration in memory, where it is still to be put there.
fn put_in_force(
    alloc: Global,
    section: Option<&File>,
    repo: &mut Repository,
) -> Result<(), NoMemory>
    ensures state { state_of repo.new ≡ state_of repo.old }
    ensures ok { OnOk result (IsInForce (option_copied section.entry) (setup_of repo.old) (setup_of repo.new)) }
    ensures err { OnErr result (setup_of repo.new ≡ setup_of repo.old) }
{
    let Some(section) = section else {
        return Ok(());
    };
    match append_config_to_repo_config(alloc, repo, section) {
        Ok(()) => Ok(()),
        Err(_) => Err(NoMemory),
    }
}
