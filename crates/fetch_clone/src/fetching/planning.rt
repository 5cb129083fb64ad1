//! The remote that a clone fetches by, as it is to be saved.

ghost use Rattle.std.specs.Prelude.{◌≡◌, IfOk, IfErr, OnOk, OnErr, Some, None};
ghost use Rattle.std.specs.Fn.{CalledAtMut};
ghost use Rattle.std.specs.Option.{option_copied};
ghost use Rattle.fetch_lookup.specs.Names.{name_refusal};
ghost use Rattle.fetch_remote.specs.Overriding.{overridden};
ghost use Rattle.fetch_remote.specs.Repositories.{state_of, setup_of};
ghost use Rattle.fetch_clone.specs.Planned as spec;
ghost use Rattle.fetch_clone.specs.Planned.{IsNamed, IsNotNamed};
ghost use Rattle.fetch_clone.specs.Blame.{BlamesMaker, BlamesStop, lent_maker, lost_first, stopped_first};
ghost use Rattle.fetch_clone.specs.Reached.{line, ways};
ghost use Rattle.fetch_clone.specs.Stages as stages;
ghost use Rattle.fetch_clone.specs.Targets.{HeedsFirst};
ghost use Rattle.fetch_create.specs.RemoteNames.{spec_text as tracked_text};

use crate::choices::{Choices, CloneTarget};
use crate::clone_state::{CloneState, append_texts};
use crate::fetching::targeting::{said, target};
use crate::prepare_fetch::ConfigureFault;
use fetch_config::File;
use fetch_create::{default_remote, spec_text};
use fetch_init::clone::fetch::Error;
use fetch_lookup::name;
use fetch_remote::connect::Connect;
use fetch_remote::{Direction, OpenError, Remote, Repository};
use fetch_specs::{FullName, Tags};
use fetch_store::{List, NoMemory, Text};
use fetch_wire::Interrupt;
use std::alloc::Global;

/// Puts the clone's overrides in force, and finds the name of its remote and, where one is asked for, its target.
pub(crate) fn named<C: Connect, G: FnMut(&mut C::Peer) -> Result<(), ConfigureFault>, I: Interrupt>(
    alloc: Global,
    draft: &CloneState,
    repo: &mut Repository,
    maker: &mut C,
    configure: &mut G,
    interrupt: &mut I,
) -> Result<(Text, Option<FullName>), Error>
    requires { G.IsAlwaysCallable configure.old }
    ensures named { IfOk result (λ found. (n : IsNamed (ways (CalledAtMut G.FnMut) C.Peer.told C.Peer.answers)
        (line (C.left maker.old) (C.taken maker.old) (C.addresses maker.old) configure.old)
        (line (C.left maker.new) (C.taken maker.new) (C.addresses maker.new) configure.new) draft.now repo.old repo.new found.0 found.1)
        × HeedsFirst (I.will_stop interrupt.old) (I.will_stop interrupt.new) n.targeted) }
    ensures refused { IfErr result (IsNotNamed (ways (CalledAtMut G.FnMut) C.Peer.told C.Peer.answers) (C.faults maker.old)
        (C.faults maker.new) (line (C.left maker.old) (C.taken maker.old) (C.addresses maker.old) configure.old)
        (line (C.left maker.new) (C.taken maker.new) (C.addresses maker.new) configure.new) draft.now repo.old repo.new) }
    ensures maker { BlamesMaker (lent_maker C.faults C.lost C.out) maker.old maker.new (C.out maker.old) lost_first result }
    ensures interrupt { BlamesStop I.yes I.will_stop interrupt.old interrupt.new stopped_first result }
    ensures again { G.IsAlwaysCallable configure.new }
{
    override_with(alloc, draft, repo)?;
    let name = remote_name(alloc, &draft.choices, repo.config())?;
    let target = target(alloc, draft, repo, maker, configure, interrupt)?;
    Ok((name, target))
}

/// The remote as it is to be saved: the one that is proposed, as the closure configured it.
pub(crate) fn chosen<R: FnMut(Remote) -> Result<Remote, ConfigureFault>>(
    alloc: Global,
    draft: &CloneState,
    name: &[u8],
    target: Option<&FullName>,
    configure: &mut R,
) -> Result<Remote, Error>
    requires { R.IsAlwaysCallable configure.old }
    ensures chosen { IfOk result (spec.IsChosen (λ remote answer. R.step configure.old remote answer configure.new) draft.now name.now
        (option_copied target.entry)) }
    ensures refused { IfErr result (spec.IsUnchosen (λ remote answer. R.step configure.old remote answer configure.new) draft.now name.now
        (option_copied target.entry)) }
    ensures again { R.IsAlwaysCallable configure.new }
{
    let remote = proposed(alloc, draft, name, target)?;
    match configure(remote) {
        Ok(remote) => Ok(restricted(alloc, &draft.choices, remote)?),
        Err(ConfigureFault::Refused { text }) => Err(Error::RemoteConfiguration { text }),
        Err(ConfigureFault::NoMemory) => Err(Error::NoMemory),
    }
}

/// Puts the overrides in force that the repository was opened with, and then those of the clone.
fn override_with(alloc: Global, draft: &CloneState, repo: &mut Repository) -> Result<(), Error>
    ensures state { state_of repo.new ≡ state_of repo.old }
    ensures ok { OnOk result (overridden (setup_of repo.old) (spec.overrides_of draft.now) ≡ Some (setup_of repo.new)) }
    ensures refused { IfErr result (spec.IsUnoverridden (spec.overrides_of draft.now)) }
    ensures err { OnErr result (setup_of repo.new ≡ setup_of repo.old) }
{
    let overrides = overrides_of(draft)?;
    match repo.replace_overrides(alloc, overrides) {
        Ok(()) => Ok(()),
        Err(OpenError::Override { text }) => Err(Error::ParseConfig { text }),
        Err(_) => Err(Error::NoMemory),
    }
}

fn overrides_of(draft: &CloneState) -> Result<List<Text>, NoMemory>
    ensures { IfOk result (λ texts. texts ≡ spec.overrides_of draft.now) }
{
    let mut texts = draft.opened.try_clone_with(Text::try_clone)?;
    append_texts(&mut texts, draft.choices.overrides.as_slice())?;
    Ok(texts)
}

/// The name of the remote: the one given, or that of the configuration, or `origin`.
fn remote_name(alloc: Global, choices: &Choices, config: &File) -> Result<Text, Error>
    ensures name { IfOk result (λ name. name ≡ stages.remote_name choices.now config.now) }
    ensures accepted { OnOk result (name_refusal (stages.remote_name choices.now config.now) ≡ None) }
    ensures refused { IfErr result (spec.IsUnnamed (stages.remote_name choices.now config.now)) }
{
    Ok(name::validated(alloc, name_or(&choices.remote_name, config))?)
}

fn name_or<'a>(given: &'a Option<Text>, config: &'a File) -> &'a [u8]
    ensures { result.now ≡ stages.name_or given.now config.now }
{
    match given {
        Some(name) => name.as_bytes(),
        None => default_remote(config).unwrap_or(b"origin"),
    }
}

/// The remote that the closure is given.
fn proposed(
    alloc: Global,
    draft: &CloneState,
    name: &[u8],
    target: Option<&FullName>,
) -> Result<Remote, NoMemory>
    ensures { IfOk result (spec.IsProposed draft.now name.now (option_copied target.entry)) }
{
    let mut urls = List::new(alloc);
    urls.push(draft.url.try_clone()?)?;
    let mut specs = List::new(alloc);
    match &draft.choices.wanted {
        CloneTarget::Revision(_) => {}
        _ => specs.push(said(alloc, spec_of(alloc, name, target)?.as_bytes())?)?,
    }
    Ok(Remote::new(urls, specs, Tags::Included))
}

/// The text of the refspec of the target, or else of all branches.
fn spec_of(alloc: Global, name: &[u8], target: Option<&FullName>) -> Result<Text, NoMemory>
    ensures { IfOk result (λ text. text ≡ tracked_text name.now (option_copied target.entry)) }
{
    match target {
        Some(target) => spec_text(alloc, name, Some(target.as_bytes())),
        None => spec_text(alloc, name, None),
    }
}

/// For a revision the refspecs go, and no tags are fetched.
fn restricted(alloc: Global, choices: &Choices, remote: Remote) -> Result<Remote, NoMemory>
    ensures { IfOk result (λ r. r ≡ spec.restricted choices.now.wanted remote) }
{
    match &choices.wanted {
        CloneTarget::Revision(_) => without_specs(alloc, remote),
        _ => Ok(remote),
    }
}

#[tactic(auto, unfolding(fetch_lookup::specs::Results::all_of))]
fn without_specs(alloc: Global, remote: Remote) -> Result<Remote, NoMemory>
    ensures { IfOk result (λ r. r ≡ spec.unspecified remote) }
{
    let mut remote = remote;
    match remote.replace_refspecs(alloc, &[], Direction::Fetch) {
        Ok(()) => Ok(remote.with_fetch_tags(Tags::None)),
        Err(_) => Err(NoMemory),
    }
}
