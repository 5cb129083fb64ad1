//! The reference that a clone of another depth is of, as a first connection lists it.

ghost use Rattle.std.specs.Prelude.{◌≡◌, ◌∷◌, [], IfOk, IfErr, Ok, None};
ghost use Rattle.std.specs.Fn.{CalledAtMut};
ghost use Rattle.std.specs.Option.{option_copied};
ghost use Rattle.fetch_specs.specs.Parses.{parsed};
ghost use Rattle.fetch_specs.specs.declared.operation.Operation.TheVariants as operations;
ghost use Rattle.fetch_remote.specs.Repositories.{state_of};
ghost use Rattle.fetch_clone.specs.Blame.{BlamesMaker, BlamesStop, lent_maker, lost_first, stopped_first};
ghost use Rattle.fetch_clone.specs.Heeded.{IsHeededOver};
ghost use Rattle.fetch_init.specs.HeadUpdates.{head_target_of};
ghost use Rattle.fetch_clone.specs.Reached.{line, ways};
ghost use Rattle.fetch_clone.specs.Stages as stages;
ghost use Rattle.fetch_clone.specs.Targets as spec;
ghost use Rattle.fetch_clone.specs.Targets.{HasNoTarget, HasTarget};

use crate::choices::Choices;
use crate::clone_state::CloneState;
use crate::fetching::reaching::reached;
use crate::prepare_fetch::ConfigureFault;
use fetch_conversation::ref_map;
use fetch_init::clone::fetch::Error;
use fetch_init::{HeadTarget, find_head_target};
use fetch_remote::connect::Connect;
use fetch_remote::phases::inquired;
use fetch_remote::{Remote, Repository};
use fetch_specs::{FullName, Operation, PartialName, RefSpec, SpecError, Tags, parse};
use fetch_store::{List, NoMemory, Text};
use fetch_wire::{Interrupt, RefMap};
use std::alloc::Global;

/// The reference that the clone is of, where a first connection is made and lists one: a clone of another depth asks for it,
/// unless it is asked for more refspecs or a revision. The peer is taken back.
pub(crate) fn target<
    C: Connect,
    G: FnMut(&mut C::Peer) -> Result<(), ConfigureFault>,
    I: Interrupt,
>(
    alloc: Global,
    draft: &CloneState,
    repo: &Repository,
    maker: &mut C,
    configure: &mut G,
    interrupt: &mut I,
) -> Result<Option<FullName>, Error>
    requires { G.IsAlwaysCallable configure.old }
    ensures target { IfOk result (λ target. (t : HasTarget (ways (CalledAtMut G.FnMut) C.Peer.told C.Peer.answers)
        (line (C.left maker.old) (C.taken maker.old) (C.addresses maker.old) configure.old)
        (line (C.left maker.new) (C.taken maker.new) (C.addresses maker.new) configure.new) draft.now repo.now target)
        × spec.HeedsFirst (I.will_stop interrupt.old) (I.will_stop interrupt.new) t) }
    ensures refused { IfErr result (HasNoTarget (ways (CalledAtMut G.FnMut) C.Peer.told C.Peer.answers) (C.faults maker.old)
        (C.faults maker.new) (line (C.left maker.old) (C.taken maker.old) (C.addresses maker.old) configure.old)
        (line (C.left maker.new) (C.taken maker.new) (C.addresses maker.new) configure.new) draft.now repo.now) }
    ensures maker { BlamesMaker (lent_maker C.faults C.lost C.out) maker.old maker.new (C.out maker.old) lost_first result }
    ensures interrupt { BlamesStop I.yes I.will_stop interrupt.old interrupt.new stopped_first result }
    ensures again { G.IsAlwaysCallable configure.new }
{
    if lists_first(&draft.choices) {
        target_of(alloc, draft, repo, maker, configure, interrupt)
    } else {
        Ok(None)
    }
}

/// The reference that a first connection lists.
#[tactic(auto, using(crate::proofs::Returned::lost_later, crate::proofs::Returned::lost_rose))]
fn target_of<C: Connect, G: FnMut(&mut C::Peer) -> Result<(), ConfigureFault>, I: Interrupt>(
    alloc: Global,
    draft: &CloneState,
    repo: &Repository,
    maker: &mut C,
    configure: &mut G,
    interrupt: &mut I,
) -> Result<Option<FullName>, Error>
    requires { G.IsAlwaysCallable configure.old }
    ensures target { IfOk result (λ target. (t : spec.HasHeadTarget (ways (CalledAtMut G.FnMut) C.Peer.told C.Peer.answers)
        (line (C.left maker.old) (C.taken maker.old) (C.addresses maker.old) configure.old)
        (line (C.left maker.new) (C.taken maker.new) (C.addresses maker.new) configure.new) draft.now repo.now target)
        × IsHeededOver (I.will_stop interrupt.old) (I.will_stop interrupt.new) (C.Peer.told t.heard.asked.peer)
        (C.Peer.told t.heard.asked.last)) }
    ensures refused { IfErr result (spec.IsUntargeted (ways (CalledAtMut G.FnMut) C.Peer.told C.Peer.answers) (C.faults maker.old)
        (C.faults maker.new) (line (C.left maker.old) (C.taken maker.old) (C.addresses maker.old) configure.old)
        (line (C.left maker.new) (C.taken maker.new) (C.addresses maker.new) configure.new) draft.now repo.now) }
    ensures maker { BlamesMaker (lent_maker C.faults C.lost C.out) maker.old maker.new (C.out maker.old) lost_first result }
    ensures interrupt { BlamesStop I.yes I.will_stop interrupt.old interrupt.new stopped_first result }
    ensures again { G.IsAlwaysCallable configure.new }
{
    let remote = bare(alloc, draft.url.as_bytes())?;
    let options = first_options(alloc, &draft.choices)?;
    let mut peer = reached(&remote, maker, configure)?;
    let listed = inquired(alloc, &remote, repo, &mut peer, interrupt, options);
    maker.take_back(peer);
    let (map, _) = listed?;
    head_target_name(alloc, repo, &map, draft.choices.ref_name())
}

/// Whether a first connection is made.
fn lists_first(choices: &Choices) -> bool
    ensures { result ≡ stages.lists_first choices.now }
{
    !keeps_depth(choices)
        && choices.options.extra_refspecs.as_slice().is_empty()
        && choices.revision().is_none()
}

fn keeps_depth(choices: &Choices) -> bool
    ensures { result ≡ stages.keeps_depth choices.now.shallow }
{
    matches!(choices.shallow, fetch_negotiate::Shallow::NoChange)
}

/// The nameless remote at an address, without refspecs and tags.
fn bare(alloc: Global, url: &[u8]) -> Result<Remote, NoMemory>
    ensures { IfOk result (λ remote. remote ≡ spec.bare url.now) }
{
    let mut urls = List::new(alloc);
    urls.push(Text::new(alloc, url)?)?;
    Ok(Remote::new(urls, List::new(alloc), Tags::None))
}

/// The options of the first listing.
fn first_options(alloc: Global, choices: &Choices) -> Result<ref_map::Options, NoMemory>
    ensures { IfOk result (spec.AreFirstOptions choices.now) }
{
    let text: &[u8] = match choices.ref_name() {
        Some(name) => name.as_bytes(),
        None => b"HEAD",
    };
    let mut extra_refspecs = List::new(alloc);
    extra_refspecs.push(said(alloc, text)?)?;
    Ok(ref_map::Options {
        prefix_from_spec_as_filter_on_remote: true,
        handshake_parameters: List::new(alloc),
        extra_refspecs,
        max_reply_bytes: choices.options.max_reply_bytes,
    })
}

/// The refspec to fetch by that a text says. It is asked for texts that say one, so that memory alone may refuse it.
pub(crate) fn said(alloc: Global, text: &[u8]) -> Result<RefSpec, NoMemory>
    ensures { IfOk result (λ spec. parsed operations.Fetch text.now ≡ Ok spec) }
{
    match parse(alloc, text, Operation::Fetch) {
        Ok(spec) => Ok(spec),
        Err(_) => Err(NoMemory),
    }
}

/// The name that is aimed at by what was listed.
fn head_target_name(
    alloc: Global,
    repo: &Repository,
    map: &RefMap,
    ref_name: Option<&PartialName>,
) -> Result<Option<FullName>, Error>
    ensures target { IfOk result (λ target. spec.IsHeadTarget
        (head_target_of (state_of repo.now) map.now (option_copied ref_name.entry) None) target) }
    ensures refused { IfErr result (spec.IsHeadTargetRefusedBy (state_of repo.now) map.now (option_copied ref_name.entry)) }
{
    match find_head_target(alloc, repo, map, ref_name, None) {
        Ok(HeadTarget::Name { name, .. }) => Ok(Some(name)),
        Ok(_) => Ok(None),
        Err(e) => Err(told_first(ref_name.is_some(), e)),
    }
}

/// The name that a ref name means, where it is no full name, has a refusal of its own.
fn told_first(is_named: bool, e: Error) -> Error
    ensures { result ≡ spec.told_again is_named e }
{
    match e {
        Error::InvalidHeadRef { head_ref_name } if is_named => Error::ReferenceName {
            name: head_ref_name,
        },
        e => e,
    }
}
