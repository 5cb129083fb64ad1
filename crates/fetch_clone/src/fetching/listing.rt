//! The references that a clone fetches are listed.

ghost use Rattle.std.specs.Prelude.{◌≡◌, ◌≤◌, ◌<◌, ◌+◌, IfOk, IfErr, IsErrOf, OnOk, OnErr, filter, not, true, false};
ghost use Rattle.std.specs.Fn.{CalledAtMut};
ghost use Rattle.std.specs.List.{list_any};
ghost use Rattle.fetch_base.specs.Faults.{Counts, Rose};
ghost use Rattle.fetch_conversation.specs.Errors.{is_interrupted};
ghost use Rattle.fetch_conversation.specs.Receiving.{last_question};
ghost use Rattle.fetch_conversation.specs.declared.prepare.Error.TheVariants as prepare_errors;
ghost use Rattle.fetch_conversation.specs.declared.ref_map.Error.TheVariants as ref_map_errors;
ghost use Rattle.fetch_remote.specs.Connecting.{TakesBack, out_after};
ghost use Rattle.fetch_update.specs.Policy.{is_forced as is_by_force};
ghost use Rattle.fetch_remote.specs.Repositories.{setup_of};
ghost use Rattle.fetch_remote.specs.Steps.{BreaksOff, HasListed, options_with};
ghost use Rattle.fetch_clone.specs.Blame.{BlamesMaker, BlamesStop, lent_maker, lost_listing, stopped_listing};
ghost use Rattle.fetch_clone.specs.Heeded.{IsHeededOver, SaysNo};
ghost use Rattle.fetch_clone.specs.Listed as spec;
ghost use Rattle.fetch_clone.specs.Listed.{IsListed, IsUnprepared, query};
ghost use Rattle.fetch_clone.specs.Reached.{line, ways};
ghost use Rattle.fetch_clone.specs.Stages.{ref_name_of};

use crate::choices::{Choices, CloneTarget};
use crate::fetching::reaching::reached;
use crate::fetching::targeting::said;
use crate::prepare_fetch::ConfigureFault;
use fetch_conversation::{prepare, ref_map};
use fetch_init::clone::fetch::Error;
use fetch_init::is_same_side;
use fetch_remote::connect::Connect;
use fetch_remote::phases::listed_for;
use fetch_remote::{Direction, Prepared, Remote, Repository};
use fetch_specs::{Conflict, RefSpec};
use fetch_store::{List, NoMemory, Text, TryClone};
use fetch_wire::Interrupt;
use std::alloc::Global;

/// Lists the references that the clone fetches, by a peer that the closure agreed to. Where the only conflict is on the
/// remote's `HEAD`, another peer lists them, without that and without the closure.
// Many arguments: what is listed by, and each of what is lent.
pub(crate) fn listed<
    C: Connect,
    G: FnMut(&mut C::Peer) -> Result<(), ConfigureFault>,
    I: Interrupt,
>(
    alloc: Global,
    name: &[u8],
    choices: &Choices,
    remote: &Remote,
    repo: &Repository,
    maker: &mut C,
    configure: &mut G,
    interrupt: &mut I,
) -> Result<(C::Peer, Prepared), Error>
    requires { G.IsAlwaysCallable configure.old }
    ensures listed { IfOk result (λ found. (l : IsListed (ways (CalledAtMut G.FnMut) C.Peer.told C.Peer.answers)
        (line (C.left maker.old) (C.taken maker.old) (C.addresses maker.old) configure.old)
        (line (C.left maker.new) (C.taken maker.new) (C.addresses maker.new) configure.new)
        (query name.now choices.now remote.now (setup_of repo.now)) found.0 found.1)
        × IsHeededOver (I.will_stop interrupt.old) (I.will_stop interrupt.new) (C.Peer.told l.first) (C.Peer.told found.0)) }
    ensures refused { IfErr result (IsUnprepared (ways (CalledAtMut G.FnMut) C.Peer.told C.Peer.answers) (C.faults maker.old)
        (C.faults maker.new) (line (C.left maker.old) (C.taken maker.old) (C.addresses maker.old) configure.old)
        (line (C.left maker.new) (C.taken maker.new) (C.addresses maker.new) configure.new)
        (query name.now choices.now remote.now (setup_of repo.now))) }
    ensures maker { BlamesMaker (lent_maker C.faults C.lost C.out) maker.old maker.new (out_after result (C.out maker.old))
        lost_listing result }
    ensures interrupt { BlamesStop I.yes I.will_stop interrupt.old interrupt.new stopped_listing result }
    ensures again { G.IsAlwaysCallable configure.new }
{
    let place = head_place(alloc, name)?;
    let options = options_for(alloc, true, place.as_bytes(), choices)?;
    let peer = reached(remote, maker, configure)?;
    match listed_by(alloc, remote, repo, maker, peer, interrupt, options) {
        Ok(found) => Ok(found),
        Err(e) => {
            if is_head_conflict(place.as_bytes(), &e) {
                return listed_again(alloc, name, choices, remote, repo, maker, interrupt);
            }
            Err(Error::from(e))
        }
    }
}

/// Lists them without the remote's `HEAD`.
// Many arguments: those of the listing, but for the closure.
fn listed_again<C: Connect, I: Interrupt>(
    alloc: Global,
    name: &[u8],
    choices: &Choices,
    remote: &Remote,
    repo: &Repository,
    maker: &mut C,
    interrupt: &mut I,
) -> Result<(C::Peer, Prepared), Error>
    ensures listed { IfOk result (λ found. (l : spec.IsListedAgain C.Peer.told C.Peer.answers (C.left maker.old) (C.left maker.new)
        (C.taken maker.old) (C.taken maker.new) (C.addresses maker.old) (C.addresses maker.new)
        (query name.now choices.now remote.now (setup_of repo.now)) found.0 found.1)
        × IsHeededOver (I.will_stop interrupt.old) (I.will_stop interrupt.new) (C.Peer.told l.first) (C.Peer.told found.0)) }
    ensures refused { IfErr result (spec.IsUnpreparedAgain C.Peer.told C.Peer.answers (C.faults maker.old) (C.faults maker.new)
        (C.left maker.old) (C.left maker.new) (C.taken maker.old) (C.taken maker.new) (C.addresses maker.old) (C.addresses maker.new)
        (query name.now choices.now remote.now (setup_of repo.now))) }
    ensures maker { BlamesMaker (lent_maker C.faults C.lost C.out) maker.old maker.new (out_after result (C.out maker.old))
        lost_listing result }
    ensures interrupt { BlamesStop I.yes I.will_stop interrupt.old interrupt.new stopped_listing result }
{
    let place = head_place(alloc, name)?;
    let options = options_for(alloc, false, place.as_bytes(), choices)?;
    let peer = remote.connect(Direction::Fetch, maker)?;
    match listed_by(alloc, remote, repo, maker, peer, interrupt, options) {
        Ok(found) => Ok(found),
        Err(e) => Err(Error::from(e)),
    }
}

/// Lists them by a peer, which is kept. Where the listing breaks off, the peer is taken back.
// Many arguments: what is listed, and the peer with what made it.
#[tactic(auto, using(crate::proofs::Returned::lost_later, crate::proofs::Returned::lost_rose))]
fn listed_by<C: Connect, I: Interrupt>(
    alloc: Global,
    remote: &Remote,
    repo: &Repository,
    maker: &mut C,
    peer: C::Peer,
    interrupt: &mut I,
    options: ref_map::Options,
) -> Result<(C::Peer, Prepared), prepare::Error>
    requires { 0 < C.out maker.old }
    ensures listed { IfOk result (λ found. HasListed C.Peer.answers (C.Peer.told peer) (C.Peer.told found.0)
        (spec.asked remote.now (setup_of repo.now) options) found.1.listed) }
    ensures usual { IfOk result (λ found. found.1.options ≡ options_with options) }
    ensures kept { OnOk result (maker.new ≡ maker.old) }
    ensures broke { IfErr result (λ e. (last : C.Peer)
        × BreaksOff C.Peer.answers (C.Peer.told peer) (C.Peer.told last) (spec.asked remote.now (setup_of repo.now) options) e
        × TakesBack (C.taken maker.old) (C.taken maker.new) last) }
    ensures left { C.left maker.new ≡ C.left maker.old }
    ensures addresses { C.addresses maker.new ≡ C.addresses maker.old }
    ensures faults { C.faults maker.new ≡ C.faults maker.old }
    ensures out { OnErr result (C.out maker.new + 1 ≡ C.out maker.old) }
    ensures lost { (C.lost maker.old).count ≤ (C.lost maker.new).count }
    ensures transport { IsErrOf result (prepare_errors.RefMap ref_map_errors.Transport) → Rose (C.lost maker.old) (C.lost maker.new) }
    ensures asked { Counts (I.yes interrupt.old) (I.yes interrupt.new) }
    ensures interrupted { IsErrOf result (prepare_errors.RefMap ref_map_errors.Interrupted)
        → Rose (I.yes interrupt.old) (I.yes interrupt.new) }
    ensures quiet { last_question is_interrupted result ≡ 0 → (I.yes interrupt.new).count ≡ (I.yes interrupt.old).count }
    ensures noes { last_question is_interrupted result ≡ 0 → SaysNo (I.will_stop interrupt.old) (I.will_stop interrupt.new) }
    ensures heeded { IfOk result (λ found. IsHeededOver (I.will_stop interrupt.old) (I.will_stop interrupt.new) (C.Peer.told peer)
        (C.Peer.told found.0)) }
{
    let mut peer = peer;
    match listed_for(alloc, remote, repo, &mut peer, interrupt, options) {
        Ok(prepared) => Ok((peer, prepared)),
        Err(e) => {
            maker.take_back(peer);
            Err(e)
        }
    }
}

/// Where the remote's `HEAD` is kept.
fn head_place(alloc: Global, name: &[u8]) -> Result<Text, NoMemory>
    ensures { IfOk result (λ place. place ≡ spec.head_at name.now) }
{
    let mut place = Vec::from_slice(alloc, b"refs/remotes/")?;
    place.extend_from_slice(name)?;
    place.extend_from_slice(b"/HEAD")?;
    Ok(Text::from(place))
}

/// Whether all that stands against the listing is a conflict at the place.
fn is_head_conflict(place: &[u8], e: &prepare::Error) -> bool
    ensures { result ≡ spec.is_conflict_at place.now e.now }
{
    match e {
        prepare::Error::RefMap(ref_map::Error::InitRefMap(conflicts)) => {
            is_only_at(place, conflicts.as_slice())
        }
        _ => false,
    }
}

fn is_only_at(place: &[u8], conflicts: &[Conflict]) -> bool
    ensures { result ≡ spec.is_only_at place.now conflicts.now }
{
    match conflicts {
        [one] => one.destination.as_bytes() == place,
        _ => false,
    }
}

/// The options of the clone, with the extra refspecs that it needs.
fn options_for(
    alloc: Global,
    with_head: bool,
    place: &[u8],
    choices: &Choices,
) -> Result<ref_map::Options, NoMemory>
    ensures { IfOk result (spec.AreOptions with_head place.now choices.now) }
{
    let given = &choices.options;
    Ok(ref_map::Options {
        prefix_from_spec_as_filter_on_remote: given.prefix_from_spec_as_filter_on_remote,
        handshake_parameters: given.handshake_parameters.try_clone()?,
        extra_refspecs: extra_for(alloc, with_head, place, choices)?,
        max_reply_bytes: given.max_reply_bytes,
    })
}

/// For a revision it is that alone.
fn extra_for(
    alloc: Global,
    with_head: bool,
    place: &[u8],
    choices: &Choices,
) -> Result<List<RefSpec>, NoMemory>
    ensures { IfOk result (spec.IsExtraFor choices.now.wanted with_head place.now choices.now) }
{
    match &choices.wanted {
        CloneTarget::Revision(revision) => {
            let mut alone = List::new(alloc);
            alone.push(revision.try_clone()?)?;
            Ok(alone)
        }
        _ => extra(alloc, with_head, place, choices),
    }
}

/// Those given, the one of the remote's `HEAD`, and then that of the ref name.
fn extra(
    alloc: Global,
    with_head: bool,
    place: &[u8],
    choices: &Choices,
) -> Result<List<RefSpec>, NoMemory>
    ensures { IfOk result (spec.IsExtra with_head place.now choices.now) }
{
    let given = choices.options.extra_refspecs.as_slice();
    let mut extra = given_by(alloc, with_head, place, given)?;
    push_head(alloc, with_head, place, given, &mut extra)?;
    push_name(alloc, choices, &mut extra)?;
    Ok(List::from(extra))
}

/// Adds the refspec of the remote's `HEAD`, unless it is given or is left out.
fn push_head(
    alloc: Global,
    with_head: bool,
    place: &[u8],
    given: &[RefSpec],
    extra: &mut Vec<RefSpec>,
) -> Result<(), NoMemory>
    ensures { OnOk result (spec.Adds (spec.head_added with_head place.now given.now) extra.old.items extra.new.items) }
{
    if !with_head {
        return Ok(());
    }
    if has_head(place, given) {
        return Ok(());
    }
    let text = head_text(alloc, place)?;
    extra.push(said(alloc, text.as_bytes())?)?;
    Ok(())
}

/// Adds the refspec of the ref name, where there is one.
fn push_name(alloc: Global, choices: &Choices, extra: &mut Vec<RefSpec>) -> Result<(), NoMemory>
    ensures { OnOk result (spec.Adds (ref_name_of choices.now.wanted) extra.old.items extra.new.items) }
{
    match choices.ref_name() {
        Some(wanted) => {
            extra.push(said(alloc, wanted.as_bytes())?)?;
            Ok(())
        }
        None => Ok(()),
    }
}

/// The text of the refspec of the remote's `HEAD`.
fn head_text(alloc: Global, place: &[u8]) -> Result<Text, NoMemory>
    ensures { IfOk result (λ text. text ≡ spec.head_text place.now) }
{
    let mut text = Vec::from_slice(alloc, b"HEAD:")?;
    text.extend_from_slice(place)?;
    Ok(Text::from(text))
}

/// The refspecs that were given; without the one of the remote's `HEAD` where that is left out.
fn given_by(
    alloc: Global,
    with_head: bool,
    place: &[u8],
    given: &[RefSpec],
) -> Result<Vec<RefSpec>, NoMemory>
    ensures { IfOk result (λ specs. specs.items ≡ spec.given_by with_head place.now given.now) }
{
    let mut specs = copies(alloc, given)?;
    if !with_head {
        remove_heads(place, &mut specs);
    }
    Ok(specs)
}

fn copies(alloc: Global, given: &[RefSpec]) -> Result<Vec<RefSpec>, NoMemory>
    ensures { IfOk result (λ specs. specs.items ≡ given.now) }
{
    let mut specs = Vec::new(alloc);
    for s in given {
        specs.push(s.try_clone()?)?;
    }
    Ok(specs)
}

fn remove_heads(place: &[u8], specs: &mut Vec<RefSpec>)
    ensures { specs.new.items ≡ filter (λ s. not (spec.is_head place.now s)) specs.old.items }
{
    specs.retain(|s| !is_head(place, s));
}

fn has_head(place: &[u8], specs: &[RefSpec]) -> bool
    ensures { result ≡ list_any (spec.is_head place.now) specs.now }
{
    specs.iter().any(|s| is_head(place, s))
}

/// Whether a refspec is that of the remote's `HEAD`. One by force is the caller's own.
fn is_head(place: &[u8], s: &RefSpec) -> bool
    ensures { result ≡ spec.is_head place.now s.now }
{
    !is_forced(s)
        && is_same_side(s.source(), Some(b"HEAD"))
        && is_same_side(s.destination(), Some(place))
}

fn is_forced(s: &RefSpec) -> bool
    ensures { result ≡ is_by_force s.now.mode }
{
    s.allow_non_fast_forward()
}
