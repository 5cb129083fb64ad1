//! The conversation of a fetch over a plan.

ghost use Rattle.std.specs.Prelude.{◌≡◌, IfOk, IfErr, IfSome, MatchResult};
ghost use Rattle.fetch_store.specs.Stores.{AreOf};
ghost use Rattle.fetch_pack.specs.Once.{AreNamed};
ghost use Rattle.fetch_conversation.specs.Blame.{BlamesPeer, BlamesInterrupt, is_told};
ghost use Rattle.fetch_conversation.specs.Receiving.{last_question};
ghost use Rattle.fetch_remote.specs.Errors.{preparing, receiving};
ghost use Rattle.fetch_journal.specs.Errors.{fetching, is_of_peer, is_yes};
ghost use Rattle.fetch_journal.specs.Journals.{entries_of};
ghost use Rattle.fetch_shared.specs.Passes.{IsBack};
ghost use Rattle.fetch_journal.specs.Shared.{plan_of};
ghost use Rattle.fetch_shared.specs.Conversed.{HasBroken, HasPlanned, HasConversedOver, given_to, line_of};
ghost use Rattle.fetch_journal.specs.declared.error.SharedError.TheVariants as errors;

use crate::pass::Pass;
use crate::shared::SharedRepository;
use fetch_conversation::{Listed, NoProgress, Received, View};
use fetch_journal::{Plan, SharedError};
use fetch_negotiate::Shallow;
use fetch_remote::phases::{converse, list};
use fetch_remote::{FetchError, FetchOptions, Remote, fetch, prepare};
use fetch_specs::Tags;
use fetch_store::{List, ObjectId};
use fetch_wire::{Interrupt, Peer, RefMap};
use std::alloc::Global;
use std::sync::Wait;
use std::thread::Threads;

/// What a fetch asks, and of which remote.
#[derive(Drop)]
pub(crate) struct Asking<'a> {
    pub(crate) remote: &'a Remote,
    pub(crate) options: FetchOptions,
}

/// What a conversation brought: what was listed, what was wanted of it, and what was received.
#[derive(Drop)]
pub(crate) struct Exchange {
    pub(crate) listed: Listed,
    pub(crate) wants: List<ObjectId>,
    pub(crate) received: Option<Received>,
}

/// Lists the references, plans in a turn, and asks for the pack by the plan, outside the turn. Tells how many entries the
/// plan saw, where one was made.
// Many arguments: those of the fetch but for files and work trees.
// Long: each stage hands the pass back at its refusal.
pub(crate) fn list_and_receive<R: Threads + Wait + Sync, P: Peer, I: Interrupt>(
    rt: &R,
    alloc: Global,
    shared: &SharedRepository,
    pass: Pass,
    asking: Asking<'_>,
    peer: &mut P,
    interrupt: &mut I,
) -> Result<(Pass, u64, Exchange), (Pass, Option<u64>, SharedError)>
    requires { pass.shared ≡ shared.now }
    ensures back { MatchResult result (λ r. IsBack pass r.0) (λ r. IsBack pass r.0) }
    ensures none { MatchResult result (λ r. entries_of pass.number r.0.front ≡ entries_of pass.number pass.front)
        (λ r. entries_of pass.number r.0.front ≡ entries_of pass.number pass.front) }
    ensures exchange { IfOk result (λ r. HasConversedOver (line_of P.answers (P.told peer.old) (P.told peer.new))
        (given_to asking.entry.remote.now asking.entry.options pass) pass r.0 r.1 r.2) }
    ensures broken { IfErr result (λ r. HasBroken (line_of P.answers (P.told peer.old) (P.told peer.new))
        (given_to asking.entry.remote.now asking.entry.options pass) pass r.0 r.1 r.2) }
    ensures of_kind { IfOk result (λ r. IfSome r.2.received (λ x. AreOf pass.shared.opening.state.hash x.objects)) }
    ensures named { IfOk result (λ r. IfSome r.2.received (λ x. AreNamed x.objects)) }
    ensures peer { BlamesPeer (P.faults peer.old) (P.faults peer.new) (is_told (λ r. is_of_peer r.2) result) }
    ensures interrupt { BlamesInterrupt (I.yes interrupt.old) (I.yes interrupt.new) (I.will_stop interrupt.old) (I.will_stop interrupt.new)
        (P.told peer.old) (P.told peer.new) (last_question (λ r. is_yes r.2) result) }
{
    let Asking { remote, options } = asking;
    let FetchOptions {
        map,
        shallow,
        dry_run,
        ..
    } = options;
    let mut listed = match list(alloc, remote, shared.settings(), peer, interrupt, map) {
        Ok(listed) => listed,
        Err(cause) => return Err((pass, None, unlisted(cause))),
    };
    let tags = remote.fetch_tags();
    let (pass, plan) = match planned(rt, alloc, shared, pass, &listed.ref_map, tags, &shallow) {
        Ok(planned) => planned,
        Err((pass, e)) => return Err((pass, None, e)),
    };
    let Plan {
        place,
        wants,
        border,
        tips,
        graph,
    } = plan;
    let view = View {
        wants,
        border,
        tips,
    };
    let answer = converse(
        rt,
        alloc,
        &mut listed,
        shared.settings(),
        &view,
        &graph,
        tags,
        &shallow,
        dry_run,
        peer,
        &mut NoProgress,
        interrupt,
    );
    match answer {
        Ok(received) => {
            let exchange = Exchange {
                listed,
                wants: view.wants,
                received,
            };
            Ok((pass, place, exchange))
        }
        Err(cause) => Err((pass, Some(place), unreceived(cause))),
    }
}

/// A refusal of the listing, as it is told.
fn unlisted(cause: prepare::Error) -> SharedError
    ensures { result ≡ fetching (preparing cause) }
{
    SharedError::from(FetchError::from(cause))
}

/// A refusal after the listing, as it is told.
pub(crate) fn unreceived(cause: fetch::Error) -> SharedError
    ensures { result ≡ fetching (receiving cause) }
{
    SharedError::from(FetchError::from(cause))
}

/// The plan of a turn. Out of memory alone refuses it.
// Many arguments: what a plan is of, and the turn's.
fn planned<R: Wait>(
    rt: &R,
    alloc: Global,
    shared: &SharedRepository,
    pass: Pass,
    ref_map: &RefMap,
    tags: Tags,
    shallow: &Shallow,
) -> Result<(Pass, Plan), (Pass, SharedError)>
    requires { pass.shared ≡ shared.now }
    ensures back { MatchResult result (λ r. IsBack pass r.0) (λ r. IsBack pass r.0) }
    ensures none { MatchResult result (λ r. entries_of pass.number r.0.front ≡ entries_of pass.number pass.front)
        (λ r. entries_of pass.number r.0.front ≡ entries_of pass.number pass.front) }
    ensures planned { IfOk result (λ r. HasPlanned pass r.0 (λ v. plan_of v ref_map.now tags shallow.now) r.1) }
    ensures memory { IfErr result (λ r. r.1 ≡ errors.NoMemory) }
{
    let (pass, answer) = shared.plan(rt, alloc, pass, ref_map, tags, shallow);
    match answer {
        Ok(plan) => Ok((pass, plan)),
        Err(e) => Err((pass, e)),
    }
}
