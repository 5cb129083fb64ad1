//! The conversation of a fetch.

ghost use Rattle.std.specs.Prelude.{◌≡◌, true, IfOk, IfSome};
ghost use Rattle.fetch_conversation.specs.Blame.{BlamesPeer, BlamesInterrupt, is_told};
ghost use Rattle.fetch_conversation.specs.Receiving.{last_question};
ghost use Rattle.fetch_store.specs.Collisions.{HasDistinctIds};
ghost use Rattle.fetch_store.specs.Graph.{graph_of};
ghost use Rattle.fetch_store.specs.Stores.{AreOf};
ghost use Rattle.fetch_conversation.specs.ConverseStage.{algorithm_in};
ghost use Rattle.fetch_conversation.specs.ListStage.{IsReady};
ghost use Rattle.fetch_conversation.specs.Errors.{is_client, is_stopped};
ghost use Rattle.fetch_negotiate.specs.Tips.{tips_of};
ghost use Rattle.fetch_remote.specs.Repositories.{state_of, setup_of};
ghost use Rattle.fetch_remote.specs.Showing as showing;
ghost use Rattle.fetch_remote.specs.Showing.{Shows};
ghost use Rattle.fetch_remote.specs.Steps.{NegotiatesAndReceives};

use crate::fetch;
use crate::fetching::options::FetchOptions;
use crate::phases::converse;
use crate::remote::Remote;
use crate::repository::Repository;
use fetch_conversation::{Listed, Progress, Received, Settings, View, algorithm};
use fetch_negotiate::{Algorithm, Shallow, tips, wants};
use fetch_specs::Tags;
use fetch_store::{List, NoMemory, ObjectId};
use fetch_wire::{Interrupt, Peer, RefMap};
use std::alloc::Global;
use std::thread::Threads;

/// What a conversation brought: what was listed, what was wanted of it, and what was received.
#[derive(Drop)]
pub(crate) struct Exchange {
    pub(crate) listed: Listed,
    pub(crate) wants: List<ObjectId>,
    pub(crate) received: Option<Received>,
}

/// Holds the second stage of a fetch whose references were listed.
// Many arguments: what is asked by, and each of what is lent.
pub(crate) fn negotiate_and_receive<R: Threads + Sync, P: Peer, Q: Progress, I: Interrupt>(
    rt: &R,
    alloc: Global,
    remote: &Remote,
    repo: &Repository,
    listed: Listed,
    peer: &mut P,
    progress: &mut Q,
    interrupt: &mut I,
    options: &FetchOptions,
) -> Result<Exchange, fetch::Error>
    requires ready { IsReady listed }
    requires bound { listed.session.intake.bound ≡ options.now.map.max_reply_bytes }
    ensures held { NegotiatesAndReceives P.answers (P.told peer.old) (P.told peer.new)
        (record { remote = remote.now; options = options.now; setup = setup_of repo.now }) (state_of repo.now) listed result }
    ensures of_kind { IfOk result (λ t. IfSome t.received (λ r. AreOf (state_of repo.now).hash r.objects)) }
    ensures distinct { IfOk result (λ t. IfSome t.received (λ r. HasDistinctIds r.objects)) }
    ensures peer { BlamesPeer (P.faults peer.old) (P.faults peer.new) (is_told is_client result) }
    ensures interrupt { BlamesInterrupt (I.yes interrupt.old) (I.yes interrupt.new) (I.will_stop interrupt.old) (I.will_stop interrupt.new)
        (P.told peer.old) (P.told peer.new) (last_question is_stopped result) }
{
    let mut listed = listed;
    let tags = remote.fetch_tags();
    let view = view(alloc, repo, &listed.ref_map, tags, &options.shallow)?;
    let received = converse(
        rt,
        alloc,
        &mut listed,
        repo.settings(),
        &view,
        repo.store(),
        tags,
        &options.shallow,
        options.dry_run,
        peer,
        progress,
        interrupt,
    )?;
    Ok(Exchange {
        listed,
        wants: view.wants,
        received,
    })
}

/// What a repository shows to a fetch that maps these references.
fn view(
    alloc: Global,
    repo: &Repository,
    ref_map: &RefMap,
    tags: Tags,
    shallow: &Shallow,
) -> Result<View, NoMemory>
    ensures { IfOk result (Shows (state_of repo.now) (setup_of repo.now).settings ref_map.now tags shallow.now) }
{
    let wants = wants(alloc, ref_map, tags, shallow, repo.store())?;
    let tips = tips_for(alloc, repo, &wants)?;
    Ok(View {
        wants: List::from(wants),
        border: repo.border().try_clone()?,
        tips: List::from(tips),
    })
}

/// The tips, computed only where they are asked for.
fn tips_for(alloc: Global, repo: &Repository, wants: &[ObjectId]) -> Result<Vec<ObjectId>, NoMemory>
    ensures { showing.needs_tips (algorithm_in (setup_of repo.now).settings) wants.now ≡ true
        → IfOk result (λ tips. tips.items ≡ tips_of (state_of repo.now).refs.names (graph_of (state_of repo.now).objects)) }
{
    if needs_tips(repo.settings(), wants) {
        tips(alloc, repo.refs(), repo.store())
    } else {
        Ok(Vec::new(alloc))
    }
}

/// Whether the tips are asked for: something is wanted, and the algorithm walks from them.
#[tactic(auto, using(fetch_conversation::proofs::Nil::nil_length))]
fn needs_tips(settings: &Settings, wants: &[ObjectId]) -> bool
    ensures { result ≡ showing.needs_tips (algorithm_in settings.now) wants.now }
{
    !wants.is_empty() && !matches!(algorithm(settings), Ok(Algorithm::Noop))
}
