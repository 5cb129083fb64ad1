//! The stages of a fetch, one call each.

ghost use Rattle.std.specs.Prelude.{◌≡◌, [], true, IfOk, IfSome};
ghost use Rattle.fetch_conversation.specs.Blame.{BlamesPeer, BlamesInterrupt, is_told};
ghost use Rattle.fetch_conversation.specs.Receiving.{last_question};
ghost use Rattle.fetch_store.specs.Collisions.{HasDistinctIds};
ghost use Rattle.fetch_store.specs.Stores.{AreOf};
ghost use Rattle.fetch_conversation.specs.Conversation.{Converses};
ghost use Rattle.fetch_conversation.specs.ConverseStage.{converse_stage};
ghost use Rattle.fetch_conversation.specs.Errors.{is_free_listing, is_free_receiving, is_client, is_interrupted, is_stopped, is_transport};
ghost use Rattle.fetch_conversation.specs.Errors.{asks_nothing};
ghost use Rattle.fetch_conversation.specs.ListStage.{list_stage, answer_shown, left_by, IsReady, shown, pending_of};
ghost use Rattle.fetch_remote.specs.Stages.{inquiry_of};

pub use crate::fetching::connection::{inquired, listed_for};
pub use crate::fetching::judging::judge;
pub use crate::fetching::keep::{Kept, keep, make_keep, remove_keep};
pub use crate::fetching::apply_options;
pub use crate::fetching::preparing::fetch_on;
pub use crate::fetching::applying::{ApplyOptions, TakenReply, status};
use crate::ref_map::Options;
use crate::remote::Remote;
use crate::remotes::direction::Direction;
use crate::{fetch, prepare};
use fetch_conversation::{FetchArguments, LsRefs, agent};
pub use fetch_conversation::{Listed, NoProgress, Progress, Received, Settings, View};
use fetch_negotiate::Shallow;
use fetch_specs::Tags;
use fetch_store::Objects;
use fetch_wire::{Interrupt, Peer};
use std::alloc::Global;
use std::thread::Threads;

/// Asks a remote for the greeting, then for the listing, and maps what is listed. The interrupt is asked once before
/// each receive.
pub fn list<P: Peer, I: Interrupt>(
    alloc: Global,
    remote: &Remote,
    settings: &Settings,
    peer: &mut P,
    interrupt: &mut I,
    options: Options,
) -> Result<Listed, prepare::Error>
    ensures held { Converses is_free_listing is_interrupted P.answers options.max_reply_bytes (P.told peer.old) (P.told peer.new) []
        (left_by result)
        (list_stage options.max_reply_bytes (inquiry_of remote.now settings.now options)) (answer_shown result) }
    ensures ready { IfOk result (λ l. IsReady l) }
    ensures bound { IfOk result (λ l. l.session.intake.bound ≡ options.max_reply_bytes) }
    ensures peer { BlamesPeer (P.faults peer.old) (P.faults peer.new) (is_told is_transport result) }
    ensures interrupt { BlamesInterrupt (I.yes interrupt.old) (I.yes interrupt.new) (I.will_stop interrupt.old) (I.will_stop interrupt.new)
        (P.told peer.old) (P.told peer.new) (last_question is_interrupted result) }
{
    let query = LsRefs {
        address: remote.address(),
        agent: agent(settings),
        specs: remote.refspecs(Direction::Fetch),
        tags: remote.fetch_tags(),
    };
    fetch_conversation::list(alloc, &query, peer, interrupt, options)
}

/// Asks for the pack of what is wanted, in rounds that tell which commits are there, and reads it. Where nothing is wanted,
/// nothing is sent. The interrupt is asked once before each receive. In a dry run the last reply is read up to the pack alone.
// Many arguments: the public signature of this stage.
pub fn converse<R: Threads + Sync, P: Peer, I: Interrupt, Q: Progress, O: Objects>(
    rt: &R,
    alloc: Global,
    listed: &mut Listed,
    settings: &Settings,
    view: &View,
    objects: &O,
    tags: Tags,
    shallow: &Shallow,
    dry_run: bool,
    peer: &mut P,
    progress: &mut Q,
    interrupt: &mut I,
) -> Result<Option<Received>, fetch::Error>
    requires { IsReady listed.old }
    ensures held { Converses is_free_receiving is_stopped P.answers listed.old.session.intake.bound (P.told peer.old) (P.told peer.new)
        (pending_of listed.old) (pending_of listed.new)
        (converse_stage listed.old.session.intake.bound (O.graph objects.now) (record {
          listed = shown listed.old;
          settings = settings.now;
          view = view.now;
          tags = tags;
          shallow = shallow.now;
          dry_run = dry_run;
        })) result }
    ensures of_kind { IfOk result (λ found. IfSome found (λ r. AreOf listed.old.handshake.object_hash r.objects)) }
    ensures distinct { IfOk result (λ found. IfSome found (λ r. HasDistinctIds r.objects)) }
    ensures kept { shown listed.new ≡ shown listed.old }
    ensures unasked { asks_nothing result ≡ true → listed.new ≡ listed.old }
    ensures peer { BlamesPeer (P.faults peer.old) (P.faults peer.new) (is_told is_client result) }
    ensures interrupt { BlamesInterrupt (I.yes interrupt.old) (I.yes interrupt.new) (I.will_stop interrupt.old) (I.will_stop interrupt.new)
        (P.told peer.old) (P.told peer.new) (last_question is_stopped result) }
{
    let arguments = FetchArguments {
        settings,
        view,
        tags,
        shallow,
        dry_run,
    };
    fetch_conversation::converse(
        rt, alloc, listed, &arguments, objects, peer, progress, interrupt,
    )
}
