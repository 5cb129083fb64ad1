//! Listing the references of a remote, and mapping them.

ghost use Rattle.std.specs.Prelude.{◌≡◌, [], true, false, None, is_some, ◌&&◌, ◌++◌, IfOk, IfErr, OnOk, IsErrOf};
ghost use Rattle.fetch_conversation.specs.Blame.{BlamesPeer, BlamesInterrupt, is_told};
ghost use Rattle.fetch_conversation.specs.Receiving.{last_question};
ghost use Rattle.fetch_conversation.specs.Conversation.{Converses};
ghost use Rattle.fetch_conversation.specs.Errors.{is_free_listing, is_transport, is_interrupted};
ghost use Rattle.fetch_conversation.specs.ListStage.{ls_refs_stage, inquiry_told, list_stage, answer_shown, left_by, IsReady, all_specs};
ghost use Rattle.fetch_conversation.specs.ListStage.{with_tags, is_nil};
ghost use Rattle.fetch_conversation.specs.Listing.{IsOpened, TellsUnopened, Answers};
ghost use Rattle.fetch_wire.specs.SessionStates.{turn_of};
ghost use Rattle.fetch_wire.specs.declared.session.turn.Turn.TheVariants as turns;
ghost use Rattle.fetch_conversation.specs.declared.prepare.Error.TheVariants as errors;
ghost use Rattle.fetch_conversation.specs.declared.ref_map.Error.TheVariants as ref_map_errors;

use crate::asking::{copied_specs, joined_specs, prefixes_for, specs_with_tags};
use crate::drive::{drive, receive_buffer};
use crate::mapped::map_refs;
use crate::prepare;
use crate::progress::NoProgress;
use crate::ref_map::Options;
use fetch_specs::{RefSpec, Tags};
use fetch_store::{List, NoMemory};
use fetch_wire::{Handshake, Interrupt, Peer, Ref, RefMap, Session, WireError};
use std::alloc::Global;

/// What a server is asked for its references, lent.
#[derive(Clone, Copy, Debug)]
pub struct LsRefs<'a> {
    /// Where the repository is on the server.
    pub address: &'a [u8],
    /// Who asks. `git/` is put before it where it lacks that.
    pub agent: &'a [u8],
    /// The remote's refspecs to fetch by.
    pub specs: &'a [RefSpec],
    /// What is done with tags.
    pub tags: Tags,
}

/// A remote whose references are listed and mapped, with the conversation that goes on.
// Not copied: its conversation goes on with one peer.
#[derive(Drop)]
pub struct Listed {
    /// The conversation, with no request under way.
    pub session: Session,
    /// The references listed, and what they are mapped to.
    pub ref_map: RefMap,
    /// What the greeting said.
    pub handshake: Handshake,
}

/// A session that is opened for the query.
fn open(
    alloc: Global,
    query: &LsRefs<'_>,
    options: &Options,
    specs: &[RefSpec],
) -> Result<Session, WireError>
    requires { specs.now ≡ all_specs (inquiry_told query.now options.now) }
    ensures opened { IfOk result (λ s. IsOpened (inquiry_told query.now options.now) s) }
    ensures refused { IfErr result (λ e. TellsUnopened (inquiry_told query.now options.now) e) }
{
    let filtered = options.prefix_from_spec_as_filter_on_remote;
    let prefixes = prefixes_for(alloc, filtered, specs)?;
    Session::new(
        alloc,
        query.address,
        options.handshake_parameters.as_slice(),
        query.agent,
        &prefixes,
        options.max_reply_bytes,
    )
}

/// What the greeting and the listing told. The session hands the references over.
fn told(session: &mut Session) -> Result<(Handshake, List<Ref>), NoMemory>
    requires handshake { is_some session.old.handshake ≡ true }
    requires refs { is_some session.old.refs ≡ true }
    ensures told { IfOk result (λ x. (session.old.handshake ≡ Some x.0) × (session.old.refs ≡ Some x.1)) }
    ensures left { session.new ≡ record session.old { refs = None } }
{
    let Some(refs) = session.take_refs() else {
        unreachable!()
    };
    match session.handshake() {
        Some(handshake) => Ok((handshake.try_clone()?, refs)),
        None => unreachable!(),
    }
}

/// Maps what was listed.
fn map_listed(
    alloc: Global,
    query: &LsRefs<'_>,
    options: &Options,
    session: Session,
    extra: Vec<RefSpec>,
    specs: &[RefSpec],
) -> Result<Listed, prepare::Error>
    requires extra { extra.items ≡ with_tags query.now.tags options.now.extra_refspecs }
    requires specs { specs.now ≡ query.now.specs.now ++ extra.items }
    requires idle { turn_of session ≡ turns.Idle }
    requires handshake { is_some session.handshake ≡ true }
    requires refs { is_some session.refs ≡ true }
    requires unrefused { session.refused ≡ false }
    ensures answer { Answers (inquiry_told query.now options.now) session result }
    ensures ready { IfOk result (λ l. IsReady l) }
    ensures heard { IfErr result (λ e. is_transport e ≡ false) }
    ensures uninterrupted { IfErr result (λ e. is_interrupted e ≡ false) }
{
    let mut session = session;
    let (handshake, refs) = told(&mut session)?;
    let own = query.specs;
    let object_hash = handshake.object_hash;
    let mappings = map_refs(alloc, own.len(), specs, object_hash, refs.as_slice())?;
    let ref_map = RefMap {
        mappings: List::from(mappings),
        refspecs: List::from(copied_specs(alloc, own)?),
        extra_refspecs: List::from(extra),
        remote_refs: refs,
        object_hash,
    };
    Ok(Listed {
        session,
        ref_map,
        handshake,
    })
}

fn are_none(specs: &[RefSpec]) -> bool
    ensures { result ≡ is_nil specs.now }
{
    specs.is_empty()
}

/// Whether neither the remote nor the options name a refspec.
fn names_none(query: &LsRefs<'_>, options: &Options) -> bool
    ensures { result ≡ (is_nil query.now.specs.now && is_nil options.now.extra_refspecs) }
{
    are_none(query.specs) && are_none(options.extra_refspecs.as_slice())
}

/// Asks for the greeting, then for the listing, and maps what is listed, also where no refspec is named. The interrupt
/// is asked once before each receive. `Transport` comes only where the peer's faults rose, and `Interrupted` only where
/// the interrupt said yes; two sources of one destination are refused last.
pub fn ls_refs<P: Peer, I: Interrupt>(
    alloc: Global,
    query: &LsRefs<'_>,
    peer: &mut P,
    interrupt: &mut I,
    options: Options,
) -> Result<Listed, prepare::Error>
    ensures held { Converses is_free_listing is_interrupted P.answers options.max_reply_bytes (P.told peer.old) (P.told peer.new) []
        (left_by result) (ls_refs_stage options.max_reply_bytes (inquiry_told query.now options)) (answer_shown result) }
    ensures ready { IfOk result (λ l. IsReady l) }
    ensures bound { IfOk result (λ l. l.session.intake.bound ≡ options.max_reply_bytes) }
    ensures peer { BlamesPeer (P.faults peer.old) (P.faults peer.new) (is_told is_transport result) }
    ensures interrupt { BlamesInterrupt (I.yes interrupt.old) (I.yes interrupt.new) (I.will_stop interrupt.old) (I.will_stop interrupt.new)
        (P.told peer.old) (P.told peer.new) (last_question is_interrupted result) }
{
    let extra = specs_with_tags(alloc, query.tags, options.extra_refspecs.as_slice())?;
    let specs = joined_specs(alloc, query.specs, &extra)?;
    let mut session = open(alloc, query, &options, &specs)?;
    let mut buffer = receive_buffer(alloc)?;
    drive(&mut session, peer, interrupt, &mut NoProgress, &mut buffer)?;
    map_listed(alloc, query, &options, session, extra, &specs)
}

/// The same, where the remote or the options name a refspec. Where neither does, `MissingRefSpecs` comes before
/// anything is sent.
pub fn list<P: Peer, I: Interrupt>(
    alloc: Global,
    query: &LsRefs<'_>,
    peer: &mut P,
    interrupt: &mut I,
    options: Options,
) -> Result<Listed, prepare::Error>
    ensures held { Converses is_free_listing is_interrupted P.answers options.max_reply_bytes (P.told peer.old) (P.told peer.new) []
        (left_by result) (list_stage options.max_reply_bytes (inquiry_told query.now options)) (answer_shown result) }
    ensures ready { IfOk result (λ l. IsReady l) }
    ensures bound { IfOk result (λ l. l.session.intake.bound ≡ options.max_reply_bytes) }
    ensures peer { BlamesPeer (P.faults peer.old) (P.faults peer.new) (is_told is_transport result) }
    ensures interrupt { BlamesInterrupt (I.yes interrupt.old) (I.yes interrupt.new) (I.will_stop interrupt.old) (I.will_stop interrupt.new)
        (P.told peer.old) (P.told peer.new) (last_question is_interrupted result) }
{
    if names_none(query, &options) {
        return Err(prepare::Error::MissingRefSpecs);
    }
    ls_refs(alloc, query, peer, interrupt, options)
}
