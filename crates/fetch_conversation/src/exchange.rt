//! One request for a pack, and its reply.

ghost use Rattle.std.specs.Prelude.{◌≡◌, ◌<◌, IfErr, OnOk, true, false, is_some, length};
ghost use Rattle.fetch_conversation.specs.Blame.{BlamesPeer, BlamesInterrupt, is_told};
ghost use Rattle.fetch_conversation.specs.Receiving.{last_question};
ghost use Rattle.fetch_conversation.specs.Conversation.{Converses};
ghost use Rattle.fetch_conversation.specs.Conversing.{IsAsked, reply_of, arguments_told};
ghost use Rattle.fetch_conversation.specs.Errors.{is_free_receiving, is_client, is_stopped, is_unasked};
ghost use Rattle.fetch_conversation.specs.Exchange as spec;
ghost use Rattle.fetch_conversation.specs.Exchange.{asked_by, haves_told};
ghost use Rattle.fetch_conversation.specs.ListStage.{IsReady, IsReadyAgain, shown, pending_of};
ghost use Rattle.fetch_conversation.specs.declared.fetch.Error.TheVariants as errors;
ghost use Rattle.fetch_negotiate.specs.Requests.{fetch_request};
ghost use Rattle.fetch_lines.specs.Written.{first_too_long, TellsTooLong};

use crate::conversing::FetchArguments;
use crate::drive::drive;
use crate::fetch;
use crate::listing::Listed;
use crate::progress::Progress;
use crate::reading_settings::agent;
use fetch_negotiate::{Round, request_of};
use fetch_store::ObjectId;
use fetch_wire::{Interrupt, Peer, WireError};
use std::alloc::Global;

/// The request of a round, which is to be sent: the ids acknowledged before, then the window.
fn ask(
    alloc: Global,
    listed: &mut Listed,
    arguments: &FetchArguments<'_>,
    shared: &[ObjectId],
    round: &Round,
) -> Result<(), WireError>
    requires { IsReady listed.old }
    ensures asked { OnOk result (IsAsked (arguments_told (shown listed.old) arguments.now)
        (haves_told shared.now round.now.haves) round.now.done listed.old.session listed.new.session) }
    ensures too_long { IfErr result (λ e. TellsTooLong
        (first_too_long (fetch_request (asked_by (arguments_told (shown listed.old) arguments.now))
        (haves_told shared.now round.now.haves) round.now.done)) e) }
    ensures kept { shown listed.new ≡ shown listed.old }
{
    let request = request_of(
        alloc,
        &listed.handshake,
        agent(arguments.settings),
        arguments.tags,
        arguments.shallow,
        &arguments.view.border,
        arguments.view.wants.as_slice(),
        shared,
        round.haves.as_slice(),
        round.done,
    )?;
    listed.session.request(&request, !arguments.dry_run)
}

/// Asks for the pack in a round, and reads the reply by this buffer. The session keeps it where nothing is refused, and the
/// server's texts of progress are told as they come. The interrupt is asked once before each receive.
// Many arguments: each is lent by itself, so that a clause speaks of each before and after the call.
pub(crate) fn exchange<P: Peer, I: Interrupt, Q: Progress>(
    listed: &mut Listed,
    arguments: &FetchArguments<'_>,
    shared: &[ObjectId],
    round: &Round,
    peer: &mut P,
    interrupt: &mut I,
    progress: &mut Q,
    buffer: &mut [u8],
) -> Result<(), fetch::Error>
    requires ready { IsReady listed.old }
    requires room { 0 < length buffer.old }
    ensures held { Converses is_free_receiving is_stopped P.answers listed.old.session.intake.bound (P.told peer.old) (P.told peer.new)
        (pending_of listed.old) (pending_of listed.new)
        (spec.exchange listed.old.session.intake.bound (arguments_told (shown listed.old) arguments.now)
        (haves_told shared.now round.now.haves) round.now.done) (reply_of result listed.new.session.reply) }
    ensures replied { OnOk result (is_some listed.new.session.reply ≡ true) }
    ensures asked { IfErr result (λ e. is_unasked e ≡ false) }
    ensures again { OnOk result (IsReadyAgain listed.old listed.new) }
    ensures kept { shown listed.new ≡ shown listed.old }
    ensures peer { BlamesPeer (P.faults peer.old) (P.faults peer.new) (is_told is_client result) }
    ensures interrupt { BlamesInterrupt (I.yes interrupt.old) (I.yes interrupt.new) (I.will_stop interrupt.old) (I.will_stop interrupt.new)
        (P.told peer.old) (P.told peer.new) (last_question is_stopped result) }
{
    let alloc = round.haves.allocator();
    ask(alloc, listed, arguments, shared, round)?;
    drive(&mut listed.session, peer, interrupt, progress, buffer)?;
    Ok(())
}
