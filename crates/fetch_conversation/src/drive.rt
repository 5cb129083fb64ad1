//! A session is driven: what it has to send is sent, and what its peer says is fed to it.

ghost use Rattle.std.specs.Prelude.{◌≡◌, ◌≢◌, ◌<◌, [], false, None, length, vec_len, IfErr, IfOk, OnOk, OnErr};
ghost use Rattle.fetch_conversation.specs.Blame.{BlamesPeer, BlamesInterrupt, is_told};
ghost use Rattle.fetch_conversation.specs.Receiving.{last_question};
ghost use Rattle.fetch_conversation.specs.Drives.{IsDrivable, Drives, IsDriven, IsUnsent, RunsOut, Takes, made_by};
ghost use Rattle.fetch_conversation.specs.declared.drive.DriveError.TheVariants as stops;
ghost use Rattle.fetch_lines.specs.declared.error.WireError.TheVariants as wire;
ghost use Rattle.fetch_conversation.specs.Errors.{is_failed, is_yes};
ghost use Rattle.fetch_wire.specs.SessionStates.{turn_of, IsAwaiting};
ghost use Rattle.fetch_lines.specs.Talks.{Sends, Makes};
ghost use Rattle.fetch_wire.specs.declared.session.turn.Turn.TheVariants as turns;

use crate::progress::Progress;
use fetch_store::{NoMemory, Text};
use fetch_wire::{Interrupt, Peer, SendFault, Session, Turn, WireError};
use std::alloc::Global;

/// How many bytes are received at once.
const PIECE: usize = 65_536;

/// Why a session was driven no further.
#[derive(Debug, Drop)]
pub(crate) enum DriveError {
    /// What the peer says is refused, or memory ran out.
    Refused(WireError),
    /// The peer failed.
    Failed,
    /// The interrupt said yes.
    Interrupted,
}

impl From<WireError> for DriveError {
    ghost use Rattle.std.specs.Prelude.{◌≡◌};
    ghost use Rattle.fetch_conversation.specs.declared.drive.DriveError.TheVariants as stops;

    ghost from_gives = { λ e s. s ≡ stops.Refused e };

    fn from(e: WireError) -> DriveError {
        DriveError::Refused(e)
    }
}

/// Sends what is to be sent.
fn send<P: Peer>(session: &mut Session, peer: &mut P) -> Result<(), DriveError>
    ensures session { OnOk result (session.new ≡ record session.old { outgoing = [] }) }
    ensures unsent { OnErr result (session.new ≡ session.old) }
    ensures talk { Sends P.answers (P.told peer.old) (P.told peer.new) result session.old.outgoing }
    ensures receives { Makes (P.told peer.old) (P.told peer.new) [] }
    ensures cause { IfErr result (λ e. IsUnsent e) }
    ensures peer { BlamesPeer (P.faults peer.old) (P.faults peer.new) (is_told is_failed result) }
{
    match peer.send(session.outgoing()) {
        Ok(()) => {
            session.sent(session.outgoing().len());
            Ok(())
        }
        Err(SendFault::Failed) => Err(DriveError::Failed),
        Err(SendFault::NoMemory) => Err(DriveError::Refused(WireError::NoMemory)),
    }
}

/// Receives what comes next, and feeds it. The interrupt is asked before, once.
fn receive<P: Peer, I: Interrupt>(
    session: &mut Session,
    peer: &mut P,
    interrupt: &mut I,
    buffer: &mut [u8],
) -> Result<(), DriveError>
    requires turn { turn_of session.old ≡ turns.Receive }
    requires awaits { IsAwaiting session.old }
    requires unrefused { session.old.refused ≡ false }
    requires room { 0 < length buffer.old }
    ensures taken { Takes (P.told peer.old) (P.told peer.new) session.old session.new result }
    ensures memory { IfErr result (λ e. e ≡ stops.Refused wire.NoMemory → session.new.trouble ≢ None) }
    ensures receives { Makes (P.told peer.old) (P.told peer.new) (made_by result) }
    ensures peer { BlamesPeer (P.faults peer.old) (P.faults peer.new) (is_told is_failed result) }
    ensures interrupt { BlamesInterrupt (I.yes interrupt.old) (I.yes interrupt.new) (I.will_stop interrupt.old) (I.will_stop interrupt.new)
        (P.told peer.old) (P.told peer.new) (last_question is_yes result) }
{
    if interrupt.asked() {
        return Err(DriveError::Interrupted);
    }
    let Ok(count) = peer.receive(buffer) else {
        return Err(DriveError::Failed);
    };
    if count == 0 {
        session.end()?;
        return Ok(());
    }
    session.feed(&buffer[..count])?;
    Ok(())
}

/// What is received into, for any number of requests.
pub(crate) fn receive_buffer(alloc: Global) -> Result<Vec<u8>, NoMemory>
    ensures { IfOk result (λ buffer. 0 < vec_len buffer) }
{
    Ok(vec![in alloc; 0u8; PIECE]?)
}

/// Tells the texts behind those that were told, which count as told then.
fn tell_behind<Q: Progress>(progress: &mut Q, texts: &[Text], told: &mut usize) {
    let first = *told;
    if first < texts.len() {
        for text in &texts[first..] {
            progress.text(text.as_bytes());
        }
    }
    *told = texts.len();
}

/// Sends and receives by this buffer until nothing is to be sent and no reply is awaited. The interrupt is asked once
/// before each receive. Texts of progress are told before each turn, and how many were told is counted on. It comes to
/// an end since a reply has a bound, and each receive brings some of it.
fn take_turns<P: Peer, I: Interrupt, Q: Progress>(
    session: &mut Session,
    peer: &mut P,
    interrupt: &mut I,
    progress: &mut Q,
    told: &mut usize,
    buffer: &mut [u8],
) -> Result<(), DriveError>
    requires drivable { IsDrivable session.old }
    requires room { 0 < length buffer.old }
    ensures { IsDriven P.answers (P.told peer.old) (P.told peer.new) session.old session.new (P.faults peer.old) (P.faults peer.new)
        (I.yes interrupt.old) (I.yes interrupt.new) (I.will_stop interrupt.old) (I.will_stop interrupt.new) result }
{
    'turns: loop {
        tell_behind(progress, session.progress(), told);
        match session.poll() {
            Turn::Send => send(session, peer)?,
            Turn::Receive => receive(session, peer, interrupt, buffer)?,
            Turn::Idle => return Ok(()),
            Turn::Failed => session.end()?,
        }
    }
}

/// Sends and receives by this buffer until nothing is to be sent and no reply is awaited. The interrupt is asked once
/// before each receive. The server's texts of progress are told as they come, where it is refused too.
pub(crate) fn drive<P: Peer, I: Interrupt, Q: Progress>(
    session: &mut Session,
    peer: &mut P,
    interrupt: &mut I,
    progress: &mut Q,
    buffer: &mut [u8],
) -> Result<(), DriveError>
    requires drivable { IsDrivable session.old }
    requires room { 0 < length buffer.old }
    ensures driven { Drives P.answers (P.told peer.old) (P.told peer.new) session.old session.new result }
    ensures memory { RunsOut session.old session.new result }
    ensures peer { BlamesPeer (P.faults peer.old) (P.faults peer.new) (is_told is_failed result) }
    ensures interrupt { BlamesInterrupt (I.yes interrupt.old) (I.yes interrupt.new) (I.will_stop interrupt.old) (I.will_stop interrupt.new)
        (P.told peer.old) (P.told peer.new) (last_question is_yes result) }
{
    let mut told = 0;
    let end = take_turns(session, peer, interrupt, progress, &mut told, buffer);
    tell_behind(progress, session.progress(), &mut told);
    end
}
