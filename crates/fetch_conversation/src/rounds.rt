//! The rounds of a fetch: one request after another, until one of them ends the rounds.

ghost use Rattle.std.specs.Prelude.{◌≡◌, ◌<◌, ◌∷◌, ◌++◌, ◌||◌, [], true, false, suc, None, IfOk, OnOk, IfErr, is_some, length};
ghost use Rattle.std.specs.FinMap as map;
ghost use Rattle.fetch_conversation.specs.Blame.{BlamesPeer, BlamesInterrupt, is_told};
ghost use Rattle.fetch_conversation.specs.Receiving.{last_question};
ghost use Rattle.fetch_base.specs.declared.id.ObjectId.{ObjectId as Id};
ghost use Rattle.fetch_lines.specs.KnownIds.{each_once};
ghost use Rattle.fetch_negotiate.specs.Any.{algorithm_of, known_by, so_far_of};
ghost use Rattle.fetch_negotiate.specs.Reading.{IsTold};
ghost use Rattle.fetch_negotiate.specs.Rounds.{sharing_all};
ghost use Rattle.fetch_negotiate.specs.Windows.{next_size};
ghost use Rattle.fetch_conversation.specs.Conversation.{Converses};
ghost use Rattle.fetch_conversation.specs.ConverseStage.{algorithm_in};
ghost use Rattle.fetch_conversation.specs.Conversing.{Holds, rounds_state_of, negotiated_of, arguments_told};
ghost use Rattle.fetch_conversation.specs.Errors.{is_free_receiving, is_client, is_stopped, is_unasked};
ghost use Rattle.fetch_conversation.specs.ListStage.{IsReady, IsReadyAgain, shown, pending_of};
ghost use Rattle.fetch_conversation.specs.Rounds as spec;
ghost use Rattle.fetch_conversation.specs.declared.fetch.Error.TheVariants as errors;

use crate::conversing::FetchArguments;
use crate::copies::copied_ids;
use crate::drive::receive_buffer;
use crate::exchange::exchange;
use crate::fetch;
use crate::listing::Listed;
use crate::negotiate::Negotiate;
use crate::progress::Progress;
use crate::reading_settings::algorithm;
use crate::settings::Settings;
use fetch_negotiate::{Algorithm, AnyNegotiator, Negotiator, Round};
use fetch_store::{List, NoMemory, ObjectId, Objects};
use fetch_wire::{FetchReply, Interrupt, Peer, each_once};
use std::alloc::Global;

/// How many commits the first window has, if so many are to be told.
const FIRST_SIZE: usize = 16;

/// How many commits a window has at most.
const LARGEST_SIZE: usize = 1024;

/// How far the rounds of a fetch are.
#[derive(Debug, Drop)]
pub(crate) struct RoundsState {
    negotiator: AnyNegotiator,
    /// The ids acknowledged so far, each once, in the order in which each first was.
    shared: Vec<ObjectId>,
    rounds: List<Round>,
    /// How many commits the next window may have.
    size: usize,
}

/// How commits are chosen. A setting that can't be read was refused before.
fn chosen(settings: &Settings) -> Algorithm
    ensures { result ≡ algorithm_in settings.now }
{
    match algorithm(settings) {
        Ok(algorithm) => algorithm,
        Err(_) => Algorithm::Consecutive,
    }
}

/// How many commits the window after one of this size may have.
fn next_size(size: usize) -> usize
    ensures { result ≡ next_size size }
{
    if size < LARGEST_SIZE / 2 {
        size * 2
    } else {
        LARGEST_SIZE
    }
}

impl RoundsState {
    /// Before the first round.
    fn new(alloc: Global, arguments: &FetchArguments<'_>) -> Result<RoundsState, NoMemory>
        ensures state { IfOk result (λ c. rounds_state_of c
            ≡ spec.first_rounds_state (algorithm_in arguments.now.settings.now) arguments.now.view.now) }
        ensures algorithm { IfOk result (λ c. algorithm_of c.negotiator ≡ algorithm_in arguments.now.settings.now) }
        ensures unread { IfOk result (λ c. (id : Id) → known_by c.negotiator id ≡ None) }
    {
        let algorithm = chosen(arguments.settings);
        let tips = arguments.view.tips.as_slice();
        Ok(RoundsState {
            negotiator: AnyNegotiator::new(alloc, algorithm, tips, &arguments.view.border)?,
            shared: Vec::new(alloc),
            rounds: List::new(alloc),
            size: FIRST_SIZE,
        })
    }

    /// The next round, which isn't answered yet.
    fn next<O: Objects>(&mut self, objects: &O) -> Result<Round, NoMemory>
        requires { IsTold (known_by self.old.negotiator) (O.graph objects.now) }
        ensures round { IfOk result (λ r. r ≡ record {
          haves = (spec.next_window (O.graph objects.now) (algorithm_of self.old.negotiator) (rounds_state_of self.old)).haves;
          acknowledged = [];
          done = spec.is_short (rounds_state_of self.old)
              (spec.next_window (O.graph objects.now) (algorithm_of self.old.negotiator) (rounds_state_of self.old));
        }) }
        ensures state { OnOk result (rounds_state_of self.new
            ≡ record (rounds_state_of self.old) {
              so_far = (spec.next_window (O.graph objects.now) (algorithm_of self.old.negotiator)
                  (rounds_state_of self.old)).later;
            }) }
        ensures algorithm { algorithm_of self.new.negotiator ≡ algorithm_of self.old.negotiator }
        ensures told { IsTold (known_by self.new.negotiator) (O.graph objects.now) }
    {
        let alloc = self.rounds.allocator();
        let window = self.negotiator.window(alloc, objects, self.size)?;
        let done = window.len() < self.size;
        Ok(Round {
            haves: List::from(window),
            acknowledged: List::new(alloc),
            done,
        })
    }

    /// Tells the negotiator what the other side has.
    fn tell<O: Objects>(&mut self, objects: &O, ids: &[ObjectId]) -> Result<(), NoMemory>
        requires { IsTold (known_by self.old.negotiator) (O.graph objects.now) }
        ensures state { OnOk result (rounds_state_of self.new
            ≡ record (rounds_state_of self.old) {
              so_far = sharing_all (algorithm_of self.old.negotiator)
                  (rounds_state_of self.old).so_far ids.now;
            }) }
        ensures algorithm { algorithm_of self.new.negotiator ≡ algorithm_of self.old.negotiator }
        ensures told { IsTold (known_by self.new.negotiator) (O.graph objects.now) }
    {
        let alloc = self.rounds.allocator();
        for id in ids {
            self.negotiator.in_common(alloc, objects, id)?;
        }
        Ok(())
    }

    /// Takes in what a reply acknowledges, before the next round.
    fn share<O: Objects>(&mut self, objects: &O, ids: &[ObjectId]) -> Result<(), NoMemory>
        requires { IsTold (known_by self.old.negotiator) (O.graph objects.now) }
        ensures state { OnOk result (rounds_state_of self.new ≡ record {
          so_far = sharing_all (algorithm_of self.old.negotiator) (rounds_state_of self.old).so_far ids.now;
          shared = each_once (self.old.shared.items ++ ids.now);
          rounds = self.old.rounds;
          size = next_size self.old.size;
        }) }
        ensures algorithm { algorithm_of self.new.negotiator ≡ algorithm_of self.old.negotiator }
        ensures told { IsTold (known_by self.new.negotiator) (O.graph objects.now) }
    {
        self.tell(objects, ids)?;
        self.shared.extend_from_slice(ids)?;
        self.shared = each_once(self.rounds.allocator(), &self.shared)?;
        self.size = next_size(self.size);
        Ok(())
    }

    /// Takes in a round that was answered so, and answers whether that ends the rounds.
    fn take_in<O: Objects>(
        &mut self,
        objects: &O,
        round: Round,
        reply: &FetchReply,
    ) -> Result<bool, NoMemory>
        requires { IsTold (known_by self.old.negotiator) (O.graph objects.now) }
        ensures ends { IfOk result (λ last. last ≡ (round.done || reply.now.last)) }
        ensures rounds { OnOk result (self.new.rounds ≡ self.old.rounds
            ++ (record { haves = round.haves; acknowledged = reply.now.acknowledged; done = round.done }) ∷ []) }
        ensures goes { IfOk result (λ last. last ≡ false → rounds_state_of self.new ≡ record {
          so_far = sharing_all (algorithm_of self.old.negotiator) (rounds_state_of self.old).so_far reply.now.acknowledged;
          shared = each_once (self.old.shared.items ++ reply.now.acknowledged);
          rounds = self.old.rounds ++ (record { haves = round.haves; acknowledged = reply.now.acknowledged; done = round.done }) ∷ [];
          size = next_size self.old.size;
        }) }
        ensures algorithm { algorithm_of self.new.negotiator ≡ algorithm_of self.old.negotiator }
        ensures told { IsTold (known_by self.new.negotiator) (O.graph objects.now) }
    {
        let last = round.done || reply.last;
        self.rounds.push(Round {
            haves: round.haves,
            acknowledged: copied_ids(&reply.acknowledged)?,
            done: round.done,
        })?;
        if last {
            return Ok(true);
        }
        self.share(objects, reply.acknowledged.as_slice())?;
        Ok(false)
    }
}

/// Holds the next round, and answers whether that ends the rounds. The session keeps the reply.
// Many arguments: each is lent by itself, so that a clause speaks of each before and after the call.
fn hold_round<P: Peer, I: Interrupt, Q: Progress, O: Objects>(
    listed: &mut Listed,
    arguments: &FetchArguments<'_>,
    state: &mut RoundsState,
    objects: &O,
    peer: &mut P,
    interrupt: &mut I,
    progress: &mut Q,
    buffer: &mut [u8],
) -> Result<bool, fetch::Error>
    requires ready { IsReady listed.old }
    requires room { 0 < length buffer.old }
    requires told { IsTold (known_by state.old.negotiator) (O.graph objects.now) }
    ensures held { Holds P.answers listed.old.session.intake.bound (P.told peer.old) (P.told peer.new) (pending_of listed.old)
        (pending_of listed.new)
        (arguments_told (shown listed.old) arguments.now) (O.graph objects.now) (algorithm_of state.old.negotiator)
        (rounds_state_of state.old)
        (rounds_state_of state.new) listed.new.session.reply result }
    ensures asked { IfErr result (λ e. is_unasked e ≡ false) }
    ensures algorithm { OnOk result (algorithm_of state.new.negotiator ≡ algorithm_of state.old.negotiator) }
    ensures told { OnOk result (IsTold (known_by state.new.negotiator) (O.graph objects.now)) }
    ensures again { OnOk result (IsReadyAgain listed.old listed.new) }
    ensures kept { shown listed.new ≡ shown listed.old }
    ensures peer { BlamesPeer (P.faults peer.old) (P.faults peer.new) (is_told is_client result) }
    ensures interrupt { BlamesInterrupt (I.yes interrupt.old) (I.yes interrupt.new) (I.will_stop interrupt.old) (I.will_stop interrupt.new)
        (P.told peer.old) (P.told peer.new) (last_question is_stopped result) }
{
    let round = state.next(objects)?;
    exchange(
        listed,
        arguments,
        state.shared.as_slice(),
        &round,
        peer,
        interrupt,
        progress,
        buffer,
    )?;
    match listed.session.reply() {
        Some(reply) => Ok(state.take_in(objects, round, reply)?),
        None => unreachable!(),
    }
}

/// How many rounds there are at most: one more than there are objects. No memory holds so many that there is no such
/// number.
fn most_rounds<O: Objects>(objects: &O) -> Result<usize, NoMemory>
    ensures { IfOk result (λ most. most ≡ suc (map.len (O.graph objects.now))) }
{
    match objects.len().checked_add(1) {
        Some(most) => Ok(most),
        None => Err(NoMemory),
    }
}

/// Holds the rounds until one of them ends them. The session keeps the last reply, and the server's texts of progress are
/// told as they come. The interrupt is asked once before each receive.
// Many arguments: each is lent by itself, so that a clause speaks of each before and after the call.
pub(crate) fn negotiate<P: Peer, I: Interrupt, Q: Progress, O: Objects>(
    alloc: Global,
    listed: &mut Listed,
    arguments: &FetchArguments<'_>,
    objects: &O,
    peer: &mut P,
    interrupt: &mut I,
    progress: &mut Q,
) -> Result<Negotiate, fetch::Error>
    requires { IsReady listed.old }
    ensures held { Converses is_free_receiving is_stopped P.answers listed.old.session.intake.bound (P.told peer.old) (P.told peer.new)
        (pending_of listed.old) (pending_of listed.new)
        (spec.negotiating (suc (map.len (O.graph objects.now))) listed.old.session.intake.bound
        (arguments_told (shown listed.old) arguments.now)
        (O.graph objects.now) (algorithm_in arguments.now.settings.now)
        (spec.first_rounds_state (algorithm_in arguments.now.settings.now) arguments.now.view.now))
        (negotiated_of result listed.new.session.reply) }
    ensures replied { OnOk result (is_some listed.new.session.reply ≡ true) }
    ensures asked { IfErr result (λ e. is_unasked e ≡ false) }
    ensures kept { shown listed.new ≡ shown listed.old }
    ensures peer { BlamesPeer (P.faults peer.old) (P.faults peer.new) (is_told is_client result) }
    ensures interrupt { BlamesInterrupt (I.yes interrupt.old) (I.yes interrupt.new) (I.will_stop interrupt.old) (I.will_stop interrupt.new)
        (P.told peer.old) (P.told peer.new) (last_question is_stopped result) }
{
    let most = most_rounds(objects)?;
    let mut state = RoundsState::new(alloc, arguments)?;
    let mut bytes = receive_buffer(alloc)?;
    let buffer = bytes.as_mut_slice();
    for _ in 0..most {
        if hold_round(
            listed, arguments, &mut state, objects, peer, interrupt, progress, buffer,
        )? {
            return Ok(Negotiate {
                rounds: state.rounds,
            });
        }
    }
    unreachable!()
}
