//! A peer and an interrupt that follow a script.

ghost use Rattle.std.specs.Prelude.{◌≡◌, ◌≤◌, ◌↔◌, ◌+◌, ◌-◌, ◌∷◌, ℕ, suc, [], nat_lt, min, length, Some, None, IsErr, IsOk, IsErrOf};
ghost use Rattle.std.specs.Prelude.{IsTrue, OnErr, IfOk, Contains, false, slice_index_or};
ghost use Rattle.std.specs.List.{concat};
ghost use Rattle.fetch_base.specs.Faults.{Faults, Rose, Counts};
ghost use Rattle.fetch_lines.specs.Talks.{Talk, Sends, Receives, Makes, at_once};
ghost use Rattle.fetch_base.specs.Calls.{one_more, faults_of, risen_after};
ghost use Rattle.fetch_wire.specs.Scripts.{given_of, pieces_from, from_first, first_of, without, talk_of, sends_failed, said_after};
ghost use Rattle.fetch_wire.specs.Scripts.{IsListed};

use fetch_base::{Calls, Failed, NoMemory, Text, copy_from, copy_slice};
use fetch_lines::{Interrupt, Peer, SendFault};
use opening_value::Openings;
use std::alloc::Global;
use std::marker::Model;

/// What a scripted peer received, and how far it gave its pieces: up to an offset in one of them.
#[derive(Debug, Drop)]
struct Said {
    pieces: Vec<Text>,
    piece: usize,
    offset: usize,
    heard: Vec<u8>,
}

/// A peer that gives these pieces, whatever it hears, one piece at most for each `receive`. The calls whose numbers
/// are listed fail, where numbers count its calls of both kinds from 0. Contracts see what it received and gave, the pieces
/// still to be given, its receives, and its calls.
#[derive(Debug, Drop)]
pub struct ScriptedPeer {
    said: Said,
    /// What was said before each receive.
    receives: Openings<Said>,
    calls: Calls,
    failed: u64,
}

impl Model for ScriptedPeer {
    ghost use Rattle.std.specs.Prelude.{◌≤◌, length, slice_index_or, [], map};
    ghost use Rattle.fetch_wire.specs.Scripts.{Script, given_of, pieces_from};

    ghost Value = { Script };

    ghost view = { λ p. record {
      heard = p.said.heard.items;
      given = given_of p.said.pieces.items p.said.piece p.said.offset;
      pieces = pieces_from p.said.pieces.items p.said.piece p.said.offset;
      receives = map (λ s. record { heard = s.heard.items; given = given_of s.pieces.items s.piece s.offset }) p.receives.values;
      calls = p.calls;
      failed = p.failed;
    } };

    ghost invariant = { λ p. (p.said.piece ≤ length p.said.pieces.items)
        × (p.said.offset ≤ length (slice_index_or p.said.pieces.items p.said.piece [])) };
}

impl ScriptedPeer {
    /// A peer that gives these pieces in order and fails at the calls with these numbers, in any order.
    pub fn new(alloc: Global, pieces: Vec<Text>, failing: Vec<u64>) -> ScriptedPeer
        ensures told { ⟦<ScriptedPeer as Peer>⟧.told result
            ≡ Some (record { heard = []; given = []; to_come = concat pieces.items; receives = []; rule = None }) }
        ensures faults { ⟦<ScriptedPeer as Peer>⟧.faults result ≡ record { count = 0; possible = nat_lt 0 (length failing.items) } }
        ensures pieces { result.pieces ≡ pieces.items }
        ensures failing { (n : ℕ) → Contains result.calls.listed n ↔ Contains failing.items n }
        ensures first { result.calls.next ≡ 0 }
    {
        let said = Said {
            pieces,
            piece: 0,
            offset: 0,
            heard: Vec::new(alloc),
        };
        ScriptedPeer {
            said,
            receives: Openings::new(),
            calls: Calls::new(failing),
            failed: 0,
        }
    }

    /// A peer that received and gave the same, and has the same still to give and to fail at.
    pub fn try_clone(&self) -> Result<ScriptedPeer, NoMemory>
        ensures { IfOk result (λ copy. copy ≡ self.now) }
    {
        let said = &self.said;
        Ok(ScriptedPeer {
            said: Said {
                pieces: copy_slice(*said.pieces.allocator(), &said.pieces)?.into_vec(),
                piece: said.piece,
                offset: said.offset,
                heard: said.heard.clone()?,
            },
            receives: self.receives.again(),
            calls: self.calls.try_clone()?,
            failed: self.failed,
        })
    }

    /// The bytes that it received so far.
    pub fn heard(&self) -> &[u8]
        ensures { result.now ≡ self.now.heard }
    {
        &self.said.heard
    }
}

/// The first place from here on where a byte stands, or the end.
fn next_place(pieces: &[Text], piece: usize, offset: usize) -> (usize, usize)
    requires in_piece { offset ≤ length (slice_index_or pieces.now piece []) }
    requires in_pieces { piece ≤ length pieces.now }
    ensures in_pieces { result.0 ≤ length pieces.now }
    ensures in_piece { result.1 ≤ length (slice_index_or pieces.now result.0 []) }
    ensures given { given_of pieces.now result.0 result.1 ≡ given_of pieces.now piece offset }
    ensures left { pieces_from pieces.now result.0 result.1 ≡ from_first (pieces_from pieces.now piece offset) }
{
    let mut piece = piece;
    let mut offset = offset;
    while piece < pieces.len() && offset == pieces[piece].as_bytes().len() {
        piece += 1;
        offset = 0;
    }
    (piece, offset)
}

impl Peer for ScriptedPeer {
    ghost told = { λ p. Some (talk_of p) };

    ghost faults = { λ p. faults_of p.calls p.failed };

    ghost answers = { false };

    /// Hears the bytes, or fails where this call is listed.
    fn send(&mut self, bytes: &[u8]) -> Result<(), SendFault>
        ensures talk { Sends false (Some (talk_of self.old)) (Some (talk_of self.new)) result bytes.now }
        ensures receives { Makes (Some (talk_of self.old)) (Some (talk_of self.new)) [] }
        ensures counts { Counts (faults_of self.old.calls self.old.failed) (faults_of self.new.calls self.new.failed) }
        ensures cause { IsErrOf result SendFault.Failed
            → Rose (faults_of self.old.calls self.old.failed) (faults_of self.new.calls self.new.failed) }
        ensures fails { IsErrOf result SendFault.Failed ↔ Contains self.old.calls.listed self.old.calls.next }
        ensures failed { self.new.failed ≡ sends_failed self.old.failed result }
        ensures unheard { OnErr result (self.new.heard ≡ self.old.heard) }
        ensures pieces { self.new.pieces ≡ self.old.pieces }
        ensures next { self.new.calls.next ≡ one_more self.old.calls.next }
        ensures listed { self.new.calls.listed ≡ self.old.calls.listed }
    {
        if self.calls.count() {
            self.failed = self.failed.saturating_add(1);
            return Err(SendFault::Failed);
        }
        match self.said.heard.extend_from_slice(bytes) {
            Ok(()) => Ok(()),
            Err(_) => Err(SendFault::NoMemory),
        }
    }

    /// Gives the next piece that isn't empty, as far as it fits, or fails where this call is listed. What didn't fit is
    /// the piece that comes next.
    fn receive(&mut self, into: &mut [u8]) -> Result<usize, Failed>
        ensures bound { IfOk result (λ count. count ≤ length into.new) }
        ensures talk { Receives (Some (talk_of self.old)) (Some (talk_of self.new)) result into.new }
        ensures receives { Makes (Some (talk_of self.old)) (Some (talk_of self.new)) (at_once ∷ []) }
        ensures fits { IfOk result (λ count. count ≡ min (length into.new) (length (first_of (from_first self.old.pieces)))) }
        ensures left { IfOk result (λ count. self.new.pieces ≡ without count (from_first self.old.pieces)) }
        ensures kept { OnErr result (self.new.pieces ≡ self.old.pieces) }
        ensures counts { Counts (faults_of self.old.calls self.old.failed) (faults_of self.new.calls self.new.failed) }
        ensures cause { OnErr result (Rose (faults_of self.old.calls self.old.failed) (faults_of self.new.calls self.new.failed)) }
        ensures fails { IsErr result ↔ Contains self.old.calls.listed self.old.calls.next }
        ensures failed { self.new.failed ≡ risen_after self.old.failed result }
        ensures next { self.new.calls.next ≡ one_more self.old.calls.next }
        ensures listed { self.new.calls.listed ≡ self.old.calls.listed }
    {
        self.receives = self.receives.and(&self.said);
        if self.calls.count() {
            self.failed = self.failed.saturating_add(1);
            return Err(Failed);
        }
        let said = &mut self.said;
        let (piece, offset) = next_place(&said.pieces, said.piece, said.offset);
        said.piece = piece;
        said.offset = offset;
        if piece >= said.pieces.len() {
            return Ok(0);
        }
        let count = copy_from(said.pieces[piece].as_bytes(), offset, into);
        said.offset = offset + count;
        Ok(count)
    }
}

/// An interrupt that says yes at the calls whose numbers are listed, which count from 0, and else no.
#[derive(Debug, Drop)]
pub struct ScriptedInterrupt {
    calls: Calls,
    said_yes: u64,
}

impl Model for ScriptedInterrupt {
    ghost use Rattle.fetch_wire.specs.Scripts.{Asking};

    ghost Value = { Asking };

    ghost view = { λ i. record { calls = i.calls; said_yes = i.said_yes } };
}

impl ScriptedInterrupt {
    /// An interrupt that says yes at the calls with these numbers, in any order.
    pub fn new(yes: Vec<u64>) -> ScriptedInterrupt
        ensures count { ⟦<ScriptedInterrupt as Interrupt>⟧.yes result ≡ record { count = 0; possible = nat_lt 0 (length yes.items) } }
        ensures yes { (n : ℕ) → Contains result.calls.listed n ↔ Contains yes.items n }
        ensures first { result.calls.next ≡ 0 }
    {
        ScriptedInterrupt {
            calls: Calls::new(yes),
            said_yes: 0,
        }
    }

    /// An interrupt that was asked as often, and says yes at the same calls.
    pub fn try_clone(&self) -> Result<ScriptedInterrupt, NoMemory>
        ensures { IfOk result (λ copy. copy ≡ self.now) }
    {
        Ok(ScriptedInterrupt {
            calls: self.calls.try_clone()?,
            said_yes: self.said_yes,
        })
    }
}

impl Interrupt for ScriptedInterrupt {
    ghost yes = { λ i. faults_of i.calls i.said_yes };

    ghost will_stop = { λ i n. IsListed i.calls n };

    fn asked(&mut self) -> bool
        ensures counts { Counts (faults_of self.old.calls self.old.said_yes) (faults_of self.new.calls self.new.said_yes) }
        ensures counted { IsTrue result → Rose (faults_of self.old.calls self.old.said_yes) (faults_of self.new.calls self.new.said_yes) }
        ensures said { self.new.said_yes ≡ said_after self.old.said_yes result }
        ensures left { result ≡ false → self.new.said_yes ≡ self.old.said_yes }
        ensures now { IsListed self.old.calls 0 → IsTrue result }
        ensures later { (n : ℕ) → IsListed self.old.calls (suc n) → IsListed self.new.calls n }
        ensures says { IsTrue result ↔ Contains self.old.calls.listed self.old.calls.next }
        ensures next { self.new.calls.next ≡ one_more self.old.calls.next }
        ensures listed { self.new.calls.listed ≡ self.old.calls.listed }
    {
        let yes = self.calls.count();
        if yes {
            self.said_yes = self.said_yes.saturating_add(1);
        }
        yes
    }
}
