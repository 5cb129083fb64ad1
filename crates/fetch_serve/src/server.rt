//! A server, fed with requests.

ghost use Rattle.std.specs.Prelude.{◌≡◌, ◌++◌, None, IfErr, OnErr, OnOk};
ghost use Rattle.fetch_serve.specs.Replies.{reply_text};
ghost use Rattle.fetch_serve.specs.Servable.{IsServable};
ghost use Rattle.fetch_serve.specs.Parts.{held_by};
ghost use Rattle.fetch_serve.specs.Servings.{RefusesBy, Takes, state_of};
ghost use Rattle.fetch_asked.specs.Texts.{IsBegun};

use crate::parts::Parts;
use crate::replying::append_reply;
use crate::servable::check;
use fetch_asked::{Asked, Intake, Refusal, ServeError};
use fetch_refs::Refs;
use fetch_store::{Border, NoMemory, Store};
use std::alloc::Global;
use std::marker::Model;

/// Whose turn it is.
#[derive(Clone, Copy, Debug, PartialEq, Eq)]
pub enum ServeTurn {
    /// Bytes are to be sent.
    Send,
    /// More bytes are awaited.
    Receive,
    /// What was fed was refused, and nothing more is answered.
    Failed,
}

/// A server of a repository, which is lent. It is fed bytes and gives bytes, and opens no socket.
#[derive(Drop)]
pub struct Server<'a> {
    parts: Parts<'a>,
    intake: Intake,
    outgoing: Vec<u8>,
    /// How many of these were sent.
    sent: usize,
    refusal: Option<Refusal>,
}

impl<'a> Model for Server<'a> {
    ghost use Rattle.std.specs.Prelude.{drop};
    ghost use Rattle.fetch_serve.specs.Servings.{Serving, coded_serving};

    ghost Value = { Serving };

    ghost coded = { coded_serving };

    ghost use Rattle.fetch_serve.specs.Parts.{held_by};
    ghost use Rattle.fetch_serve.specs.Servings.{IsKept};

    ghost view = { λ s. record {
      served = held_by s.parts;
      begun = s.intake.begun;
      pending = s.intake.pending;
      outgoing = drop s.sent s.outgoing.items;
      refusal = s.refusal;
    } };

    ghost invariant = { λ s. IsKept (held_by s.parts) s.intake s.sent s.outgoing.items s.refusal };
}

impl<'a> Server<'a> {
    ghost use Rattle.std.specs.Prelude.{◌≡◌, ◌≤◌, drop, length, IfOk, IfErr, OnOk};
    ghost use Rattle.std.specs.FinSet as set;
    ghost use Rattle.fetch_serve.specs.Parts.{held_by};
    ghost use Rattle.fetch_serve.specs.Servable.{IsServable, IsTrouble};
    ghost use Rattle.fetch_serve.specs.Served.{data_of};
    ghost use Rattle.fetch_serve.specs.Servings.{FeedsBy, turn_of, unfed};
    ghost use Rattle.fetch_asked.specs.Texts.{IsBegun};
    ghost use Rattle.fetch_serve.specs.declared.server.ServeTurn.TheVariants as turns;

    /// A server of this repository, to which nothing was fed. It is refused for its first cause, in the order of
    /// `ServeError`. It hashes all objects, so make one server and take a `fresh` one for each conversation.
    pub fn new(
        alloc: Global,
        store: &'a Store,
        refs: &'a Refs,
        border: &Border,
    ) -> Result<Server<'a>, ServeError>
        ensures server { IfOk result (λ server. server ≡ unfed (data_of store.now refs.now)) }
        ensures whole { OnOk result (border.now ≡ set.empty) }
        ensures servable { OnOk result (IsServable (data_of store.now refs.now)) }
        ensures refused { IfErr result (IsTrouble (data_of store.now refs.now) border.now) }
    {
        let parts = Parts { alloc, store, refs };
        check(parts, border)?;
        Ok(Server::of(parts))
    }

    fn of(parts: Parts<'a>) -> Server<'a>
        requires { IsServable (held_by parts) }
        ensures { result ≡ unfed (held_by parts.entry) }
    {
        Server {
            parts,
            intake: Intake::new(parts.alloc, parts.store.kind()),
            outgoing: Vec::new(parts.alloc),
            sent: 0,
            refusal: None,
        }
    }

    /// Whose turn it is: a refusal first, then what is to be sent. Where more bytes are awaited, what was fed since the
    /// last reply is the beginning of a request.
    pub fn poll(&self) -> ServeTurn
        ensures turn { result ≡ turn_of self.now }
        ensures begun { result ≡ turns.Receive → IsBegun self.now.served.hash self.now.begun self.now.pending }
    {
        if self.refusal.is_some() {
            ServeTurn::Failed
        } else if self.sent < self.outgoing.len() {
            ServeTurn::Send
        } else {
            ServeTurn::Receive
        }
    }

    /// Takes the next bytes, and answers each request that is whole then. A line that may not stand is refused as soon as
    /// it is whole, and digits as soon as they show it. After a refusal each call refuses for the same and changes nothing.
    pub fn feed(&mut self, piece: &[u8]) -> Result<(), ServeError>
        ensures { FeedsBy self.old.refusal self.old piece.now self.new result }
    {
        match self.refusal {
            Some(refusal) => return Err(refusal.to_error()),
            None => {}
        }
        match answer(self.parts, piece, &mut self.intake, &mut self.outgoing) {
            Ok(()) => Ok(()),
            Err(refusal) => {
                self.refusal = Some(refusal);
                Err(refusal.to_error())
            }
        }
    }

    /// The bytes that are to be sent.
    pub fn outgoing(&self) -> &[u8]
        ensures { result.now ≡ self.now.outgoing }
    {
        &self.outgoing[self.sent..]
    }

    /// So many of the outgoing bytes were sent.
    pub fn sent(&mut self, count: usize)
        requires { count ≤ length self.old.outgoing }
        ensures { self.new ≡ record self.old { outgoing = drop count self.old.outgoing } }
    {
        self.sent += count;
        if self.sent == self.outgoing.len() {
            self.outgoing.clear();
            self.sent = 0;
        }
    }

    /// Why more is refused, where it is.
    pub(crate) fn refusal(&self) -> Option<Refusal>
        ensures refusal { result ≡ self.now.refusal }
        ensures begun { self.now.refusal ≡ None → IsBegun self.now.served.hash self.now.begun self.now.pending }
    {
        self.refusal
    }

    /// How many bytes aren't answered yet.
    pub(crate) fn pending_len(&self) -> usize
        ensures len { result ≡ length self.now.pending }
        ensures begun { self.now.refusal ≡ None → IsBegun self.now.served.hash self.now.begun self.now.pending }
    {
        self.intake.len()
    }

    /// An equal server.
    pub fn try_clone(&self) -> Result<Server<'a>, NoMemory>
        ensures { IfOk result (λ copy. copy ≡ self.now) }
    {
        let intake = self.intake.try_clone()?;
        let outgoing = Vec::from_slice(self.parts.alloc, &self.outgoing[self.sent..])?;
        Ok(Server {
            parts: self.parts,
            intake,
            outgoing,
            sent: 0,
            refusal: self.refusal,
        })
    }

    /// A server of the same repository, to which nothing was fed. Takes no memory.
    pub fn fresh(&self) -> Server<'a>
        ensures { result ≡ unfed self.now.served }
    {
        Server::of(self.parts)
    }
}

/// Appends the reply to a request. A refusal leaves the output as before.
fn reply_to(parts: Parts<'_>, asked: Asked, out: &mut Vec<u8>) -> Result<(), NoMemory>
    requires { IsServable (held_by parts) }
    ensures ok { OnOk result (out.new.items ≡ out.old.items ++ reply_text (held_by parts.entry) asked) }
    ensures err { OnErr result (out.new.items ≡ out.old.items) }
{
    append_reply(parts, &asked, out)
}

/// Reads a piece, and answers each request that is whole then. Where memory runs out, a front of the piece was read.
fn answer(
    parts: Parts<'_>,
    piece: &[u8],
    intake: &mut Intake,
    out: &mut Vec<u8>,
) -> Result<(), Refusal>
    requires servable { IsServable (held_by parts) }
    requires hash { intake.old.hash ≡ (held_by parts).hash }
    requires begun { IsBegun intake.old.hash intake.old.begun intake.old.pending }
    ensures ok { OnOk result (Takes (state_of (held_by parts.entry) intake.old out.old.items) piece.now
        (state_of (held_by parts.entry) intake.new out.new.items) None) }
    ensures begun { OnOk result (IsBegun intake.new.hash intake.new.begun intake.new.pending) }
    ensures hash { intake.new.hash ≡ intake.old.hash }
    ensures err { IfErr result (RefusesBy (state_of (held_by parts.entry) intake.old out.old.items) piece.now
        (state_of (held_by parts.entry) intake.new out.new.items)) }
{
    let mut kept = intake.len();
    match intake.feed(piece) {
        Ok(()) => {}
        Err(NoMemory) => return Err(Refusal::NoMemory),
    }
    'requests: loop {
        match intake.read(parts.alloc) {
            Ok(None) => return Ok(()),
            Ok(Some(found)) => match reply_to(parts, found.0, out) {
                Ok(()) => {
                    intake.pass(found.1);
                    kept = 0;
                }
                Err(NoMemory) => {
                    intake.cut(kept);
                    return Err(Refusal::NoMemory);
                }
            },
            Err(refusal) => {
                if refusal.is_memory() {
                    intake.cut(kept);
                    return Err(Refusal::NoMemory);
                }
                return Err(refusal);
            }
        }
    }
}
