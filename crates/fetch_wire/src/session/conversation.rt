//! A conversation with a peer, driven from outside: bytes are sent and fed by the caller, in any pieces.

use crate::session::parameters::first_bad;
use crate::session::turn::Turn;
use fetch_base::{Kind, List, NoMemory, Text, TryClone, copy_slice};
use fetch_lines::{
    FetchReply, Handshake, Ref, ReplyBound, Request, WireError, first_line, listing_request,
    write_line, write_lines,
};
use fetch_replies::{
    FoundReply, Haves, ParsedReply, ReplyBuffer, ReplyContext, ReplyError, ReplyKind,
};
use std::alloc::Global;
use std::marker::Model;

/// A conversation: it sends the first line, the listing request, and each request that it is given. It reads as soon as
/// bytes are fed, also replies whose requests are still to be sent. Contracts see what it sends, awaits and was told.
pub struct Session {
    agent: Text,
    prefixes: List<Text>,
    outgoing: Vec<u8>,
    sent: usize,
    intake: ReplyBuffer,
    handshake: Option<Handshake>,
    refs: Option<List<Ref>>,
    reply: Option<FetchReply>,
    trouble: Option<WireError>,
    refused: bool,
}

impl Model for Session {
    ghost use Rattle.std.specs.Prelude.{◌≤◌, drop, vec_len};
    ghost use Rattle.fetch_wire.specs.SessionStates.{SessionState};

    ghost Value = { SessionState };

    ghost view = { λ s. record {
      agent = s.agent;
      prefixes = s.prefixes;
      outgoing = drop s.sent s.outgoing.items;
      intake = s.intake;
      handshake = s.handshake;
      refs = s.refs;
      reply = s.reply;
      trouble = s.trouble;
      refused = s.refused;
    } };

    ghost invariant = { λ s. s.sent ≤ vec_len s.outgoing };
}

impl Session {
    ghost use Rattle.std.specs.Prelude.{◌≡◌, ◌≢◌, ◌≤◌, ◌⊎◌, ◌∷◌, [], true, None, Some, is_some, Ok, Err, length, drop, IfOk, IfErr, IfSome};
    ghost use Rattle.std.specs.Prelude.{OnOk, OnErr, IsErr};
    ghost use Rattle.std.specs.Option.{option_copied};
    ghost use Rattle.fetch_base.specs.Answers.{RefusesUnless};
    ghost use Rattle.fetch_replies.specs.declared.replies.reply.ReplyKind.TheVariants as awaits;
    ghost use Rattle.fetch_replies.specs.declared.replies.reply.ParsedReply.TheVariants as told;
    ghost use Rattle.fetch_replies.specs.Intakes as intakes;
    ghost use Rattle.fetch_lines.specs.declared.error.WireError.TheVariants as errors;
    ghost use Rattle.fetch_wire.specs.declared.session.turn.Turn.TheVariants as turns;
    ghost use Rattle.fetch_wire.specs.Parameters.{texts_told, first_bad, TellsUnsent};
    ghost use Rattle.fetch_lines.specs.RequestLines.{request_lines};
    ghost use Rattle.fetch_lines.specs.Greetings.{offers};
    ghost use Rattle.fetch_lines.specs.Requests.{first_line, listing_lines};
    ghost use Rattle.fetch_wire.specs.SessionStates as spec;
    ghost use Rattle.fetch_lines.specs.Written.{lines_text, first_too_long, TellsTooLong};

    /// A conversation with the server at this address, which sends these parameters. An address, a parameter as
    /// `name=value`, or the agent with `git/` before it is a `BadParameter` where a NUL or a line feed stands in it; then
    /// a first line of more than 65,516 bytes is `LineTooLong`.
    pub fn new(
        alloc: Global,
        address: &[u8],
        parameters: &[(Text, Option<Text>)],
        agent: &[u8],
        prefixes: &[Text],
        bound: ReplyBound,
    ) -> Result<Session, WireError>
        ensures opened { IfOk result (λ s. s ≡ spec.opened bound agent.now prefixes.now (first_line address.now parameters.now)) }
        ensures parameters { OnOk result (first_bad (texts_told address.now parameters.now agent.now) ≡ None) }
        ensures fits { OnOk result (first_too_long (first_line address.now parameters.now ∷ []) ≡ None) }
        ensures refused { IfErr result (λ e. TellsUnsent (first_bad (texts_told address.now parameters.now agent.now))
            (first_too_long (first_line address.now parameters.now ∷ [])) e) }
    {
        if let Some((text, place)) = first_bad(alloc, address, parameters, agent)? {
            return Err(WireError::BadParameter { text, place });
        }
        let first = first_line(alloc, address, parameters)?;
        let mut outgoing = Vec::new(alloc);
        write_line(&mut outgoing, first.as_ref())?;
        Ok(Session {
            agent: Text::new(alloc, agent)?,
            prefixes: copy_slice(alloc, prefixes)?,
            outgoing,
            sent: 0,
            intake: ReplyBuffer::new(alloc, bound, ReplyKind::Greeting),
            handshake: None,
            refs: None,
            reply: None,
            trouble: None,
            refused: false,
        })
    }

    /// An equal session, which goes on apart from this one.
    pub fn try_clone(&self) -> Result<Session, NoMemory>
        ensures { IfOk result (λ copy. copy ≡ self.now) }
    {
        Ok(Session {
            agent: self.agent.try_clone()?,
            prefixes: self.prefixes.try_clone()?,
            outgoing: Vec::from_slice(self.prefixes.allocator(), self.outgoing())?,
            sent: 0,
            intake: self.intake.try_clone()?,
            handshake: self.handshake.try_clone()?,
            refs: self.refs.try_clone()?,
            reply: self.reply.try_clone()?,
            trouble: self.trouble.try_clone()?,
            refused: self.refused,
        })
    }

    /// Whose turn it is: a refusal comes first, then what is to be sent, then a reply that is awaited.
    pub fn poll(&self) -> Turn
        ensures turn { result ≡ spec.turn_of self.now }
        ensures receives { result ≡ turns.Receive → spec.IsAwaiting self.now }
    {
        if self.is_refused() {
            Turn::Failed
        } else if !self.is_all_sent() {
            Turn::Send
        } else if self.intake.is_awaiting() {
            Turn::Receive
        } else {
            Turn::Idle
        }
    }

    /// Whether nothing is to be sent.
    fn is_all_sent(&self) -> bool
        ensures { result ≡ spec.is_all_sent self.now }
    {
        self.outgoing().is_empty()
    }

    /// Whether a refusal stands.
    fn is_refused(&self) -> bool
        ensures { result ≡ is_some (spec.refusal_of self.now) }
    {
        self.trouble.is_some() && (self.refused || self.is_all_sent())
    }

    /// What is to be sent, in order. It is empty where nothing is.
    pub fn outgoing(&self) -> &[u8]
        ensures { result.now ≡ self.now.outgoing }
    {
        &self.outgoing[self.sent..]
    }

    /// The first `count` of the outgoing bytes were sent.
    pub fn sent(&mut self, count: usize)
        requires { count ≤ length self.old.outgoing }
        ensures { self.new ≡ record self.old { outgoing = drop count self.old.outgoing } }
    {
        self.sent += count;
    }

    /// The greeting, once it was read whole.
    pub fn handshake(&self) -> Option<&Handshake>
        ensures { option_copied result ≡ self.now.handshake }
    {
        self.handshake.as_ref()
    }

    /// The references, once the listing was read whole, until they are taken. Version 1 lists them in its greeting.
    pub fn refs(&self) -> Option<&[Ref]>
        ensures { option_copied result ≡ self.now.refs }
    {
        match &self.refs {
            Some(refs) => Some(refs.as_slice()),
            None => None,
        }
    }

    /// The references, handed over without a copy once the listing was read whole: the session has none after it.
    pub fn take_refs(&mut self) -> Option<List<Ref>>
        ensures taken { result ≡ self.old.refs }
        ensures left { self.new ≡ record self.old { refs = None } }
    {
        self.refs.take()
    }

    /// The reply to the last request, once it was read whole, until it is taken.
    pub fn reply(&self) -> Option<&FetchReply>
        ensures { option_copied result ≡ self.now.reply }
    {
        self.reply.as_ref()
    }

    /// That reply, handed over without a copy: the session has none after it.
    pub fn take_reply(&mut self) -> Option<FetchReply>
        ensures taken { result ≡ self.old.reply }
        ensures left { self.new ≡ record self.old { reply = None } }
    {
        self.reply.take()
    }

    /// The texts of the server's progress in the last reply to a request, as far as it was read: while it is awaited, until
    /// it is taken, and where it was refused. Without a request since, or a pack in that reply, there are none.
    pub fn progress(&self) -> &[Text]
        ensures progress { IfSome (spec.progress_of self.now) (λ texts. result.now ≡ texts) }
    {
        match &self.reply {
            Some(reply) => reply.progress.as_slice(),
            None => self.intake.progress(),
        }
    }

    /// What stands of a refusal, or out of memory in its place.
    fn answer(&self) -> Result<(), WireError>
        ensures refusal { RefusesUnless spec.is_memory (spec.refusal_of self.now) result }
        ensures ok { spec.refusal_of self.now ≡ None → result ≡ Ok tt }
    {
        match &self.trouble {
            Some(trouble) if self.is_refused() => Err(trouble.try_clone()?),
            Some(_) | None => Ok(()),
        }
    }

    /// Keeps what a whole reply told.
    fn keep(&mut self, told: ParsedReply)
        ensures { self.new ≡ spec.keeps told self.old }
    {
        match told {
            ParsedReply::Greeting(handshake) => self.handshake = Some(handshake),
            ParsedReply::Advertisement(handshake, refs) => {
                self.handshake = Some(handshake);
                self.refs = Some(refs);
            }
            ParsedReply::Listing(refs) => self.refs = Some(refs),
            ParsedReply::Reply(reply) => self.reply = Some(reply),
        }
    }

    /// What a fault of a reply is to a caller.
    fn error(&self, fault: ReplyError) -> WireError
        ensures { result ≡ spec.error_of self.now.intake.bound fault }
    {
        match fault {
            ReplyError::Short { place } | ReplyError::Broken { place } => WireError::Malformed {
                place,
            },
            ReplyError::TooLong => WireError::ReplyTooLong {
                bound: self.intake.bound().get(),
            },
            ReplyError::Said { text } => WireError::ServerError { text },
        }
    }

    /// Keeps what was found of the awaited reply.
    fn store(&mut self, found: FoundReply)
        ensures { self.new ≡ spec.stored found self.old }
    {
        match found {
            FoundReply::Nothing => {}
            FoundReply::Whole(told) => self.keep(told),
            FoundReply::Refused(fault) => self.trouble = Some(self.error(fault)),
        }
    }

    /// Goes on no more.
    fn fail(&mut self, trouble: WireError)
        ensures { self.new ≡ spec.failing trouble self.old }
    {
        self.intake.clear();
        self.trouble = Some(trouble);
    }

    /// The text of the request for the references.
    #[tactic(auto, unfolding(crate::specs::SessionStates::listing_feature))]
    fn listing_text(&self, handshake: &Handshake) -> Result<Vec<u8>, WireError>
        ensures text { IfOk result (λ text. text.items ≡ lines_text (listing_lines handshake.now self.now.agent self.now.prefixes)) }
        ensures fits { OnOk result (first_too_long (listing_lines handshake.now self.now.agent self.now.prefixes) ≡ None) }
        ensures offered { OnOk result (offers spec.listing_feature handshake.now.capabilities ≡ true) }
        ensures refused { IfErr result (λ e. spec.TellsUnlisted
            (first_too_long (listing_lines handshake.now self.now.agent self.now.prefixes))
            (offers spec.listing_feature handshake.now.capabilities) e) }
    {
        let alloc = self.prefixes.allocator();
        let lines = listing_request(
            alloc,
            handshake,
            self.agent.as_bytes(),
            self.prefixes.as_slice(),
        )?;
        let text = write_lines(alloc, &lines)?;
        if !handshake.offers(b"ls-refs") {
            let name = Text::new(alloc, b"ls-refs")?;
            return Err(WireError::MissingFeature { name });
        }
        Ok(text)
    }

    /// Asks for the references, and reads them as far as they are there.
    fn ask_listing(&mut self, handshake: Handshake) -> Result<(), NoMemory>
        ensures asked { OnOk result (spec.IsAlike self.new
            (spec.read_one spec.rests (spec.asks_listing handshake (spec.keeps (told.Greeting handshake) self.old)))) }
        ensures kept { OnErr result (spec.IsKept self.old self.new) }
    {
        match self.listing_text(&handshake) {
            Ok(text) => {
                self.outgoing.reserve(text.len())?;
                let found = self
                    .intake
                    .start(ReplyKind::Listing(handshake.object_hash))?;
                self.outgoing.extend_from_slice(&text).unwrap();
                self.handshake = Some(handshake);
                self.store(found);
                Ok(())
            }
            Err(WireError::NoMemory) => Err(NoMemory),
            Err(trouble) => {
                self.handshake = Some(handshake);
                self.fail(trouble);
                Ok(())
            }
        }
    }

    /// Keeps what was found of the awaited reply. After a greeting of version 2 the references are asked for.
    fn take(&mut self, found: FoundReply) -> Result<(), NoMemory>
        ensures taken { OnOk result (spec.Takes found self.old self.new) }
        ensures kept { OnErr result (spec.IsKept self.old self.new) }
    {
        match found {
            FoundReply::Whole(ParsedReply::Greeting(handshake)) => self.ask_listing(handshake),
            found => {
                self.store(found);
                Ok(())
            }
        }
    }

    /// Takes the next bytes, and reads on as far as replies are whole.
    fn take_in(&mut self, piece: &[u8]) -> Result<(), WireError>
        requires { self.old.trouble ≡ None }
        ensures fed { OnOk result (spec.IsAlike self.new (spec.fed self.old piece.now)) }
        ensures kept { OnErr result (spec.IsKept self.old self.new) }
    {
        let found = self.intake.feed(piece)?;
        self.take(found)?;
        Ok(())
    }

    /// Memory ran out, and what was read of a reply is lost.
    fn lose(&mut self)
        ensures { self.new ≡ spec.lost self.old }
    {
        self.fail(WireError::NoMemory);
        self.refused = true;
    }

    /// Answers what stands of a refusal. Where memory runs out, that stands from then on.
    fn answer_lasting(&mut self) -> Result<(), WireError>
        ensures answers { RefusesUnless spec.is_memory (spec.refusal_of self.old) result }
        ensures ok { spec.refusal_of self.old ≡ None → result ≡ Ok tt }
        ensures stands { IfErr result (λ e. spec.refusal_of self.new ≡ Some e) }
        ensures kept { result ≢ Err errors.NoMemory → self.new ≡ self.old }
        ensures lost { result ≡ Err errors.NoMemory → self.new ≡ spec.lost self.old }
    {
        match self.answer() {
            Ok(()) => Ok(()),
            Err(WireError::NoMemory) => {
                self.lose();
                Err(WireError::NoMemory)
            }
            Err(trouble) => Err(trouble),
        }
    }

    /// Takes the next bytes of the peer, and reads on as far as replies are whole. A refusal stands where all is sent
    /// and the awaited reply breaks its grammar, passes the bound or is the server's own refusal, where a greeting lists
    /// nothing, or where the listing request doesn't fit; each later call answers it again. Out of memory is such a
    /// refusal too: what this call answers first is what stands. What was read and told before is kept then, and what is
    /// to be sent.
    pub fn feed(&mut self, piece: &[u8]) -> Result<(), WireError>
        ensures fed { result ≢ Err errors.NoMemory → spec.IsAlike self.new (spec.fed self.old piece.now) }
        ensures answers { RefusesUnless spec.is_memory (spec.refusal_of (spec.fed self.old piece.now)) result }
        ensures unchanged { spec.refusal_of self.old ≢ None → self.new ≡ self.old }
        ensures stands { spec.refusal_of self.old ≡ None → IfErr result (λ e. spec.refusal_of self.new ≡ Some e) }
        ensures lost { spec.refusal_of self.old ≡ None → result ≡ Err errors.NoMemory → spec.IsLost self.old piece.now self.new }
    {
        self.answer()?;
        if self.trouble.is_some() {
            return Ok(());
        }
        match self.take_in(piece) {
            Ok(()) => self.answer_lasting(),
            Err(_) => {
                self.lose();
                Err(WireError::NoMemory)
            }
        }
    }

    /// The peer's bytes end. A reply that is awaited isn't whole: it is malformed at the line that isn't. Where none is
    /// awaited, this is no refusal.
    pub fn end(&mut self) -> Result<(), WireError>
        ensures ended { self.new ≡ spec.ended self.old }
        ensures answers { RefusesUnless spec.is_memory (spec.refusal_of (spec.ended self.old)) result }
        ensures ok { spec.refusal_of (spec.ended self.old) ≡ None → result ≡ Ok tt }
    {
        if self.trouble.is_some() {
            self.refused = true;
        } else if self.intake.is_awaiting() {
            let place = self.intake.place();
            self.fail(WireError::Malformed { place });
            self.refused = true;
        }
        self.answer()
    }

    /// The kind of the ids, which the greeting names.
    fn kind(&self) -> Kind
        ensures { result ≡ spec.kind_of self.now.handshake }
    {
        match &self.handshake {
            Some(handshake) => handshake.object_hash,
            None => Kind::Sha1,
        }
    }

    /// The reply that a request awaits.
    fn asked(&self, request: &Request, read_pack: bool) -> Result<ReplyContext, NoMemory>
        ensures { IfOk result (λ asked. asked ≡ spec.asked_by self.now request.now read_pack) }
    {
        Ok(ReplyContext {
            kind: self.kind(),
            haves: Haves::new(request.haves.try_clone()?)?,
            done: request.done,
            read_pack,
        })
    }

    /// The intake, awaiting the reply to a request, and what is found of that reply.
    fn intake_for(&self, asked: ReplyContext) -> Result<(ReplyBuffer, FoundReply), WireError>
        ensures found { IfOk result (λ x. intakes.ReadsOn (intakes.awaiting (awaits.Reply asked) self.now.intake) x.0 x.1) }
        ensures memory { IfErr result (λ e. e ≡ errors.NoMemory) }
    {
        let mut intake = self.intake.copy_resting()?;
        let found = intake.start(ReplyKind::Reply(asked))?;
        Ok((intake, found))
    }

    /// Sends a request, and awaits its reply: up to the line `packfile` alone where the pack isn't read. What was fed
    /// ahead may be that reply. `LineTooLong` and out of memory leave the session as it was.
    pub fn request(&mut self, request: &Request, read_pack: bool) -> Result<(), WireError>
        requires { (spec.turn_of self.old ≡ turns.Idle) ⊎ (spec.turn_of self.old ≡ turns.Failed) }
        ensures requested { OnOk result (spec.IsAlike self.new (spec.requested self.old request.now read_pack)) }
        ensures fits { OnOk result (first_too_long (request_lines request.now) ≡ None) }
        ensures again { IfSome (spec.refusal_of self.old) (λ e. RefusesUnless spec.is_memory (Some e) result) }
        ensures too_long { spec.refusal_of self.old ≡ None
            → IfErr result (λ e. TellsTooLong (first_too_long (request_lines request.now)) e) }
        ensures unchanged { IsErr result → self.new ≡ self.old }
    {
        self.answer()?;
        let lines = request.to_lines(self.prefixes.allocator())?;
        let text = write_lines(self.prefixes.allocator(), &lines)?;
        let asked = self.asked(request, read_pack)?;
        let (intake, found) = self.intake_for(asked)?;
        self.intake = intake;
        self.outgoing = text;
        self.sent = 0;
        self.reply = None;
        self.store(found);
        Ok(())
    }
}

impl Drop for Session {
    fn drop(self) {
        let Session {
            agent: _,
            prefixes: _,
            outgoing: _,
            sent: _,
            intake: _,
            handshake: _,
            refs: _,
            reply: _,
            trouble: _,
            refused: _,
        } = self;
    }
}
