//! A server as the peer of a fetch.

ghost use Rattle.std.specs.Prelude.{◌≡◌, ◌≤◌, ◌+◌, ◌-◌, ◌^◌, ◌++◌, ◌∷◌, ◌↔◌, [], List, ℕ, Some, length, min, true, IfOk, IsErrOf, IsTrue};
ghost use Rattle.std.specs.Prelude.{OnErr};
ghost use Rattle.fetch_serve.specs.Hearing.{Hears, fault_of};
ghost use Rattle.fetch_serve.specs.Peers.{count_after, faults_of, told_by};
ghost use Rattle.fetch_serve.specs.Replies.{replies_of};
ghost use Rattle.fetch_serve.specs.Servings.{unfed};
ghost use Rattle.fetch_asked.specs.declared.error.ServeError.TheVariants as errors;
ghost use Rattle.fetch_base.specs.Faults.{Counts, Rose};
ghost use Rattle.fetch_lines.specs.Talks.{Makes, Receives, Sends, at_once};

use crate::server::Server;
use fetch_asked::{Refusal, ServeError};
use fetch_lines::{Peer, SendFault};
use fetch_store::{Failed, copy_from};
use opening_value::Openings;
use std::marker::Model;

/// What was said before a receive: the bytes that were heard, and how many were still to be given.
#[derive(Drop)]
struct Said {
    heard: Openings<u8>,
    left: usize,
}

/// A server that answers in memory. It fails where the server refuses what it is sent, and where that is not for want of
/// memory it counts a fault. Then it has heard all up to the bytes that show why, and hears nothing more.
#[derive(Drop)]
pub struct ServerPeer<'a> {
    server: Server<'a>,
    heard: Openings<u8>,
    /// What was said before each receive.
    receives: Openings<Said>,
    failed: u64,
}

impl<'a> Model for ServerPeer<'a> {
    ghost use Rattle.std.specs.Prelude.{length, map};
    ghost use Rattle.fetch_serve.specs.Peers.{IsSaid, ServedPeer, coded_peer, receive_at};

    ghost Value = { ServedPeer };

    ghost coded = { coded_peer };

    ghost view = { λ p. record {
      served = p.server.served;
      heard = p.heard.values;
      left = length p.server.outgoing;
      receives = map (λ s. receive_at p.server.served s.heard.values s.left) p.receives.values;
      failed = p.failed;
    } };

    ghost invariant = { λ p. IsSaid p.server p.heard.values };
}

impl<'a> ServerPeer<'a> {
    /// A peer of this server, to which nothing was fed.
    pub fn new(server: Server<'a>) -> ServerPeer<'a>
        requires { server ≡ unfed server.served }
        ensures { result ≡ record { served = server.entry.served; heard = []; left = 0; receives = []; failed = 0 } }
    {
        ServerPeer {
            server,
            heard: Openings::new(),
            receives: Openings::new(),
            failed: 0,
        }
    }
}

/// These bytes behind those that were heard.
fn with_each(heard: &Openings<u8>, bytes: &[u8]) -> Openings<u8>
    ensures { result.values ≡ heard.now.values ++ bytes.now }
{
    let mut all = heard.again();
    for byte in bytes {
        all = all.and(byte);
    }
    all
}

/// A refusal, as a peer tells it.
fn fault_of(refusal: Refusal) -> SendFault
    ensures { result ≡ fault_of refusal }
{
    match refusal {
        Refusal::Malformed(_) | Refusal::TooLong => SendFault::Failed,
        Refusal::NoMemory => SendFault::NoMemory,
    }
}

/// Whether memory ran out.
fn is_memory(e: &ServeError) -> bool
    ensures { IsTrue result ↔ (e.now ≡ errors.NoMemory) }
{
    matches!(e, ServeError::NoMemory)
}

/// Feeds bytes one by one, so that no more than those that show a trouble are heard, and answers how many were.
fn hear(server: &mut Server<'_>, bytes: &[u8]) -> (usize, Result<(), SendFault>)
    ensures hears { Hears server.old.refusal server.old bytes.now result.0 server.new result.1 }
    ensures within { result.0 ≤ length bytes.now }
{
    if let Some(refusal) = server.refusal() {
        return (0, Err(fault_of(refusal)));
    }
    let mut count = 0;
    'bytes: while count < bytes.len() {
        let pending = server.pending_len();
        match server.feed(&bytes[count..count + 1]) {
            Ok(()) => count += 1,
            Err(e) => {
                if !is_memory(&e) {
                    return (count + 1, Err(SendFault::Failed));
                }
                // The byte was taken where other bytes are pending now.
                if server.pending_len() == pending {
                    return (count, Err(SendFault::NoMemory));
                }
                return (count + 1, Err(SendFault::NoMemory));
            }
        }
    }
    (count, Ok(()))
}

/// How often the other side failed after this answer.
fn counted(failed: u64, answer: &Result<(), SendFault>) -> u64
    ensures count { result ≡ count_after failed answer.now }
    ensures later { failed ≤ result }
{
    match answer {
        Err(SendFault::Failed) => failed.saturating_add(1),
        Ok(()) | Err(SendFault::NoMemory) => failed,
    }
}

impl<'a> Peer for ServerPeer<'a> {
    ghost told = { told_by };

    ghost faults = { faults_of };

    ghost answers = { true };

    /// Hears the bytes, as far as they are requests.
    fn send(&mut self, bytes: &[u8]) -> Result<(), SendFault> {
        let (count, answer) = hear(&mut self.server, bytes);
        self.heard = with_each(&self.heard, &bytes[..count]);
        self.failed = counted(self.failed, &answer);
        answer
    }

    /// Gives what is outgoing, as far as it fits.
    fn receive(&mut self, into: &mut [u8]) -> Result<usize, Failed> {
        let left = self.server.outgoing().len();
        let said = Said {
            heard: self.heard.again(),
            left,
        };
        self.receives = self.receives.and(&said);
        let count = copy_from(self.server.outgoing(), 0, into);
        self.server.sent(count);
        Ok(count)
    }
}
