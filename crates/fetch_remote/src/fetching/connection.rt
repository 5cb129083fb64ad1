//! A remote with its peer.

ghost use Rattle.std.specs.Prelude.{◌≡◌, false, IfOk, IfErr};
ghost use Rattle.std.specs.Borrow.{sem};
ghost use Rattle.fetch_conversation.specs.Errors.{is_interrupted, is_interrupted_map, is_transport, is_transport_map};
ghost use Rattle.fetch_conversation.specs.Receiving.{last_question};
ghost use Rattle.fetch_remote.specs.Repositories.{setup_of};
ghost use Rattle.fetch_remote.specs.Stages.{inquiry_of};
ghost use Rattle.fetch_remote.specs.Steps as spec;
ghost use Rattle.fetch_remote.specs.Steps.{LendsPeer, peer_of, remote_of, lent, prepared_of, options_with, HasListed, BreaksOff};
ghost use Rattle.fetch_remote.specs.Steps.{IsUnlisted, HasInquired, IsUninquired, is_missing};
ghost use Rattle.fetch_conversation.specs.Blame.{BlamesPeer, BlamesInterrupt, is_told};

use crate::fetching::options::FetchOptions;
use crate::fetching::prepared::Prepared;
use crate::fetching::preparing::Prepare;
use crate::phases::list;
use crate::remote::Remote;
use crate::remotes::direction::Direction;
use crate::repository::Repository;
use crate::{prepare, ref_map};
use fetch_conversation::{LsRefs, agent, ls_refs};
use fetch_negotiate::Shallow;
use fetch_wire::{Handshake, Interrupt, Peer, RefMap};
use std::alloc::Global;

/// A remote, and the peer that it is fetched from.
#[derive(Drop)]
pub struct Connection<'a, P> {
    remote: &'a Remote,
    peer: &'a mut P,
}

impl Remote {
    /// The remote with a peer to fetch from.
    pub fn to_connection_with_transport<'a, P>(&'a self, peer: &'a mut P) -> Connection<'a, P>
        ensures remote { remote_of result ≡ self.now }
        ensures same_reference { (peer_of result).ghost_name ≡ peer.entry.ghost_name }
        ensures peer { (peer_of result).now ≡ peer.old }
    {
        Connection { remote: self, peer }
    }
}

impl<'a, P: Peer> Connection<'a, P> {
    /// The remote.
    pub fn remote(&self) -> &Remote
        ensures { result.now ≡ remote_of self.now }
    {
        self.remote
    }

    /// The peer.
    pub fn transport_mut(&mut self) -> &mut P
        ensures* writes_back { sem 𝓛 (LendsPeer P.row self.entry result) }
        ensures value { result.now ≡ (peer_of self.old).now }
    {
        &mut *self.peer
    }

    /// Asks for the greeting, then for the listing, and maps what is listed, also where no refspec is named. The interrupt is
    /// asked once before each receive. The peer is left with what it heard and gave.
    pub fn ref_map<I: Interrupt>(
        self,
        alloc: Global,
        repo: &Repository,
        interrupt: &mut I,
        options: ref_map::Options,
    ) -> Result<(RefMap, Handshake), ref_map::Error>
        ensures listed { IfOk result (λ found. HasInquired P.answers (P.told (peer_of self.entry).now) (P.told self.exit.1.0.now)
            (inquiry_of (remote_of self.entry) (setup_of repo.now).settings options) (record { ref_map = found.0; handshake = found.1 })) }
        ensures refused { IfErr result (λ e. IsUninquired P.answers (P.told (peer_of self.entry).now) (P.told self.exit.1.0.now)
            (inquiry_of (remote_of self.entry) (setup_of repo.now).settings options) e) }
        ensures peer { BlamesPeer (P.faults (peer_of self.entry).now) (P.faults self.exit.1.0.now) (is_told is_transport_map result) }
        ensures interrupt { BlamesInterrupt (I.yes interrupt.old) (I.yes interrupt.new) (I.will_stop interrupt.old)
            (I.will_stop interrupt.new) (P.told (peer_of self.entry).now) (P.told self.exit.1.0.now)
            (last_question is_interrupted_map result) }
    {
        let Connection { remote, peer } = self;
        inquired(alloc, remote, repo, peer, interrupt, options)
    }

    /// Asks for the greeting, then for the listing, and maps what is listed, to fetch it. The interrupt is asked once before each
    /// receive. The fetch is no dry run, writes loose references and the usual message, and doesn't change the depth, until
    /// that is chosen. After an error the peer is left with what it heard and gave.
    pub fn prepare_fetch<I: Interrupt>(
        self,
        alloc: Global,
        repo: &Repository,
        interrupt: &mut I,
        options: ref_map::Options,
    ) -> Result<Prepare<'a, P>, prepare::Error>
        ensures refused { IfErr result (λ e. (last : P)
            × IsUnlisted P.told P.faults P.answers (I.yes interrupt.old) (I.yes interrupt.new)
            (I.will_stop interrupt.old) (I.will_stop interrupt.new)
            (inquiry_of (remote_of self.entry) (setup_of repo.now).settings options) (peer_of self.entry).now last e) }
        ensures same_reference { IfOk result (λ p. (lent p).ghost_name ≡ (peer_of self.entry).ghost_name) }
        ensures remote { IfOk result (λ p. (prepared_of p).remote ≡ remote_of self.entry) }
        ensures options { IfOk result (λ p. (prepared_of p).options ≡ options_with options) }
        ensures listed { IfOk result (λ p. HasListed P.answers (P.told (peer_of self.entry).now) (P.told (lent p).now)
            (inquiry_of (remote_of self.entry) (setup_of repo.now).settings options) (prepared_of p).listed) }
        ensures peer { IfOk result (λ p. BlamesPeer (P.faults (peer_of self.entry).now) (P.faults (lent p).now) false) }
        ensures interrupt { IfOk result (λ p. BlamesInterrupt (I.yes interrupt.old) (I.yes interrupt.new) (I.will_stop interrupt.old)
            (I.will_stop interrupt.new) (P.told (peer_of self.entry).now) (P.told (lent p).now) 0) }
    {
        let Connection { remote, peer } = self;
        match listed_for(alloc, remote, repo, peer, interrupt, options) {
            Ok(prepared) => Ok(Prepare {
                remote,
                peer,
                prepared,
            }),
            Err(e) => Err(e),
        }
    }
}

/// Lists the references of a remote and maps them, also where no refspec is named. The interrupt is asked once before each
/// receive.
pub fn inquired<P: Peer, I: Interrupt>(
    alloc: Global,
    remote: &Remote,
    repo: &Repository,
    peer: &mut P,
    interrupt: &mut I,
    options: ref_map::Options,
) -> Result<(RefMap, Handshake), ref_map::Error>
    ensures listed { IfOk result (λ found. HasInquired P.answers (P.told peer.old) (P.told peer.new)
        (inquiry_of remote.now (setup_of repo.now).settings options) (record { ref_map = found.0; handshake = found.1 })) }
    ensures refused { IfErr result (λ e. IsUninquired P.answers (P.told peer.old) (P.told peer.new)
        (inquiry_of remote.now (setup_of repo.now).settings options) e) }
    ensures peer { BlamesPeer (P.faults peer.old) (P.faults peer.new) (is_told is_transport_map result) }
    ensures interrupt { BlamesInterrupt (I.yes interrupt.old) (I.yes interrupt.new) (I.will_stop interrupt.old)
        (I.will_stop interrupt.new) (P.told peer.old) (P.told peer.new) (last_question is_interrupted_map result) }
{
    let query = LsRefs {
        address: remote.address(),
        agent: agent(repo.settings()),
        specs: remote.refspecs(Direction::Fetch),
        tags: remote.fetch_tags(),
    };
    match ls_refs(alloc, &query, peer, interrupt, options) {
        Ok(listed) => Ok((listed.ref_map, listed.handshake)),
        Err(e) => Err(listing_error(e)),
    }
}

/// Why references weren't listed.
fn listing_error(e: prepare::Error) -> ref_map::Error
    requires { is_missing e ≡ false }
    ensures { result ≡ spec.listing_error e }
{
    match e {
        prepare::Error::RefMap(e) => e,
        prepare::Error::NoMemory => ref_map::Error::NoMemory,
        prepare::Error::MissingRefSpecs => unreachable!(),
    }
}

/// Lists the references of a remote and maps them, to fetch them. The interrupt is asked once before each receive. The fetch is
/// no dry run, writes loose references and the usual message, and doesn't change the depth, until that is chosen.
pub fn listed_for<P: Peer, I: Interrupt>(
    alloc: Global,
    remote: &Remote,
    repo: &Repository,
    peer: &mut P,
    interrupt: &mut I,
    options: ref_map::Options,
) -> Result<Prepared, prepare::Error>
    ensures options { IfOk result (λ p. p.options ≡ options_with options) }
    ensures listed { IfOk result (λ p. HasListed P.answers (P.told peer.old) (P.told peer.new)
        (inquiry_of remote.now (setup_of repo.now).settings options) p.listed) }
    ensures refused { IfErr result (λ e. BreaksOff P.answers (P.told peer.old) (P.told peer.new)
        (inquiry_of remote.now (setup_of repo.now).settings options) e) }
    ensures peer { BlamesPeer (P.faults peer.old) (P.faults peer.new) (is_told is_transport result) }
    ensures interrupt { BlamesInterrupt (I.yes interrupt.old) (I.yes interrupt.new) (I.will_stop interrupt.old)
        (I.will_stop interrupt.new) (P.told peer.old) (P.told peer.new) (last_question is_interrupted result) }
{
    let map = options.try_clone()?;
    let listed = list(alloc, remote, repo.settings(), peer, interrupt, options)?;
    Ok(Prepared {
        listed,
        options: FetchOptions {
            map,
            dry_run: false,
            write_packed_refs_only: false,
            reflog_message: None,
            shallow: Shallow::NoChange,
        },
    })
}
