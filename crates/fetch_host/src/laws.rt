//! Laws: what holds of the definitions that the contract of `failure_kind` speaks of. Each is the contract of a function
//! without a body.

ghost use Rattle.std.specs.Prelude.{◌≡◌, ◌↔◌, true};
ghost use Rattle.fetch_remote.specs.Errors as fetched;
ghost use Rattle.fetch_remote.specs.declared.fetching.fetch_error.FetchError.{FetchError};
ghost use Rattle.fetch_journal.specs.Errors as shared;
ghost use Rattle.fetch_journal.specs.declared.error.SharedError.{SharedError};
ghost use Rattle.fetch_host.specs.FetchFailures.{fetch_kind};
ghost use Rattle.fetch_host.specs.SharedFailures.{shared_kind};
ghost use Rattle.fetch_host.specs.declared.failure.FailureKind.TheVariants.{Peer, Stop};

/// The peer is blamed exactly where `is_spurious` says so.
pub fn the_peer_is_blamed_for_its_faults()
    ensures fetch { (e : FetchError) → (fetch_kind e ≡ Peer) ↔ (fetched.is_of_peer e ≡ true) }
    ensures shared { (e : SharedError) → (shared_kind e ≡ Peer) ↔ (shared.is_of_peer e ≡ true) }
{}

/// A stop is told exactly where the interrupt said yes.
pub fn a_stop_is_a_yes()
    ensures fetch { (e : FetchError) → (fetch_kind e ≡ Stop) ↔ (fetched.is_yes e ≡ true) }
    ensures shared { (e : SharedError) → (shared_kind e ≡ Stop) ↔ (shared.is_yes e ≡ true) }
{}
