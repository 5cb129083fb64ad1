//! What is to be done about an error.

use std::fmt;

/// What kind of failure an error tells of, by what is to be done about it.
#[derive(Clone, Copy, Debug, PartialEq, Eq, Hash)]
pub enum FailureKind {
    /// The peer failed, or there was no way to it: try again, by another peer.
    Peer,
    /// Others changed the shared repository meanwhile: try once more.
    Others,
    /// The interrupt said yes: end.
    Stop,
    /// Something is broken here, which an operator has to mend: files, work trees, the configuration file, or what is stored.
    Local,
    /// What the server says can't be taken: an operator has to look there. Trying again soon is of no use.
    Server,
    /// A reply or a line is too long: fetch in slices.
    Size,
    /// What was asked for can't be had: ask otherwise.
    Caller,
    /// Memory ran out: do less at once.
    Memory,
}

impl fmt::Display for FailureKind {
    fn fmt<W: fmt::Write>(&self, f: &mut fmt::Formatter<W>) -> fmt::Result {
        f.write_str(match self {
            FailureKind::Peer => "peer",
            FailureKind::Others => "others",
            FailureKind::Stop => "stop",
            FailureKind::Local => "local",
            FailureKind::Server => "server",
            FailureKind::Size => "size",
            FailureKind::Caller => "caller",
            FailureKind::Memory => "memory",
        })
    }
}

/// An error of which it is known what kind of failure it tells of.
pub trait Failure {
    ghost use Rattle.std.specs.Prelude.{◌≡◌};
    ghost use Rattle.fetch_host.specs.declared.failure.FailureKind.{FailureKind};

    /// The kind.
    ghost kind: { Self → FailureKind };

    /// What kind of failure the error tells of.
    fn failure_kind(&self) -> FailureKind
        ensures { result ≡ kind self.now };
}
