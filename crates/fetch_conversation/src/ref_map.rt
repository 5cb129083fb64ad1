//! How the references of a remote are mapped, and why they weren't.

ghost use Rattle.std.specs.Prelude.{◌≡◌, [], true, IfOk};

use fetch_specs::{Conflict, RefSpec};
use fetch_store::{List, NoMemory, Text, TryClone};
use fetch_wire::{ReplyBound, WireError};
use std::alloc::Global;
use thiserror::Error;

/// What is asked of the server for its references.
#[derive(Debug, Drop)]
pub struct Options {
    /// Ask only for references that some refspec may take.
    pub prefix_from_spec_as_filter_on_remote: bool,
    /// Names, with values where they have one.
    pub handshake_parameters: List<(Text, Option<Text>)>,
    /// Refspecs beside those of the remote.
    pub extra_refspecs: List<RefSpec>,
    /// The most bytes of one reply.
    pub max_reply_bytes: ReplyBound,
}

impl Options {
    /// Filtered, without parameters and extra refspecs, and with the default bound.
    pub fn new(alloc: Global) -> Options
        ensures { result ≡ record {
          prefix_from_spec_as_filter_on_remote = true;
          handshake_parameters = [];
          extra_refspecs = [];
          max_reply_bytes = 268435456;
        } }
    {
        Options {
            prefix_from_spec_as_filter_on_remote: true,
            handshake_parameters: List::new(alloc),
            extra_refspecs: List::new(alloc),
            max_reply_bytes: ReplyBound::default(),
        }
    }

    /// Equal options.
    pub fn try_clone(&self) -> Result<Options, NoMemory>
        ensures { IfOk result (λ copy. copy ≡ self.now) }
    {
        Ok(Options {
            prefix_from_spec_as_filter_on_remote: self.prefix_from_spec_as_filter_on_remote,
            handshake_parameters: self.handshake_parameters.try_clone()?,
            extra_refspecs: self.extra_refspecs.try_clone_with(RefSpec::try_clone)?,
            max_reply_bytes: self.max_reply_bytes,
        })
    }
}

/// Why the references weren't listed and mapped.
#[derive(Debug, Drop, Error)]
pub enum Error {
    /// What was to be sent doesn't fit, the server breaks the protocol, refuses, or doesn't list.
    #[error(transparent)]
    Handshake(WireError),
    /// The peer failed.
    #[error("the server failed")]
    Transport,
    /// The interrupt said yes.
    #[error("interrupted")]
    Interrupted,
    /// Two different sources lead to one destination: all such destinations, in order of first appearance.
    #[error("two references lead to one destination")]
    InitRefMap(List<Conflict>),
    /// Memory ran out.
    #[error("out of memory")]
    NoMemory,
}

impl Error {
    ghost use Rattle.std.specs.Prelude.{◌≡◌, IfOk};
    ghost use Rattle.fetch_conversation.specs.Errors.{is_transport_map};

    /// Whether it is the peer's fault.
    pub fn is_spurious(&self) -> bool
        ensures { result ≡ is_transport_map self.now }
    {
        matches!(self, Error::Transport)
    }

    /// An equal error.
    pub fn try_clone(&self) -> Result<Error, NoMemory>
        ensures { IfOk result (λ copy. copy ≡ self.now) }
    {
        match self {
            Error::Handshake(e) => Ok(Error::Handshake(e.try_clone()?)),
            Error::Transport => Ok(Error::Transport),
            Error::Interrupted => Ok(Error::Interrupted),
            Error::InitRefMap(conflicts) => Ok(Error::InitRefMap(conflicts.try_clone_with(
                Conflict::try_clone,
            )?)),
            Error::NoMemory => Ok(Error::NoMemory),
        }
    }
}

impl From<NoMemory> for Error {
    ghost use Rattle.std.specs.Prelude.{◌≡◌};
    ghost use Rattle.fetch_conversation.specs.declared.ref_map.Error.TheVariants as errors;

    ghost from_gives = { λ _ e. e ≡ errors.NoMemory };

    fn from(_e: NoMemory) -> Error {
        Error::NoMemory
    }
}
