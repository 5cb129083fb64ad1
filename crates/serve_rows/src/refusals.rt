//! Refusals.

use fetch_serve::ServeError;
use fetch_store::NoMemory;
use rows::{refuse, say, say_id};

/// A refusal as it is printed, and the ids or the name that it tells.
pub(crate) fn tell(out: &mut Vec<u8>, e: &ServeError) -> Result<(), NoMemory> {
    refuse(out, e)?;
    match e {
        ServeError::WrongId { id } => say_id(out, b"at", id),
        ServeError::NotClosed { link } => {
            say_id(out, b"from", &link.from)?;
            say_id(out, b"to", &link.to)
        }
        ServeError::NotServable { name } => say(out, &[b"at", name.as_bytes()]),
        ServeError::ShallowServer
        | ServeError::Malformed { .. }
        | ServeError::RequestTooLong { .. }
        | ServeError::NoMemory => Ok(()),
    }
}
