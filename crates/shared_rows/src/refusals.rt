//! Refusals, in lines.

use fetch_refs::Target;
use fetch_shared::SharedError;
use fetch_specs::FullName;
use fetch_store::{Missing, NoMemory, append_hex};

fn tell_link(out: &mut Vec<u8>, token: &[u8], link: &Missing) -> Result<(), NoMemory> {
    out.extend_from_slice(token)?;
    append_hex(out, &link.from)?;
    out.push(b' ')?;
    append_hex(out, &link.to)
}

/// A reference that an edit of a commit meets: its name, and the id that it stands at, if any.
fn tell_met(out: &mut Vec<u8>, name: &FullName, found: &Option<Target>) -> Result<(), NoMemory> {
    out.extend_from_slice(b"EditReferences ")?;
    out.extend_from_slice(name.as_bytes())?;
    if let Some(Target::Object(id)) = found {
        out.push(b' ')?;
        append_hex(out, id)?;
    }
    Ok(())
}

fn tell_cause(out: &mut Vec<u8>, e: &SharedError) -> Result<(), NoMemory> {
    match e {
        SharedError::NotClosed { link } => tell_link(out, b"NotClosed ", link),
        SharedError::Disconnected { link } => tell_link(out, b"Disconnected ", link),
        SharedError::Collision { id } => {
            out.extend_from_slice(b"Collision ")?;
            append_hex(out, id)
        }
        SharedError::EditReferences { name, found } => tell_met(out, name, found),
        SharedError::Fetch(_) | SharedError::Delete(_) | SharedError::NoMemory => Err(NoMemory),
    }
}

/// Why an event is refused, or why a repository isn't shared: what a shared repository refuses by itself.
pub(crate) fn tell_refusal(out: &mut Vec<u8>, e: &SharedError) -> Result<(), NoMemory> {
    out.extend_from_slice(b"refused ")?;
    tell_cause(out, e)?;
    out.push(b'\n')?;
    Ok(())
}
