//! Reading a source to its end.

ghost use Rattle.std.specs.Prelude.{◌≡◌, ◌≤◌, length, IfOk, IsErrOf, OnErr};
ghost use Rattle.std.specs.Io.KnownBytes.{IsAtEnd};
ghost use Rattle.fetch_base.specs.Faults.{Rose, Counts};
ghost use Rattle.fetch_cli.specs.Io.{IsAll, IsLongerThan};

use crate::program::io::Source;
use fetch_scene::MAX_SCENE;
use std::alloc::Global;
use thiserror::Error;

/// How many bytes are asked for at once.
const PIECE: usize = 1 << 16;

/// Why a source wasn't read to its end.
#[derive(Clone, Copy, Debug, PartialEq, Eq, Error)]
pub enum ReadError {
    /// The source failed.
    #[error("the input can't be read")]
    Failed,
    /// The input has more bytes than a scene may have.
    #[error("the input is longer than {} bytes", MAX_SCENE)]
    TooLong,
    /// Memory ran out.
    #[error("out of memory")]
    NoMemory,
}

/// Reads the source to its end.
pub fn read_all<S: Source>(alloc: Global, source: &mut S) -> Result<Vec<u8>, ReadError>
    ensures all { IfOk result (λ bytes. IsAll (S.left source.old) bytes.items) }
    ensures end { IfOk result (λ bytes. IsAtEnd (S.left source.new)) }
    ensures short { IfOk result (λ bytes. length bytes.items ≤ MAX_SCENE) }
    ensures too_long { IsErrOf result ReadError.TooLong → IsLongerThan MAX_SCENE (S.left source.old) }
    ensures failed { IsErrOf result ReadError.Failed → Rose (S.faults source.old) (S.faults source.new) }
    ensures counts { Counts (S.faults source.old) (S.faults source.new) }
    ensures quiet { ¬ IsErrOf result ReadError.Failed → (S.faults source.new).count ≡ (S.faults source.old).count }
{
    let mut bytes = Vec::new(alloc);
    let mut piece = [0; PIECE];
    while bytes.len() <= MAX_SCENE {
        let Ok(count) = source.read(&mut piece) else {
            return Err(ReadError::Failed);
        };
        if count == 0 {
            return Ok(bytes);
        }
        if bytes.extend_from_slice(&piece[..count]).is_err() {
            return Err(ReadError::NoMemory);
        }
    }
    Err(ReadError::TooLong)
}
