//! The scene of a race, from a source.

ghost use Rattle.std.specs.Prelude.{◌≡◌, ℕ, Ok, Err, IfOk, IfErr, IsErrOf};
ghost use Rattle.std.specs.Io.KnownBytes.{IsAtEnd};
ghost use Rattle.fetch_base.specs.Faults.{Rose, Counts};
ghost use Rattle.fetch_store.specs.Stores.{AreOf};
ghost use Rattle.race_cli.specs.Jobs.{AreFew};
ghost use Rattle.race_cli.specs.RaceInputs.{IsRaceInput, IsMalformedInput};

use crate::scene::{RaceScene, read_race_scene};
use fetch_cli::{MAX_SCENE, ReadError, SceneFault, Source, read_all};
use std::alloc::Global;
use std::thread::Threads;
use thiserror::Error;

/// Why a source gives no race.
#[derive(Clone, Copy, Debug, PartialEq, Eq, Error)]
pub enum RaceFault {
    /// The source failed.
    #[error("the input can't be read")]
    Unread,
    /// The input is no scene of a race.
    #[error("malformed {place}")]
    Malformed {
        /// The start of the first line that breaks the grammar, or that isn't whole.
        place: usize,
    },
    /// Memory ran out.
    #[error("out of memory")]
    NoMemory,
}

/// Reads the scene of a race from a source, to its end. An input that is longer than a scene may be is malformed at the limit,
/// and is read no further.
pub fn read_race<R: Threads + Sync, S: Source>(
    rt: &R,
    alloc: Global,
    source: &mut S,
) -> Result<RaceScene, RaceFault>
    ensures scene { IfOk result (λ scene. IsRaceInput (S.left source.old) (Ok scene)) }
    ensures malformed { IfErr result (λ e. IsMalformedInput (S.left source.old) e) }
    ensures of_hash { IfOk result (λ scene. AreOf scene.local.head.hash scene.objects) }
    ensures few { IfOk result (λ scene. AreFew scene.jobs) }
    ensures end { IfOk result (λ scene. IsAtEnd (S.left source.new)) }
    ensures unread { IsErrOf result RaceFault.Unread → Rose (S.faults source.old) (S.faults source.new) }
    ensures counts { Counts (S.faults source.old) (S.faults source.new) }
    ensures quiet { ¬ IsErrOf result RaceFault.Unread → (S.faults source.new).count ≡ (S.faults source.old).count }
{
    let bytes = match read_all(alloc, source) {
        Ok(bytes) => bytes,
        Err(ReadError::Failed) => return Err(RaceFault::Unread),
        Err(ReadError::TooLong) => return Err(RaceFault::Malformed { place: MAX_SCENE }),
        Err(ReadError::NoMemory) => return Err(RaceFault::NoMemory),
    };
    match read_race_scene(rt, alloc, &bytes) {
        Ok(scene) => Ok(scene),
        Err(SceneFault::Malformed { place }) => Err(RaceFault::Malformed { place }),
        Err(SceneFault::NoMemory) => Err(RaceFault::NoMemory),
    }
}
