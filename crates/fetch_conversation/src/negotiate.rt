//! The rounds of a fetch.

ghost use Rattle.std.specs.Prelude.{◌≡◌, IfOk};

use fetch_negotiate::Round;
use fetch_store::{List, NoMemory};

/// What was said of what is there: one round a request.
#[derive(Debug, Drop)]
pub struct Negotiate {
    /// One for each request that was sent, in order.
    pub rounds: List<Round>,
}

impl Negotiate {
    /// Equal rounds.
    pub fn try_clone(&self) -> Result<Negotiate, NoMemory>
        ensures { IfOk result (λ copy. copy ≡ self.now) }
    {
        Ok(Negotiate {
            rounds: self.rounds.try_clone_with(Round::try_clone)?,
        })
    }
}
