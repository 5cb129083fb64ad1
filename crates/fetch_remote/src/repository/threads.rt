//! How many threads read a pack.

ghost use Rattle.fetch_remote.specs.Threads.{AnswersThreads};
ghost use Rattle.fetch_conversation.specs.ReadSettings.{threads_of};
ghost use Rattle.fetch_remote.specs.Repositories.{setup_of};

use crate::fetch;
use crate::repository::Repository;
use fetch_conversation::threads;
use fetch_store::Text;

/// How many threads read a pack: `pack.threads` of trusted sections, where 0 is None. `PackThreads` comes exactly where
/// the value can't be read, or is below 0, and the repository isn't lenient.
pub fn index_threads(repo: &Repository) -> Result<Option<usize>, fetch::Error>
    ensures { AnswersThreads (threads_of (setup_of repo.now).settings.config (setup_of repo.now).settings.lenient) result }
{
    match threads(repo.settings()) {
        Ok(count) => Ok(count),
        Err(value) => Err(fetch::Error::PackThreads {
            value: Text::new(repo.allocator(), value)?,
        }),
    }
}
