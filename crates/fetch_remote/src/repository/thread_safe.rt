//! Repositories that are handed from thread to thread.

ghost use Rattle.std.specs.Prelude.{◌≡◌, IfOk};

use crate::repository::Repository;
use fetch_store::NoMemory;
use std::alloc::Global;
use std::marker::Model;

/// A repository as it is handed from thread to thread: it has one owner. A repository that several threads use at once is a
/// `SharedRepository` of `fetch_shared`. Contracts see it as the repository.
#[derive(Drop)]
pub struct ThreadSafeRepository {
    repo: Repository,
}

impl Model for ThreadSafeRepository {
    ghost use Rattle.fetch_remote.specs.Codes.{coded_repository};
    ghost use Rattle.fetch_remote.specs.RepositoryValues.{RepositoryValue};

    ghost Value = { RepositoryValue };

    ghost coded = { coded_repository };

    ghost view = { λ shared. shared.repo };
}

impl ThreadSafeRepository {
    /// An equal repository, to be handed on by itself.
    pub fn try_clone(&self, alloc: Global) -> Result<ThreadSafeRepository, NoMemory>
        ensures { IfOk result (λ copy. copy ≡ self.now) }
    {
        Ok(ThreadSafeRepository {
            repo: self.repo.try_clone(alloc)?,
        })
    }

    /// The repository, for use in this thread.
    pub fn to_thread_local(self) -> Repository
        ensures { result ≡ self }
    {
        self.repo
    }
}

impl Repository {
    /// The repository, to be handed to another thread.
    pub fn into_sync(self) -> ThreadSafeRepository
        ensures { result ≡ self }
    {
        ThreadSafeRepository { repo: self }
    }
}

fn crosses<T: Send + Sync>() {}

/// A repository crosses threads, and so does what it is handed over as.
pub fn repositories_cross_threads() {
    crosses::<Repository>();
    crosses::<ThreadSafeRepository>();
}
