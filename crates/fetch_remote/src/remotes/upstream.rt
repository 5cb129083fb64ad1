//! What a branch is called on its remote, where that is tracked, and which branch a tracking branch follows.

ghost use Rattle.std.specs.Prelude.{◌≡◌, ℕ, List, Option, Result, None};
ghost use Rattle.fetch_base.specs.Answers.{AnswersUnless};
ghost use Rattle.fetch_lookup.specs.Pushed as pushed;
ghost use Rattle.fetch_lookup.specs.declared.direction.Direction.TheVariants as Direction;
ghost use Rattle.fetch_lookup.specs.Results.{AnswersMaybe};
ghost use Rattle.fetch_lookup.specs.declared.branch.Error.{Error as LookupError};
ghost use Rattle.fetch_remote.specs.Finding.{is_existing_memory, sections_of};
ghost use Rattle.fetch_remote.specs.Upstream as spec;
ghost use Rattle.fetch_remote.specs.Remotes.{RemoteValue};
ghost use Rattle.fetch_remote.specs.declared.branch.Error.{Error as Refusal};
ghost use Rattle.fetch_remote.specs.declared.find.existing.Error.{Error as ExistingError};

use crate::branch::Error;
use crate::find::existing;
use crate::remote::Remote;
use crate::remotes::direction::Direction;
use crate::repository::Repository;
use crate::upstream;
use fetch_config::File;
use fetch_lookup::destination_name;
use fetch_specs::{FullName, NameError};
use std::alloc::Global;

impl Repository {
    /// What a branch is called on its remote. To fetch, that is its `branch.<short>.merge`. To push, it is the first
    /// destination that the remote's refspecs give it, or, where there are none, what `push.default` says: an unknown
    /// value is refused, unless settings that can't be read are passed over. None where nothing says it, and, to push,
    /// without a remote.
    #[tactic(auto, unfolding(crate::specs::Upstream::remote_name_in))]
    pub fn branch_remote_ref_name(
        &self,
        alloc: Global,
        name: &FullName,
        direction: Direction,
    ) -> Option<Result<FullName, Error>>
        ensures { AnswersMaybe spec.is_memory
            (spec.remote_name_in (sections_of self.now) name.now direction self.now.setup.settings.lenient) result }
    {
        let lenient = self.settings().lenient;
        match direction {
            Direction::Fetch => fetched(alloc, self.config(), name, lenient),
            Direction::Push => {
                let remote = self.branch_remote(alloc, name.shorten(), direction);
                pushed_where(alloc, self.config(), remote, name, lenient)
            }
        }
    }

    /// Where what a branch is called on its remote is tracked: the first destination that the remote's refspecs to fetch
    /// by give to it. None where nothing says that name, without a remote, and where the refspecs give none.
    #[tactic(auto, unfolding(crate::specs::Upstream::tracked_in))]
    pub fn branch_remote_tracking_ref_name(
        &self,
        alloc: Global,
        name: &FullName,
        direction: Direction,
    ) -> Option<Result<FullName, Error>>
        ensures { AnswersMaybe spec.is_memory
            (spec.tracked_in (sections_of self.now) name.now direction self.now.setup.settings.lenient) result }
    {
        let there = self.branch_remote_ref_name(alloc, name, direction);
        self.tracked_where(alloc, name, direction, there)
    }

    /// The branch that a tracking branch follows, and its remote: the refspecs of one remote alone lead there, and from
    /// one branch alone. None where none do. The first remote that is refused, in ascending order of names, is told.
    pub fn upstream_branch_and_remote_for_tracking_branch(
        &self,
        alloc: Global,
        tracking: &FullName,
    ) -> Result<Option<(FullName, Remote)>, upstream::Error>
        ensures { AnswersUnless spec.is_upstream_memory (spec.upstream_in (sections_of self.now) tracking.now) result }
    {
        match fetch_lookup::upstream_branch_and_remote_for_tracking_branch(
            alloc,
            self.config(),
            tracking,
        ) {
            Ok(Some((name, parts))) => Ok(Some((name, Remote::of(parts)))),
            Ok(None) => Ok(None),
            Err(e) => Err(upstream::Error::from(e)),
        }
    }

    /// Where the branch's remote tracks a name, where there is one.
    fn tracked_where(
        &self,
        alloc: Global,
        name: &FullName,
        direction: Direction,
        there: Option<Result<FullName, Error>>,
    ) -> Option<Result<FullName, Error>>
        ensures { (expected : Option (Result (List ℕ) Refusal)) → AnswersMaybe spec.is_memory expected there
            → AnswersMaybe spec.is_memory (spec.with_name expected (spec.tracked_there (sections_of self.now) name.now direction)) result }
    {
        match there {
            Some(Ok(there)) => self.tracked_there(alloc, name, direction, &there),
            Some(Err(e)) => Some(Err(e)),
            None => None,
        }
    }

    #[tactic(auto, unfolding(crate::specs::Upstream::tracked_there))]
    fn tracked_there(
        &self,
        alloc: Global,
        name: &FullName,
        direction: Direction,
        there: &FullName,
    ) -> Option<Result<FullName, Error>>
        ensures { AnswersMaybe spec.is_memory (spec.tracked_there (sections_of self.now) name.now direction there.now) result }
    {
        tracked_by_any(
            alloc,
            self.branch_remote(alloc, name.shorten(), direction),
            there,
        )
    }
}

/// A name that the configuration tells.
fn told(
    answer: Option<Result<FullName, fetch_lookup::branch::Error>>,
) -> Option<Result<FullName, Error>>
    ensures { (expected : Option (Result (List ℕ) LookupError)) → AnswersMaybe pushed.is_memory expected answer
        → AnswersMaybe spec.is_memory (spec.named expected) result }
{
    match answer {
        Some(Ok(name)) => Some(Ok(name)),
        Some(Err(e)) => Some(Err(Error::from(e))),
        None => None,
    }
}

fn fetched(
    alloc: Global,
    file: &File,
    name: &FullName,
    lenient: bool,
) -> Option<Result<FullName, Error>>
    ensures { AnswersMaybe spec.is_memory (spec.named
        (pushed.remote_name_in file.now.sections None name.now Direction.Fetch lenient)) result }
{
    told(fetch_lookup::branch_remote_ref_name(alloc, file, None, name, Direction::Fetch, lenient))
}

/// What a branch is pushed to, where it has a remote.
fn pushed_where(
    alloc: Global,
    file: &File,
    remote: Option<Result<Remote, existing::Error>>,
    name: &FullName,
    lenient: bool,
) -> Option<Result<FullName, Error>>
    ensures { (expected : Option (Result RemoteValue ExistingError)) → AnswersMaybe is_existing_memory expected remote
        → AnswersMaybe spec.is_memory (spec.with_remote expected (spec.pushed_by file.now.sections name.now lenient)) result }
{
    match remote {
        Some(Ok(remote)) => pushed(alloc, file, &remote, name, lenient),
        Some(Err(e)) => Some(Err(Error::from(e))),
        None => None,
    }
}

#[tactic(auto, unfolding(crate::specs::Upstream::pushed_by))]
fn pushed(
    alloc: Global,
    file: &File,
    remote: &Remote,
    name: &FullName,
    lenient: bool,
) -> Option<Result<FullName, Error>>
    ensures { AnswersMaybe spec.is_memory (spec.pushed_by file.now.sections name.now lenient remote.now) result }
{
    told(fetch_lookup::branch_remote_ref_name(
        alloc,
        file,
        Some(&remote.parts),
        name,
        Direction::Push,
        lenient,
    ))
}

/// Where a remote tracks a name, where there is a remote.
fn tracked_by_any(
    alloc: Global,
    remote: Option<Result<Remote, existing::Error>>,
    there: &FullName,
) -> Option<Result<FullName, Error>>
    ensures { (expected : Option (Result RemoteValue ExistingError)) → AnswersMaybe is_existing_memory expected remote
        → AnswersMaybe spec.is_memory (spec.with_remote expected (λ r. spec.tracked_by r there.now)) result }
{
    match remote {
        Some(Ok(remote)) => tracked_by(alloc, &remote, there),
        Some(Err(e)) => Some(Err(Error::from(e))),
        None => None,
    }
}

#[tactic(auto, unfolding(crate::specs::Upstream::tracked_by))]
fn tracked_by(alloc: Global, remote: &Remote, there: &FullName) -> Option<Result<FullName, Error>>
    ensures { AnswersMaybe spec.is_memory (spec.tracked_by remote.now there.now) result }
{
    match destination_name(alloc, remote.refspecs(Direction::Fetch), there) {
        Some(Ok(name)) => Some(Ok(name)),
        Some(Err(NameError::Invalid { place })) => Some(Err(Error::Name { place })),
        Some(Err(NameError::NoMemory)) => Some(Err(Error::NoMemory)),
        None => None,
    }
}
