//! Finding remotes.

ghost use Rattle.std.specs.Prelude.{◌≡◌, ◌==◌, ◌||◌, IfOk, IfSome, Option, Result, Some, is_some, option_map};
ghost use Rattle.std.specs.FinMap as map;
ghost use Rattle.std.specs.List.{list_any};
ghost use Rattle.std.specs.Option.{option_copied, option_or};
ghost use Rattle.fetch_refs.specs.declared.target.Target.TheVariants.{Symbolic};
ghost use Rattle.fetch_base.specs.Answers.{AnswersUnless};
ghost use Rattle.fetch_lookup.specs.Remotes.{is_memory, is_remote};
ghost use Rattle.fetch_lookup.specs.Results.{AnswersMaybe};
ghost use Rattle.fetch_remote.specs.Finding as spec;
ghost use Rattle.fetch_remote.specs.Finding.{sections_of};
ghost use Rattle.fetch_remote.specs.Remotes.{RemoteValue};
ghost use Rattle.fetch_remote.specs.declared.find.existing.Error.{Error as ExistingError};
ghost use Rattle.fetch_lookup.specs.declared.direction.Direction.TheVariants as Direction;

use crate::find;
use crate::find::{existing, for_fetch};
use crate::remote::{Remote, init};
use crate::remotes::direction::Direction;
use crate::repository::Repository;
use fetch_config::File;
use fetch_lookup::{Name, branch_remote_name, find_remote, remote_default_name};
use fetch_refs::TargetRef;
use fetch_specs::{Category, FullName, Tags};
use fetch_store::{List, NoMemory, Text};
use std::alloc::Global;

impl Repository {
    /// The nameless remote at an address, without refspecs, with tags included. A text that is empty, or has a NUL or a
    /// line feed, is none.
    pub fn remote_at(&self, alloc: Global, address: &[u8]) -> Result<Remote, init::Error>
        ensures { AnswersUnless spec.is_init_memory (spec.remote_at address.now) result }
    {
        at(alloc, address)
    }

    /// The same: addresses are kept as they are.
    pub fn remote_at_without_url_rewrite(
        &self,
        alloc: Global,
        address: &[u8],
    ) -> Result<Remote, init::Error>
        ensures { AnswersUnless spec.is_init_memory (spec.remote_at address.now) result }
    {
        at(alloc, address)
    }

    /// The remote that trusted sections `remote "<name>"` tell. None exactly where there is no such section. An error
    /// tells what of these sections can't be read: `TagOpt` first, then `Url`, then `RefSpec`.
    pub fn try_find_remote(
        &self,
        alloc: Global,
        name_or_url: &[u8],
    ) -> Option<Result<Remote, find::Error>>
        ensures found { is_some result ≡ is_remote (sections_of self.now) name_or_url.now }
        ensures answer { IfSome result (AnswersUnless is_memory (spec.remote_in (sections_of self.now) name_or_url.now)) }
    {
        sought(alloc, self.config(), name_or_url)
    }

    /// The same: addresses are kept as they are.
    pub fn try_find_remote_without_url_rewrite(
        &self,
        alloc: Global,
        name_or_url: &[u8],
    ) -> Option<Result<Remote, find::Error>>
        ensures found { is_some result ≡ is_remote (sections_of self.now) name_or_url.now }
        ensures answer { IfSome result (AnswersUnless is_memory (spec.remote_in (sections_of self.now) name_or_url.now)) }
    {
        sought(alloc, self.config(), name_or_url)
    }

    /// The remote that trusted sections `remote "<name>"` tell, of which there has to be one. Else `NotFound` tells the
    /// name.
    pub fn find_remote(&self, alloc: Global, name_or_url: &[u8]) -> Result<Remote, existing::Error>
        ensures { AnswersUnless spec.is_existing_memory (spec.existing_in (sections_of self.now) name_or_url.now) result }
    {
        required(alloc, self.config(), name_or_url)
    }

    /// The remote that is meant where none is named. None where none is meant.
    pub fn find_default_remote(
        &self,
        alloc: Global,
        direction: Direction,
    ) -> Option<Result<Remote, existing::Error>>
        ensures { AnswersMaybe spec.is_existing_memory (spec.default_in (sections_of self.now) direction) result }
    {
        by_default(alloc, self.config(), direction)
    }

    /// The remote of a branch. None where it has none, and where it has a symbol that names no remote; a place that
    /// names none is an address.
    pub fn branch_remote(
        &self,
        alloc: Global,
        short: &[u8],
        direction: Direction,
    ) -> Option<Result<Remote, existing::Error>>
        ensures { AnswersMaybe spec.is_existing_memory (spec.branch_remote_in (sections_of self.now) short.now direction) result }
    {
        of_branch(alloc, self.config(), short, direction)
    }

    /// The remote to fetch from. A text names it, or is its address. Where there is no text, it is the remote of the
    /// branch that `HEAD` names, or else the default one. `ExactlyOneRemoteNotAvailable` comes where there is none of
    /// these, and `Init` where the text is neither a name nor an address.
    pub fn find_fetch_remote(
        &self,
        alloc: Global,
        name_or_url: Option<&[u8]>,
    ) -> Result<Remote, for_fetch::Error>
        ensures { AnswersUnless spec.is_fetch_memory (spec.fetch_remote_of self.now (option_copied name_or_url.entry)) result }
    {
        match name_or_url {
            Some(text) => named_or_at(alloc, self.config(), text),
            None => self.meant_to_fetch(alloc),
        }
    }

    /// The remote of the branch that `HEAD` names, or else the default one.
    #[tactic(auto, unfolding(crate::specs::Finding::head_branch))]
    fn meant_to_fetch(&self, alloc: Global) -> Result<Remote, for_fetch::Error>
        ensures { AnswersUnless spec.is_fetch_memory
            (spec.or_refused (spec.meant_in (spec.head_branch self.now.state) (sections_of self.now))) result }
    {
        let Ok(head) = head_name(alloc) else {
            return Err(for_fetch::Error::NoMemory);
        };
        or_refused(meant(alloc, self.config(), self.branch_at(&head)))
    }

    /// The short name of the branch that a symbolic reference names.
    fn branch_at(&self, name: &FullName) -> Option<&[u8]>
        ensures { option_map (λ s. s.now) result ≡ spec.branch_at (map.get self.now.state.refs.names name.now) }
    {
        match self.refs().find(name) {
            Some(TargetRef::Symbolic(target)) => short_branch(target),
            Some(TargetRef::Object(_)) => None,
            None => None,
        }
    }
}

#[tactic(auto, unfolding(crate::specs::Finding::head))]
fn head_name(alloc: Global) -> Result<FullName, NoMemory>
    ensures { IfOk result (λ name. name ≡ spec.head) }
{
    match FullName::new(alloc, b"HEAD") {
        Ok(name) => Ok(name),
        Err(_) => Err(NoMemory),
    }
}

/// A branch without `refs/heads/`.
fn short_branch(name: &FullName) -> Option<&[u8]>
    ensures { option_map (λ s. s.now) result ≡ spec.branch_at (Some (Symbolic name.now)) }
{
    match name.category() {
        Some(Category::LocalBranch) => Some(name.shorten()),
        _ => None,
    }
}

#[tactic(auto, unfolding(crate::specs::Finding::remote_at))]
fn at(alloc: Global, address: &[u8]) -> Result<Remote, init::Error>
    ensures { AnswersUnless spec.is_init_memory (spec.remote_at address.now) result }
{
    if is_no_address(address) {
        return Err(init::Error::Url);
    }
    let mut urls = List::new(alloc);
    urls.push(Text::new(alloc, address)?)?;
    Ok(Remote::new(urls, List::new(alloc), Tags::Included))
}

fn is_no_address(text: &[u8]) -> bool
    ensures { result ≡ spec.is_no_address text.now }
{
    text.is_empty() || has_nul_or_feed(text)
}

fn has_nul_or_feed(text: &[u8]) -> bool
    ensures { result ≡ (list_any (λ b. b == 0) text.now || list_any (λ b. b == 10) text.now) }
{
    text.contains(&0) || text.contains(&b'\n')
}

fn sought(alloc: Global, file: &File, name: &[u8]) -> Option<Result<Remote, find::Error>>
    ensures found { is_some result ≡ is_remote file.now.sections name.now }
    ensures answer { IfSome result (AnswersUnless is_memory (spec.remote_in file.now.sections name.now)) }
{
    match find_remote(alloc, file, name) {
        Some(Ok(parts)) => Some(Ok(Remote::of(parts))),
        Some(Err(e)) => Some(Err(e)),
        None => None,
    }
}

/// A remote that trusted sections name.
fn named(alloc: Global, file: &File, name: &[u8]) -> Option<Result<Remote, existing::Error>>
    ensures found { is_some result ≡ is_remote file.now.sections name.now }
    ensures answer { IfSome result (AnswersUnless spec.is_existing_memory (spec.named_in file.now.sections name.now)) }
{
    match find_remote(alloc, file, name) {
        Some(Ok(parts)) => Some(Ok(Remote::of(parts))),
        Some(Err(e)) => Some(Err(existing::Error::from(e))),
        None => None,
    }
}

#[tactic(auto, unfolding(crate::specs::Finding::existing_in))]
fn required(alloc: Global, file: &File, name: &[u8]) -> Result<Remote, existing::Error>
    ensures { AnswersUnless spec.is_existing_memory (spec.existing_in file.now.sections name.now) result }
{
    match named(alloc, file, name) {
        Some(answer) => answer,
        None => Err(existing::Error::NotFound {
            name: Text::new(alloc, name)?,
        }),
    }
}

#[tactic(auto, unfolding(crate::specs::Finding::default_in))]
fn by_default(
    alloc: Global,
    file: &File,
    direction: Direction,
) -> Option<Result<Remote, existing::Error>>
    ensures { AnswersMaybe spec.is_existing_memory (spec.default_in file.now.sections direction) result }
{
    match remote_default_name(alloc, file, direction) {
        Ok(Some(name)) => Some(required(alloc, file, name.as_bytes())),
        Ok(None) => None,
        Err(_) => Some(Err(existing::Error::NoMemory)),
    }
}

#[tactic(auto, unfolding(crate::specs::Finding::branch_remote_in))]
fn of_branch(
    alloc: Global,
    file: &File,
    short: &[u8],
    direction: Direction,
) -> Option<Result<Remote, existing::Error>>
    ensures { AnswersMaybe spec.is_existing_memory (spec.branch_remote_in file.now.sections short.now direction) result }
{
    match branch_remote_name(alloc, file, short, direction) {
        Ok(Some(name)) => of_name(alloc, file, &name),
        Ok(None) => None,
        Err(_) => Some(Err(existing::Error::NoMemory)),
    }
}

#[tactic(auto, unfolding(crate::specs::Finding::of_name))]
fn of_name(alloc: Global, file: &File, name: &Name) -> Option<Result<Remote, existing::Error>>
    ensures { AnswersMaybe spec.is_existing_memory (spec.of_name file.now.sections name.now) result }
{
    match name {
        Name::Symbol(text) => named(alloc, file, text.as_bytes()),
        Name::Url(text) => Some(placed(alloc, file, text.as_bytes())),
    }
}

/// The remote of that name, or else one at that address.
#[tactic(auto, unfolding(crate::specs::Finding::placed_in))]
fn placed(alloc: Global, file: &File, text: &[u8]) -> Result<Remote, existing::Error>
    ensures { AnswersUnless spec.is_existing_memory (spec.placed_in file.now.sections text.now) result }
{
    match named(alloc, file, text) {
        Some(answer) => answer,
        None => match at(alloc, text) {
            Ok(remote) => Ok(remote),
            Err(init::Error::Url) => Err(existing::Error::UrlParse),
            Err(init::Error::NoMemory) => Err(existing::Error::NoMemory),
        },
    }
}

/// The remote of that name, or else one at that address.
#[tactic(auto, unfolding(crate::specs::Finding::named_or_at))]
fn named_or_at(alloc: Global, file: &File, text: &[u8]) -> Result<Remote, for_fetch::Error>
    ensures { AnswersUnless spec.is_fetch_memory (spec.named_or_at file.now.sections text.now) result }
{
    match named(alloc, file, text) {
        Some(Ok(remote)) => Ok(remote),
        Some(Err(e)) => Err(for_fetch::Error::from(e)),
        None => match at(alloc, text) {
            Ok(remote) => Ok(remote),
            Err(e) => Err(for_fetch::Error::from(e)),
        },
    }
}

/// The remote of a branch, or else the default one.
#[tactic(auto, unfolding(crate::specs::Finding::meant_in))]
fn meant(
    alloc: Global,
    file: &File,
    branch: Option<&[u8]>,
) -> Option<Result<Remote, existing::Error>>
    ensures { AnswersMaybe spec.is_existing_memory (spec.meant_in (option_copied branch.entry) file.now.sections) result }
{
    match branch {
        Some(short) => {
            let remote = of_branch(alloc, file, short, Direction::Fetch);
            or_default(alloc, file, remote)
        }
        None => by_default(alloc, file, Direction::Fetch),
    }
}

/// A remote that is there, or else the default one.
fn or_default(
    alloc: Global,
    file: &File,
    remote: Option<Result<Remote, existing::Error>>,
) -> Option<Result<Remote, existing::Error>>
    ensures { (expected : Option (Result RemoteValue ExistingError)) → AnswersMaybe spec.is_existing_memory expected remote
        → AnswersMaybe spec.is_existing_memory (option_or expected (spec.default_in file.now.sections Direction.Fetch)) result }
{
    match remote {
        Some(answer) => Some(answer),
        None => by_default(alloc, file, Direction::Fetch),
    }
}

/// A remote that has to be there to fetch from.
fn or_refused(remote: Option<Result<Remote, existing::Error>>) -> Result<Remote, for_fetch::Error>
    ensures { (expected : Option (Result RemoteValue ExistingError)) → AnswersMaybe spec.is_existing_memory expected remote
        → AnswersUnless spec.is_fetch_memory (spec.or_refused expected) result }
{
    match remote {
        Some(Ok(remote)) => Ok(remote),
        Some(Err(e)) => Err(for_fetch::Error::from(e)),
        None => Err(for_fetch::Error::ExactlyOneRemoteNotAvailable),
    }
}
