//! A clone is prepared, and given up.

ghost use Rattle.std.specs.Prelude.{◌≡◌, ◌++◌, IfOk, IfErr, IfSome, IsErrOf, OnOk, IsTrue, length, ◌==◌, ◌||◌, is_some, true, false};
ghost use Rattle.fetch_base.specs.Faults.{Rose, Counts};
ghost use Rattle.fetch_remote.specs.Finding.{is_no_address as is_no_address_of};
ghost use Rattle.fetch_remote.specs.Repositories.{setup_of};
ghost use Rattle.fetch_clone.specs.CloneStates as spec;
ghost use Rattle.fetch_init.specs.declared.clone.Error.TheVariants as errors;
ghost use Rattle.fetch_clone.specs.CloneStates.{IsNoted, IsPrepared, IsPrepareRefusal, IsRemoved, is_clone_fault};

use crate::choices::Choices;
use fetch_create::create::{self, Kind, Options, listed};
use fetch_init::clone::Error;
use fetch_init::init_opts;
use fetch_refs::Signature;
use fetch_remote::{OpenOptions, Repository};
use fetch_store::{Files, List, NoMemory, Text};
use std::alloc::Global;

/// How a repository is created and opened.
#[derive(Drop)]
pub(crate) struct Making {
    /// With a work tree, or bare.
    pub kind: Kind,
    /// How the files are created.
    pub options: Options,
    /// How the repository is opened.
    pub open_options: OpenOptions,
    /// Who writes the lines of reflogs.
    pub committer: Signature,
}

/// A clone that isn't fetched into yet.
#[derive(Drop)]
pub(crate) struct CloneState {
    /// The address that is cloned, as it was given.
    pub url: Text,
    /// The directory that is cloned into, as it was given.
    pub place: Text,
    /// Whether nothing stood at the place before, or an empty directory.
    pub free: bool,
    /// The repository, until the clone has succeeded.
    pub repo: Option<Repository>,
    /// The overrides that the repository was opened with.
    pub opened: List<Text>,
    /// What was chosen by the builders.
    pub choices: Choices,
    /// Whether a closure for the remote was set by the builder.
    pub configures_remote: bool,
}

/// Notes whether the place is free, and creates and opens an empty repository there.
// Long: the parts of what is made are named one by one.
pub(crate) fn prepare<F: Files>(
    alloc: Global,
    files: &mut F,
    url: &[u8],
    place: &[u8],
    making: Making,
) -> Result<CloneState, Error>
    ensures ok { IfOk result (IsPrepared (F.faults files.old) (F.faults files.new) (F.told files.old) url.now place.now making
        (F.told files.new)) }
    ensures refused { IfErr result (IsPrepareRefusal (F.faults files.old) (F.faults files.new) (F.may_fail files.old)
        (F.told files.old) url.now place.now making (F.told files.new)) }
    ensures untouched { IsErrOf result errors.Url → files.new ≡ files.old }
    ensures cause { IfErr result (λ e. IsTrue (is_clone_fault e) → Rose (F.faults files.old) (F.faults files.new)) }
    ensures counts { Counts (F.faults files.old) (F.faults files.new) }
    ensures may_fail { F.may_fail files.new ≡ F.may_fail files.old }
{
    if is_no_address(url) {
        return Err(Error::Url);
    }
    let url = Text::new(alloc, url)?;
    let place = Text::new(alloc, place)?;
    let free = is_free(files, &place)?;
    let Making {
        kind,
        options,
        open_options,
        committer,
    } = making;
    let options = strict(options);
    let repo = init_opts(
        alloc,
        files,
        place.as_bytes(),
        kind,
        options,
        open_options,
        committer,
    )?;
    let repo = repo.to_thread_local();
    let opened = overrides_of(alloc, &repo)?;
    Ok(CloneState {
        url,
        place,
        free,
        opened,
        repo: Some(repo),
        choices: Choices::new(alloc),
        configures_remote: false,
    })
}

/// The overrides that a repository has.
fn overrides_of(alloc: Global, repo: &Repository) -> Result<List<Text>, NoMemory>
    ensures { IfOk result (λ texts. texts ≡ (setup_of repo.now).overrides) }
{
    let mut texts = List::new(alloc);
    append_texts(&mut texts, repo.overrides())?;
    Ok(texts)
}

/// Adds copies of more texts at the end.
pub(crate) fn append_texts(texts: &mut List<Text>, more: &[Text]) -> Result<(), NoMemory>
    ensures { OnOk result (texts.new ≡ texts.old ++ more.now) }
{
    for text in more {
        texts.push(text.try_clone()?)?;
    }
    Ok(())
}

fn is_no_address(text: &[u8]) -> bool
    ensures { result ≡ is_no_address_of text.now }
{
    text.is_empty() || has_nul_or_feed(text)
}

fn has_nul_or_feed(text: &[u8]) -> bool
    ensures { result ≡ spec.has_nul_or_feed text.now }
{
    text.contains(&0) || text.contains(&b'\n')
}

/// The place has to be empty, unless the options say otherwise.
fn strict(options: Options) -> Options
    ensures { result ≡ spec.strict options }
{
    Options {
        destination_must_be_empty: Some(options.destination_must_be_empty.unwrap_or(true)),
        ..options
    }
}

/// Whether nothing stands at the place, or an empty directory. A listing that fails counts as no.
fn is_free<F: Files>(files: &mut F, place: &Text) -> Result<bool, NoMemory>
    ensures noted { IfOk result (IsNoted (F.faults files.old) (F.faults files.new) (F.told files.old) place.now) }
    ensures tree { F.told files.new ≡ F.told files.old }
    ensures counts { Counts (F.faults files.old) (F.faults files.new) }
    ensures may_fail { F.may_fail files.new ≡ F.may_fail files.old }
{
    match listed(files, place) {
        Ok(None) => Ok(true),
        Ok(Some(names)) => Ok(names.is_empty()),
        Err(create::Error::IoOpen { .. }) => Ok(false),
        Err(_) => Err(NoMemory),
    }
}

/// Asks for the removal of the place of a clone without success, where it was free. A fault is ignored.
pub(crate) fn give_up<F: Files>(files: &mut F, draft: &CloneState)
    ensures removed { spec.is_removed draft.now ≡ true
        → IsRemoved (F.faults files.old) (F.faults files.new) (F.may_fail files.old) (F.told files.old) draft.now.place (F.told files.new) }
    ensures untouched { spec.is_removed draft.now ≡ false → files.new ≡ files.old }
    ensures counts { Counts (F.faults files.old) (F.faults files.new) }
    ensures may_fail { F.may_fail files.new ≡ F.may_fail files.old }
{
    if is_removed(draft) {
        remove(files, &draft.place);
    }
}

/// Whether the place is to go: there was no success, and it was free.
fn is_removed(draft: &CloneState) -> bool
    ensures { result ≡ spec.is_removed draft.now }
{
    draft.free && draft.repo.is_some()
}

fn remove<F: Files>(files: &mut F, place: &Text)
    ensures removed { IsRemoved (F.faults files.old) (F.faults files.new) (F.may_fail files.old) (F.told files.old) place.now
        (F.told files.new) }
    ensures counts { Counts (F.faults files.old) (F.faults files.new) }
    ensures may_fail { F.may_fail files.new ≡ F.may_fail files.old }
{
    let _ = files.remove_dir_all(place.as_bytes());
}
