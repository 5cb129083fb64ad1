//! A clone: prepared, asked for something, and fetched into.

ghost use Rattle.std.specs.Prelude.{◌≡◌, IfOk, IfErr, MatchResult, Some, None, true, false, IsTrue};
ghost use Rattle.std.specs.Option.{option_copied};
ghost use Rattle.fetch_lookup.specs.Names.{IsNameRefusal, name_refusal};
ghost use Rattle.fetch_base.specs.Faults.{Rose, Counts};
ghost use Rattle.fetch_clone.specs.Choices.{ChoosesRevision, RefNameVerdict, ref_name_chosen, with_wanted};
ghost use Rattle.fetch_clone.specs.CloneStates.{IsPrepared, IsPrepareRefusal, IsRemoved, is_removed, is_clone_fault, with_choices};
ghost use Rattle.fetch_clone.specs.CloneStates.{making_of};
ghost use Rattle.fetch_init.specs.Revisions.{IsRevisionRefusal};
ghost use Rattle.fetch_init.specs.declared.clone.Error.TheVariants as causes;

use crate::clone_state::{CloneState, Making, give_up, prepare};
use fetch_conversation::ref_map;
use fetch_create::create::{Kind, Options};
use fetch_init::{clone, with_revision};
use fetch_lookup::name;
use fetch_negotiate::Shallow;
use fetch_refs::Signature;
use fetch_remote::connect::Connect;
use fetch_remote::{OpenOptions, Repository};
use fetch_specs::NameError;
use fetch_store::{Files, List, NoMemory, Text};
use std::alloc::Global;
use thiserror::Error;

/// Why a closure that configures something refused.
#[derive(Debug, Drop, PartialEq, Eq, Error)]
pub enum ConfigureFault {
    /// It says why.
    #[error("refused by the caller")]
    Refused { text: Text },
    /// Memory ran out.
    #[error("out of memory")]
    NoMemory,
}

impl ConfigureFault {
    /// An equal fault.
    pub fn try_clone(&self) -> Result<ConfigureFault, NoMemory>
        ensures { IfOk result (λ copy. copy ≡ self.now) }
    {
        match self {
            ConfigureFault::Refused { text } => Ok(ConfigureFault::Refused {
                text: text.try_clone()?,
            }),
            ConfigureFault::NoMemory => Ok(ConfigureFault::NoMemory),
        }
    }
}

impl From<NoMemory> for ConfigureFault {
    ghost use Rattle.std.specs.Prelude.{◌≡◌};
    ghost use Rattle.fetch_clone.specs.declared.prepare_fetch.ConfigureFault.TheVariants as errors;

    ghost from_gives = { λ _ e. e ≡ errors.NoMemory };

    fn from(_e: NoMemory) -> ConfigureFault {
        ConfigureFault::NoMemory
    }
}

/// A clone that is prepared. Dropped without success, it removes its place where that was free before.
///
/// Objects and references are fetched into memory; on the files come to stand the directories, `config`, and a keep file while
/// the fetch goes on.
pub struct PrepareFetch<F: Files + Drop, C: Connect + Drop, R: Drop, G: Drop> {
    pub(crate) files: F,
    pub(crate) maker: C,
    pub(crate) configure_remote: R,
    pub(crate) configure_connection: G,
    pub(crate) draft: CloneState,
}

impl<F: Files + Drop, C: Connect + Drop, R: Drop, G: Drop> PrepareFetch<F, C, R, G> {
    /// Creates an empty repository at the place, which has to be free unless the options say otherwise, to fetch into it
    /// from the address. A refusal hands the files back.
    ///
    /// `configure_remote` is handed the remote before it is saved, and answers it, changed or not. What it says of tags is saved,
    /// and yet all tags are fetched, unless the builder of that name is called or a revision is asked for.
    /// `configure_connection` is handed each peer before it is asked, but the one that lists again without the remote's `HEAD`.
    // Many arguments: the public signature. All that a clone is made of is owned by it.
    pub fn new(
        alloc: Global,
        url: &[u8],
        path: &[u8],
        kind: Kind,
        create_options: Options,
        open_options: OpenOptions,
        committer: Signature,
        files: F,
        maker: C,
        configure_remote: R,
        configure_connection: G,
    ) -> Result<Self, (F, clone::Error)>
        ensures ok { IfOk result (λ p. IsPrepared (F.faults files) (F.faults p.files) (F.told files) url.now path.now
            (making_of kind create_options open_options committer) (F.told p.files) p.draft) }
        ensures kept { IfOk result (λ p. (p.maker ≡ maker) × (p.configure_remote ≡ configure_remote)
            × (p.configure_connection ≡ configure_connection)) }
        ensures refused { IfErr result (λ e. IsPrepareRefusal (F.faults files) (F.faults e.0) (F.may_fail files)
            (F.told files) url.now path.now (making_of kind create_options open_options committer) (F.told e.0) e.1) }
        ensures untouched { IfErr result (λ e. e.1 ≡ causes.Url → e.0 ≡ files) }
        ensures cause { IfErr result (λ e. IsTrue (is_clone_fault e.1) → Rose (F.faults files) (F.faults e.0)) }
        ensures counts { MatchResult result (λ p. Counts (F.faults files) (F.faults p.files))
            (λ e. Counts (F.faults files) (F.faults e.0)) }
        ensures may_fail { MatchResult result (λ p. F.may_fail p.files ≡ F.may_fail files) (λ e. F.may_fail e.0 ≡ F.may_fail files) }
    {
        let making = Making {
            kind,
            options: create_options,
            open_options,
            committer,
        };
        let mut files = files;
        match prepare(alloc, &mut files, url, path, making) {
            Ok(draft) => Ok(PrepareFetch {
                files,
                maker,
                configure_remote,
                configure_connection,
                draft,
            }),
            Err(e) => Err((files, e)),
        }
    }

    /// The same with another closure for the remote, which is called before the remote is saved. The tags that it chooses are
    /// those that are fetched.
    pub fn configure_remote<R2: Drop>(self, f: R2) -> PrepareFetch<F, C, R2, G>
        ensures files { result.files ≡ self.files }
        ensures maker { result.maker ≡ self.maker }
        ensures remote { result.configure_remote ≡ f }
        ensures connection { result.configure_connection ≡ self.configure_connection }
        ensures draft { result.draft ≡ record self.draft { configures_remote = true } }
    {
        let PrepareFetch {
            files,
            maker,
            configure_remote: _,
            configure_connection,
            mut draft,
        } = self;
        draft.configures_remote = true;
        PrepareFetch {
            files,
            maker,
            configure_remote: f,
            configure_connection,
            draft,
        }
    }

    /// The same with another closure for the peer, which is called on each one that is fetched from.
    pub fn configure_connection<G2: Drop>(self, f: G2) -> PrepareFetch<F, C, R, G2>
        ensures files { result.files ≡ self.files }
        ensures maker { result.maker ≡ self.maker }
        ensures remote { result.configure_remote ≡ self.configure_remote }
        ensures connection { result.configure_connection ≡ f }
        ensures draft { result.draft ≡ self.draft }
    {
        let PrepareFetch {
            files,
            maker,
            configure_remote,
            configure_connection: _,
            draft,
        } = self;
        PrepareFetch {
            files,
            maker,
            configure_remote,
            configure_connection: f,
            draft,
        }
    }

    /// The same with this name for the remote, unless the name is none: then the clone is handed back as it was.
    pub fn with_remote_name(self, name: &[u8]) -> Result<Self, (Self, name::Error)>
        ensures ok { IfOk result (λ p. p ≡ record self {
          draft = with_choices self.draft
              (record self.draft.choices { remote_name = Some name.now });
        }) }
        ensures refused { IfErr result (λ e. (e.0 ≡ self) × IsNameRefusal name.now e.1) }
        ensures accepted { IfOk result (λ p. name_refusal name.now ≡ None) }
    {
        let mut clone = self;
        let alloc = clone.draft.choices.overrides.allocator();
        match clone.draft.choices.name_remote(alloc, name) {
            Ok(()) => Ok(clone),
            Err(e) => Err((clone, e)),
        }
    }

    /// The same with this change of depth.
    pub fn with_shallow(self, shallow: Shallow) -> Self
        ensures { result ≡ record self { draft = with_choices self.draft (record self.draft.choices { shallow = shallow }) } }
    {
        let mut clone = self;
        clone.draft.choices.shallow = shallow;
        clone
    }

    /// The same with these overrides, each `section.key=value` or `section.subsection.key=value`, in place of earlier ones.
    pub fn with_in_memory_config_overrides(self, values: Vec<Text>) -> Self
        ensures { result ≡ record self { draft = with_choices self.draft (record self.draft.choices { overrides = values.items }) } }
    {
        let mut clone = self;
        clone.draft.choices.overrides = List::from(values);
        clone
    }

    /// The same, where `HEAD` is to lead to this reference: all branches are fetched beside it. Where another depth is asked
    /// for, and no more refspecs, that reference alone is, with the remote's `HEAD` and the tags; a connection more tells which
    /// one is meant. For one commit without tags take `with_revision`.
    ///
    /// It takes the place of a revision; None takes back a reference alone. Where the name is none, the clone is handed back as
    /// it was.
    pub fn with_ref_name(self, name: Option<&[u8]>) -> Result<Self, (Self, NameError)>
        ensures ok { IfOk result (λ p. p ≡ record self {
          draft = with_choices self.draft
              (with_wanted self.draft.choices (ref_name_chosen self.draft.choices.wanted (option_copied name.entry)));
        }) }
        ensures verdict { RefNameVerdict (option_copied name.entry) result }
        ensures err { IfErr result (λ e. e.0 ≡ self) }
    {
        let mut clone = self;
        let alloc = clone.draft.choices.overrides.allocator();
        match clone.draft.choices.choose_ref_name(alloc, name) {
            Ok(()) => Ok(clone),
            Err(e) => Err((clone, e)),
        }
    }

    /// The same, where this revision alone is fetched, at any depth, without branches and tags, and the saved remote has no
    /// refspecs: `HEAD` takes its commit. One connection is made: it is the call for a dependency at a tag (`refs/tags/..`) or an
    /// id. A server may refuse an id that it doesn't list.
    ///
    /// It takes the place of a reference; None takes back a revision alone. Where the text names none, the clone is handed back
    /// as it was.
    pub fn with_revision(
        self,
        revision: Option<&[u8]>,
    ) -> Result<Self, (Self, with_revision::Error)>
        ensures ok { IfOk result (λ p. ChoosesRevision self.draft.choices.wanted (option_copied revision.entry) p.draft.choices.wanted) }
        ensures rest { IfOk result (λ p. p ≡ record self {
          draft = with_choices self.draft
              (with_wanted self.draft.choices p.draft.choices.wanted);
        }) }
        ensures refused { IfErr result (λ e. (e.0 ≡ self) × IsRevisionRefusal (option_copied revision.entry) e.1) }
    {
        let mut clone = self;
        let alloc = clone.draft.choices.overrides.allocator();
        match clone.draft.choices.choose_revision(alloc, revision) {
            Ok(()) => Ok(clone),
            Err(e) => Err((clone, e)),
        }
    }

    /// The same with these options of the listing.
    pub fn with_fetch_options(self, options: ref_map::Options) -> Self
        ensures { result ≡ record self { draft = with_choices self.draft (record self.draft.choices { options = options }) } }
    {
        let mut clone = self;
        clone.draft.choices.options = options;
        clone
    }

    /// The repository, empty as it was created, where there was no success. The place stays, and the files are asked nothing.
    pub fn persist(self) -> Option<Repository>
        ensures { result ≡ self.draft.repo }
    {
        let (_files, draft) = self.into_parts();
        draft.repo
    }

    /// The files as they are, and what is to be cloned.
    fn into_parts(self) -> (F, CloneState)
        ensures files { result.0 ≡ self.files }
        ensures draft { result.1 ≡ self.draft }
    {
        let PrepareFetch {
            files,
            maker: _,
            configure_remote: _,
            configure_connection: _,
            draft,
        } = self;
        (files, draft)
    }

    /// Gives the clone up: without success, and not persisted, the removal of the place is asked for exactly where it was free
    /// before. A fault of that is ignored. A drop does the same.
    pub fn abandon(self) -> F
        ensures removed { is_removed self.draft ≡ true
            → IsRemoved (F.faults self.files) (F.faults result) (F.may_fail self.files) (F.told self.files) self.draft.place
            (F.told result) }
        ensures untouched { is_removed self.draft ≡ false → result ≡ self.files }
        ensures counts { Counts (F.faults self.files) (F.faults result) }
        ensures may_fail { F.may_fail result ≡ F.may_fail self.files }
    {
        let (mut files, draft) = self.into_parts();
        give_up(&mut files, &draft);
        files
    }
}

impl<F: Files + Drop, C: Connect + Drop, R: Drop, G: Drop> Drop for PrepareFetch<F, C, R, G> {
    fn drop(self) {
        let _files = self.abandon();
    }
}

/// The repository, as `persist` gives it.
impl<F: Files + Drop, C: Connect + Drop, R: Drop, G: Drop> From<PrepareFetch<F, C, R, G>>
    for Option<Repository> {
    ghost use Rattle.std.specs.Prelude.{◌≡◌};

    ghost from_gives = { λ p repo. repo ≡ p.draft.repo };

    fn from(clone: PrepareFetch<F, C, R, G>) -> Option<Repository> {
        let (_files, draft) = clone.into_parts();
        draft.repo
    }
}
