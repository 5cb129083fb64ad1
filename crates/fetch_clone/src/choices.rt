//! What a clone is asked for beside its place.

ghost use Rattle.std.specs.Prelude.{◌≡◌, IfOk, IfErr, IsOkUnless, MatchOption, OnOk, OnErr, IfSome, None, Some, Err, Ok, false, true};
ghost use Rattle.std.specs.Prelude.{IsTrue};
ghost use Rattle.std.specs.Option.{option_copied};
ghost use Rattle.fetch_lookup.specs.Names.{IsNameRefusal, name_refusal};
ghost use Rattle.fetch_specs.specs.Names.{name_trouble};
ghost use Rattle.fetch_specs.specs.declared.error.NameError.TheVariants as name_errors;
ghost use Rattle.fetch_clone.specs.Choices as spec;
ghost use Rattle.fetch_init.specs.Revisions.{IsRevisionRefusal, revision_of};
ghost use Rattle.fetch_clone.specs.Stages.{ref_name_of, revision_of as revision_wanted};

use fetch_conversation::ref_map;
use fetch_init::with_revision::{self, revision};
use fetch_lookup::name;
use fetch_negotiate::Shallow;
use fetch_specs::{NameError, PartialName, RefSpec};
use fetch_store::{List, NoMemory, Text};
use std::alloc::Global;

/// Which references a clone is of. A ref name and a revision exclude each other.
#[derive(Debug, Drop)]
pub enum CloneTarget {
    /// All branches.
    Everything,
    /// All branches, and `HEAD` leads to this reference.
    RefName(PartialName),
    /// One revision alone.
    Revision(RefSpec),
}

impl CloneTarget {
    /// An equal choice.
    pub fn try_clone(&self) -> Result<CloneTarget, NoMemory>
        ensures { IfOk result (λ copy. copy ≡ self.now) }
    {
        match self {
            CloneTarget::Everything => Ok(CloneTarget::Everything),
            CloneTarget::RefName(name) => Ok(CloneTarget::RefName(name.try_clone()?)),
            CloneTarget::Revision(spec) => Ok(CloneTarget::Revision(spec.try_clone()?)),
        }
    }
}

/// What a clone is asked for beside its place.
#[derive(Debug, Drop)]
pub struct Choices {
    /// The name of the remote, where one was given.
    pub remote_name: Option<Text>,
    /// How deep the history is to be.
    pub shallow: Shallow,
    /// Overrides, as a repository is opened with.
    pub overrides: List<Text>,
    /// Which references are fetched, and where `HEAD` leads.
    pub wanted: CloneTarget,
    /// How references are listed and mapped.
    pub options: ref_map::Options,
}

impl Choices {
    /// All branches with their whole history, as the configuration says.
    pub fn new(alloc: Global) -> Choices
        ensures { result ≡ spec.plain }
    {
        Choices {
            remote_name: None,
            shallow: Shallow::NoChange,
            overrides: List::new(alloc),
            wanted: CloneTarget::Everything,
            options: ref_map::Options::new(alloc),
        }
    }

    /// Equal choices.
    pub fn try_clone(&self) -> Result<Choices, NoMemory>
        ensures { IfOk result (λ copy. copy ≡ self.now) }
    {
        let remote_name = match &self.remote_name {
            Some(name) => Some(name.try_clone()?),
            None => None,
        };
        Ok(Choices {
            remote_name,
            shallow: self.shallow.try_clone()?,
            overrides: self.overrides.try_clone_with(Text::try_clone)?,
            wanted: self.wanted.try_clone()?,
            options: self.options.try_clone()?,
        })
    }

    /// Names the remote.
    pub fn name_remote(&mut self, alloc: Global, name: &[u8]) -> Result<(), name::Error>
        ensures ok { OnOk result (self.new ≡ record self.old { remote_name = Some name.now }) }
        ensures accepted { OnOk result (name_refusal name.now ≡ None) }
        ensures refused { IfErr result (IsNameRefusal name.now) }
        ensures err { OnErr result (self.new ≡ self.old) }
    {
        self.remote_name = Some(name::validated(alloc, name)?);
        Ok(())
    }

    /// The ref name that is wanted, lent.
    pub fn ref_name(&self) -> Option<&PartialName>
        ensures { option_copied result ≡ ref_name_of self.now.wanted }
    {
        match &self.wanted {
            CloneTarget::RefName(name) => Some(name),
            CloneTarget::Everything => None,
            CloneTarget::Revision(_) => None,
        }
    }

    /// The revision that is wanted, lent.
    pub fn revision(&self) -> Option<&RefSpec>
        ensures { option_copied result ≡ revision_wanted self.now.wanted }
    {
        match &self.wanted {
            CloneTarget::Revision(spec) => Some(spec),
            CloneTarget::Everything => None,
            CloneTarget::RefName(_) => None,
        }
    }

    /// Chooses a ref name in place of whatever was chosen. None takes back a ref name alone.
    pub fn choose_ref_name(&mut self, alloc: Global, name: Option<&[u8]>) -> Result<(), NameError>
        ensures ok { OnOk result (self.new ≡ spec.with_wanted self.old (spec.ref_name_chosen self.old.wanted (option_copied name.entry))) }
        ensures verdict { IfSome (option_copied name.entry)
            (λ text. MatchOption (name_trouble false text) (IsOkUnless result name_errors.NoMemory)
            (λ place. result ≡ Err (name_errors.Invalid place))) }
        ensures none { option_copied name.entry ≡ None → result ≡ Ok tt }
        ensures err { OnErr result (self.new ≡ self.old) }
    {
        match name {
            Some(name) => {
                self.wanted = CloneTarget::RefName(PartialName::new(alloc, name)?);
            }
            None => {
                if matches!(self.wanted, CloneTarget::RefName(_)) {
                    self.wanted = CloneTarget::Everything;
                }
            }
        }
        Ok(())
    }

    /// Chooses a revision in place of whatever was chosen. None takes back a revision alone.
    pub fn choose_revision(
        &mut self,
        alloc: Global,
        text: Option<&[u8]>,
    ) -> Result<(), with_revision::Error>
        ensures ok { OnOk result (spec.ChoosesRevision self.old.wanted (option_copied text.entry) self.new.wanted) }
        ensures rest { self.new ≡ spec.with_wanted self.old self.new.wanted }
        ensures refused { IfErr result (IsRevisionRefusal (option_copied text.entry)) }
        ensures err { OnErr result (self.new ≡ self.old) }
    {
        match text {
            Some(text) => {
                self.wanted = CloneTarget::Revision(revision(alloc, text)?);
            }
            None => {
                if matches!(self.wanted, CloneTarget::Revision(_)) {
                    self.wanted = CloneTarget::Everything;
                }
            }
        }
        Ok(())
    }
}
