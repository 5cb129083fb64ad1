//! Remotes with other refspecs, and remotes that are saved.

ghost use Rattle.std.specs.Prelude.{◌≡◌, IfErr, IfOk, IfSome, OnErr, OnOk, Err, Ok};
ghost use Rattle.std.specs.Bool.{OnFalse};
ghost use Rattle.fetch_specs.specs.Parses.{parsed};
ghost use Rattle.fetch_base.specs.Answers.{AnswersBy, AnswersUnless};
ghost use Rattle.fetch_lookup.specs.Extended.{with_all};
ghost use Rattle.fetch_lookup.specs.Names.{text_of};
ghost use Rattle.fetch_lookup.specs.Remotes.{operation_of};
ghost use Rattle.fetch_lookup.specs.Results.{all_of};
ghost use Rattle.fetch_lookup.specs.Saved as saving;
ghost use Rattle.fetch_lookup.specs.SpecOrder.{is_spec_memory};
ghost use Rattle.fetch_remote.specs.Remotes.{parts_of, renamed, specs_for, with_specs};

use crate::remote::Remote;
use crate::remotes::direction::Direction;
use crate::save::{AsError, Error};
use fetch_config::File;
use fetch_specs::SpecError;
use fetch_store::Text;
use std::alloc::Global;

impl Remote {
    /// Other refspecs in place of those for a direction: those that the texts say, all of them or none. The first text
    /// that says none is told, and the remote is as before.
    pub fn replace_refspecs(
        &mut self,
        alloc: Global,
        specs: &[Text],
        direction: Direction,
    ) -> Result<(), SpecError>
        ensures answer { AnswersBy (λ _. specs_for self.new direction) is_spec_memory
            (all_of (parsed (operation_of direction)) specs.now) result }
        ensures rest { self.new ≡ with_specs self.old direction (specs_for self.new direction) }
        ensures err { OnErr result (self.new ≡ self.old) }
    {
        match direction {
            Direction::Fetch => fetch_lookup::replace_refspecs(
                alloc,
                &mut self.parts.fetch_specs,
                specs,
                direction,
            ),
            Direction::Push => fetch_lookup::replace_refspecs(
                alloc,
                &mut self.parts.push_specs,
                specs,
                direction,
            ),
        }
    }

    /// The remote with more refspecs for a direction: those that the texts say and that aren't there yet, at the end, in
    /// order; all of them or none. The first text that says none is told, and the remote is given back.
    pub fn with_refspecs(
        self,
        alloc: Global,
        specs: &[Text],
        direction: Direction,
    ) -> Result<Remote, (Remote, SpecError)>
        ensures ok { IfOk result (λ remote. (with_all (specs_for self direction) (all_of (parsed (operation_of direction)) specs.now)
            ≡ Ok (specs_for remote direction)) × (remote ≡ with_specs self direction (specs_for remote direction))) }
        ensures refused { IfErr result (λ refusal. (refusal.0 ≡ self)
            × OnFalse (is_spec_memory refusal.1) (all_of (parsed (operation_of direction)) specs.now ≡ Err refusal.1)) }
    {
        let mut remote = self;
        match remote.add_refspecs(alloc, specs, direction) {
            Ok(()) => Ok(remote),
            Err(e) => Err((remote, e)),
        }
    }

    fn add_refspecs(
        &mut self,
        alloc: Global,
        specs: &[Text],
        direction: Direction,
    ) -> Result<(), SpecError>
        ensures answer { AnswersBy (λ _. specs_for self.new direction) is_spec_memory
            (with_all (specs_for self.old direction) (all_of (parsed (operation_of direction)) specs.now)) result }
        ensures rest { self.new ≡ with_specs self.old direction (specs_for self.new direction) }
        ensures err { OnErr result (self.new ≡ self.old) }
    {
        match direction {
            Direction::Fetch => fetch_lookup::with_refspecs(
                alloc,
                &mut self.parts.fetch_specs,
                specs,
                direction,
            ),
            Direction::Push => fetch_lookup::with_refspecs(
                alloc,
                &mut self.parts.push_specs,
                specs,
                direction,
            ),
        }
    }

    /// Saves the remote under its name: in all sections `remote "<name>"` the addresses, the choice of tags and the
    /// refspecs go, and what they are now is written into the last such section of the file itself, or into a new one
    /// at the end. A new one is used also where addresses of other files are to be cleared, by an empty address before
    /// the others. After an error the file is as before. `NameMissing` comes where it has no name, and then `Value`
    /// where a configuration can't keep one of the texts.
    pub fn save_to(&self, alloc: Global, config: &mut File) -> Result<(), Error>
        ensures answer { AnswersUnless saving.is_memory (saving.save_verdict self.now.name (parts_of self.now)) result }
        ensures saved { OnOk result (IfSome self.now.name
            (λ name. config.new ≡ saving.saved config.old (text_of name) (parts_of self.now))) }
        ensures err { OnErr result (config.new ≡ config.old) }
    {
        fetch_lookup::save_to(alloc, &self.parts, config)
    }

    /// Saves the remote under a valid name, which it then has. After an error the file and the remote are as before.
    /// `Name` comes first, where the name isn't valid.
    pub fn save_as_to(
        &mut self,
        alloc: Global,
        name: &[u8],
        config: &mut File,
    ) -> Result<(), AsError>
        ensures answer { AnswersUnless saving.is_as_memory (saving.save_as_verdict name.now (parts_of self.old)) result }
        ensures saved { OnOk result (config.new ≡ saving.saved config.old name.now (parts_of self.old)) }
        ensures named { OnOk result (self.new ≡ renamed (saving.valid_name name.now) self.old) }
        ensures err { OnErr result ((config.new ≡ config.old) × (self.new ≡ self.old)) }
    {
        fetch_lookup::save_as_to(alloc, &mut self.parts, name, config)
    }
}
