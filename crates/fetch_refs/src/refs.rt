//! References and their reflogs.

ghost use Rattle.std.specs.Prelude.{◌≡◌, IfOk, IfErr, OnOk, OnErr, option_map};
ghost use Rattle.std.specs.FinMap as map;
ghost use Rattle.fetch_refs.specs.Logs.{lines_of};
ghost use Rattle.fetch_refs.specs.Packed.{packed_text, all_direct};
ghost use Rattle.fetch_refs.specs.Targets.{seen};
ghost use Rattle.fetch_refs.specs.declared.error.RefError.TheVariants as errors;

use crate::contents::Contents;
use crate::copies::copy_contents;
use crate::error::RefError;
use crate::log::LogLine;
use crate::packing::{pack_all, text_of};
use crate::slot::Listed;
use crate::target::TargetRef;
use fetch_specs::FullName;
use fetch_store::{Kind, NoMemory, Text};
use std::alloc::Global;
use std::marker::Model;
use std::mem;

/// References and reflogs. Contracts see it as its hash, two finite maps of names, and the packed
/// list: the names with ids that a file of packed references would hold.
#[derive(Drop)]
pub struct Refs {
    pub(crate) contents: Contents,
    /// The text of the packed list.
    pub(crate) text: Text,
}

impl Model for Refs {
    ghost use Rattle.fetch_refs.specs.Names.{RefsValue, coded_refs};

    ghost Value = { RefsValue };

    ghost coded = { coded_refs };

    ghost use Rattle.fetch_refs.specs.Contents.{shown_in};

    ghost view = { λ r. shown_in r.contents };

    ghost use Rattle.std.specs.Prelude.{◌≡◌};
    ghost use Rattle.fetch_refs.specs.Packed.{packed_text};

    ghost invariant = { λ r. r.text ≡ packed_text (shown_in r.contents).packed };
}

impl Refs {
    /// No references, in a repository of this hash.
    pub fn new(alloc: Global, kind: Kind) -> Refs
        ensures { result ≡ record { hash = kind; names = map.empty; logs = map.empty; packed = map.empty } }
    {
        Refs {
            contents: Contents::new(alloc, kind),
            text: Text::from(Vec::new(alloc)),
        }
    }

    /// What the reference points to, if it stands.
    pub fn find(&self, name: &FullName) -> Option<TargetRef<'_>>
        ensures { option_map seen result ≡ map.get self.now.names name.now }
    {
        self.contents.find(name)
    }

    /// The lines of a name's reflog, the oldest first. This takes no memory.
    pub fn reflog(&self, name: &FullName) -> &[LogLine]
        ensures { result.now ≡ lines_of self.now.logs name.now }
    {
        self.contents.lines(name)
    }

    /// The packed list as a text: a line `<hex> SP <name> LF` for each name, by ascending name.
    pub fn packed_text(&self) -> &[u8]
        ensures { result.now ≡ packed_text self.now.packed }
    {
        self.text.as_bytes()
    }

    /// Puts all direct references into the packed list, and nothing else. After an error nothing is
    /// changed. The only error is out of memory.
    pub fn compact(&mut self) -> Result<(), RefError>
        ensures ok { OnOk result (self.new ≡ record {
          hash = self.old.hash;
          names = self.old.names;
          logs = self.old.logs;
          packed = all_direct self.old.names;
        }) }
        ensures err { OnErr result (self.new ≡ self.old) }
        ensures memory { IfErr result (λ e. e ≡ errors.NoMemory) }
    {
        let text = text_of(self.contents.alloc, &self.contents.names, Listed::Direct)?;
        pack_all(&mut self.contents.names);
        self.text = text;
        Ok(())
    }

    /// A copy of the references.
    pub fn try_clone(&self) -> Result<Refs, NoMemory>
        ensures { IfOk result (λ copy. copy ≡ self.now) }
    {
        Ok(Refs {
            contents: copy_contents(&self.contents)?,
            text: self.text.try_clone()?,
        })
    }

    /// The references, of which none are left.
    pub(crate) fn take(&mut self) -> Refs
        ensures { result ≡ self.old }
    {
        let empty = Refs::new(self.contents.alloc, self.contents.hash);
        mem::replace(self, empty)
    }

    pub(crate) fn allocator(&self) -> Global {
        self.contents.alloc
    }
}
