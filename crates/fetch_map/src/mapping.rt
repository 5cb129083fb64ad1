//! Where the references of a remote go.

ghost use Rattle.std.specs.Prelude.{◌≡◌, IfOk};
ghost use Rattle.std.specs.Option.{option_copied};
ghost use Rattle.fetch_map.specs.Mappings.{spec_at};

use fetch_base::{Kind, List, NoMemory, Text, TryClone};
use fetch_lines::{Ref, Source};
use fetch_specs::RefSpec;

/// Which refspec made a mapping: one of the remote's, or one of the extra ones.
#[derive(Clone, Copy, Debug, PartialEq, Eq)]
pub enum SpecIndex {
    /// The index of one of the remote's refspecs.
    ExplicitInRemote(usize),
    /// The index of one of the extra refspecs.
    Implicit(usize),
}

impl SpecIndex {
    /// The refspec itself, where the lists have it.
    pub fn get<'a>(
        &self,
        refspecs: &'a [RefSpec],
        extra_refspecs: &'a [RefSpec],
    ) -> Option<&'a RefSpec>
        ensures { option_copied result ≡ spec_at self.now refspecs.now extra_refspecs.now }
    {
        match self {
            SpecIndex::ExplicitInRemote(index) => refspecs.get(*index),
            SpecIndex::Implicit(index) => extra_refspecs.get(*index),
        }
    }
}

/// What is fetched, where it goes, and which refspec says so.
#[derive(Debug, Drop, PartialEq, Eq)]
pub struct Mapping {
    /// What is fetched.
    pub remote: Source,
    /// The local reference that it goes to; its completed name may be no valid one. None where it is fetched alone.
    pub local: Option<Text>,
    /// The refspec that made the mapping.
    pub spec_index: SpecIndex,
}

impl Mapping {
    /// An equal mapping.
    pub fn try_clone(&self) -> Result<Mapping, NoMemory>
        ensures { IfOk result (λ copy. copy ≡ self.now) }
    {
        Ok(Mapping {
            remote: self.remote.try_clone()?,
            local: self.local.try_clone()?,
            spec_index: self.spec_index,
        })
    }
}

impl TryClone for Mapping {
    fn try_clone(&self) -> Result<Mapping, NoMemory> {
        self.try_clone()
    }
}

/// The references of a remote, the refspecs, and the mappings that they make.
#[derive(Debug, Drop)]
pub struct RefMap {
    /// First those of ids, then refspec by refspec and reference by reference. No destination has two sources.
    pub mappings: List<Mapping>,
    /// The remote's refspecs, which `ExplicitInRemote` counts.
    pub refspecs: List<RefSpec>,
    /// The extra refspecs, which `Implicit` counts. That of the tags is at their end, unless it was among them.
    pub extra_refspecs: List<RefSpec>,
    /// All references that the server listed, in its order.
    pub remote_refs: List<Ref>,
    /// The hash of the ids.
    pub object_hash: Kind,
}

impl RefMap {
    /// An equal map.
    pub fn try_clone(&self) -> Result<RefMap, NoMemory>
        ensures { IfOk result (λ copy. copy ≡ self.now) }
    {
        Ok(RefMap {
            mappings: self.mappings.try_clone()?,
            refspecs: self.refspecs.try_clone()?,
            extra_refspecs: self.extra_refspecs.try_clone()?,
            remote_refs: self.remote_refs.try_clone()?,
            object_hash: self.object_hash,
        })
    }
}
