//! What a reference points to.

ghost use Rattle.std.specs.Prelude.{◌≡◌, true, IfOk, OnErr, Some};
ghost use Rattle.fetch_refs.specs.Expectations.{is_name};
ghost use Rattle.fetch_refs.specs.Packed.{direct_id};
ghost use Rattle.fetch_refs.specs.Targets as spec;
ghost use Rattle.fetch_refs.specs.Targets.{seen};

use fetch_specs::FullName;
use fetch_store::{NoMemory, ObjectId};

/// An object, or the name of another reference.
#[derive(Debug, PartialEq, Eq, Drop)]
pub enum Target {
    /// The id of an object, stored or not.
    Object(ObjectId),
    /// The name of another reference, which may be absent.
    Symbolic(FullName),
}

impl Target {
    /// The same target, lent.
    pub fn as_ref(&self) -> TargetRef<'_>
        ensures { seen result ≡ self.now }
    {
        match self {
            Target::Object(id) => TargetRef::Object(*id),
            Target::Symbolic(name) => TargetRef::Symbolic(name),
        }
    }

    /// The id of a direct reference.
    pub(crate) fn direct_id(&self) -> Option<ObjectId>
        ensures { result ≡ direct_id self.now }
    {
        match self {
            Target::Object(id) => Some(*id),
            Target::Symbolic(_) => None,
        }
    }

    /// A copy of the target.
    pub fn try_clone(&self) -> Result<Target, NoMemory>
        ensures { IfOk result (λ copy. copy ≡ self.now) }
    {
        match self {
            Target::Object(id) => Ok(Target::Object(*id)),
            Target::Symbolic(name) => Ok(Target::Symbolic(name.try_clone()?)),
        }
    }
}

/// A target that someone else keeps.
#[derive(Clone, Copy, Debug, PartialEq, Eq)]
pub enum TargetRef<'a> {
    /// The id of an object, stored or not.
    Object(ObjectId),
    /// The name of another reference, which may be absent.
    Symbolic(&'a FullName),
}

impl TargetRef<'_> {
    /// A copy of the target. An id takes no memory.
    pub fn try_to_owned(&self) -> Result<Target, NoMemory>
        ensures copy { IfOk result (λ copy. copy ≡ seen self.now) }
        ensures memory { OnErr result (is_name (Some (seen self.now)) ≡ true) }
    {
        match self {
            TargetRef::Object(id) => Ok(Target::Object(*id)),
            TargetRef::Symbolic(name) => Ok(Target::Symbolic(name.try_clone()?)),
        }
    }

    /// Whether it is that target.
    #[tactic(auto, using(fetch_base::proofs::Orders::eq_is))]
    pub(crate) fn is_same(&self, other: &Target) -> bool
        ensures { result ≡ spec.is_same (seen self.now) other.now }
    {
        match (self, other) {
            (TargetRef::Object(id), Target::Object(wanted)) => *id == *wanted,
            (TargetRef::Symbolic(name), Target::Symbolic(wanted)) => **name == *wanted,
            _ => false,
        }
    }
}
