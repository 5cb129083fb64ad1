//! What stands at a name.

ghost use Rattle.std.specs.Prelude.{◌≡◌, is_some};
ghost use Rattle.std.specs.Option.{option_and_then};
ghost use Rattle.fetch_refs.specs.Contents as spec;
ghost use Rattle.fetch_refs.specs.Packed.{direct_id};

use crate::target::Target;
use fetch_store::ObjectId;

/// The place of a name.
#[derive(Drop)]
pub(crate) struct Slot {
    /// The reference's value, or none where it is gone.
    pub(crate) value: Option<Target>,
    /// The id of the name in the packed list, if the list has it.
    pub(crate) packed: Option<ObjectId>,
}

impl Slot {
    /// Whether the place holds anything.
    pub(crate) fn is_held(&self) -> bool
        ensures { result ≡ spec.is_held self.now }
    {
        self.value.is_some() || self.packed.is_some()
    }

    /// Puts a direct reference's id into the packed list, and any other name out of it. Whether the reference stands.
    pub(crate) fn pack(&mut self) -> bool
        ensures slot { self.new ≡ spec.packed_slot self.old }
        ensures stands { result ≡ is_some self.old.value }
    {
        self.packed = direct_id(&self.value);
        self.value.is_some()
    }

    /// Takes the name out of the packed list. Whether the reference stands.
    pub(crate) fn unpack(&mut self) -> bool
        ensures slot { self.new ≡ spec.loose_slot self.old }
        ensures stands { result ≡ is_some self.old.value }
    {
        self.packed = None;
        self.value.is_some()
    }

    /// The id that a list has for the place.
    pub(crate) fn listed(&self, list: Listed) -> Option<ObjectId>
        ensures { result ≡ spec.listed list self.now }
    {
        match list {
            Listed::Packed => self.packed,
            Listed::Direct => direct_id(&self.value),
        }
    }
}

/// Which ids of the places are listed.
#[derive(Clone, Copy)]
pub(crate) enum Listed {
    /// Those of the packed list.
    Packed,
    /// Those of the direct references.
    Direct,
}

/// The id of a direct reference.
fn direct_id(value: &Option<Target>) -> Option<ObjectId>
    ensures { result ≡ option_and_then direct_id value.now }
{
    match value {
        Some(target) => target.direct_id(),
        None => None,
    }
}
