//! References of a remote, and what a mapping takes from it.

ghost use Rattle.std.specs.Prelude.{◌≡◌, IfOk};
ghost use Rattle.std.specs.Option.{option_copied};
ghost use Rattle.fetch_lines.specs.References.{name_in, id_in, peeled_in, target_in, source_id, source_peeled, source_name, source_target};

use fetch_base::{NoMemory, ObjectId, Text, TryClone};

/// A reference that a server lists.
#[derive(Debug, Drop, PartialEq, Eq)]
pub enum Ref {
    /// It has the id of an object.
    Direct {
        /// Its name.
        full_ref_name: Text,
        /// The id.
        object: ObjectId,
    },
    /// It names another reference. Where that one has a tag's id, `object` is what the tag peels to.
    Symbolic {
        /// Its name.
        full_ref_name: Text,
        /// The name that it names.
        target: Text,
        /// The tag's id, where that reference has one.
        tag: Option<ObjectId>,
        /// That reference's id, or what its tag peels to.
        object: ObjectId,
    },
    /// It has a tag's id, and `object` is what the tag peels to.
    Peeled {
        /// Its name.
        full_ref_name: Text,
        /// The tag's id.
        tag: ObjectId,
        /// What the tag peels to.
        object: ObjectId,
    },
    /// It names a reference that isn't there.
    Unborn {
        /// Its name.
        full_ref_name: Text,
        /// The name that it names.
        target: Text,
    },
}

impl Ref {
    /// The name, the id (a tag before what it peels to), and the peeled id where there is a tag.
    pub fn unpack(&self) -> (&[u8], Option<&ObjectId>, Option<&ObjectId>)
        ensures name { result.0.now ≡ name_in self.now }
        ensures id { option_copied result.1 ≡ id_in self.now }
        ensures peeled { option_copied result.2 ≡ peeled_in self.now }
    {
        match self {
            Ref::Direct {
                full_ref_name,
                object,
            } => (full_ref_name.as_bytes(), Some(object), None),
            Ref::Symbolic {
                full_ref_name,
                target: _,
                tag: Some(tag),
                object,
            } => (full_ref_name.as_bytes(), Some(tag), Some(object)),
            Ref::Symbolic {
                full_ref_name,
                target: _,
                tag: None,
                object,
            } => (full_ref_name.as_bytes(), Some(object), None),
            Ref::Peeled {
                full_ref_name,
                tag,
                object,
            } => (full_ref_name.as_bytes(), Some(tag), Some(object)),
            Ref::Unborn {
                full_ref_name,
                target: _,
            } => (full_ref_name.as_bytes(), None, None),
        }
    }

    /// The name of the reference that this one names, where it names one.
    pub fn target(&self) -> Option<&[u8]>
        ensures { option_copied result ≡ target_in self.now }
    {
        match self {
            Ref::Direct { .. } | Ref::Peeled { .. } => None,
            Ref::Symbolic { target, .. } => Some(target.as_bytes()),
            Ref::Unborn { target, .. } => Some(target.as_bytes()),
        }
    }

    /// An equal reference.
    pub fn try_clone(&self) -> Result<Ref, NoMemory>
        ensures { IfOk result (λ copy. copy ≡ self.now) }
    {
        match self {
            Ref::Direct {
                full_ref_name,
                object,
            } => Ok(Ref::Direct {
                full_ref_name: full_ref_name.try_clone()?,
                object: *object,
            }),
            Ref::Symbolic {
                full_ref_name,
                target,
                tag,
                object,
            } => Ok(Ref::Symbolic {
                full_ref_name: full_ref_name.try_clone()?,
                target: target.try_clone()?,
                tag: *tag,
                object: *object,
            }),
            Ref::Peeled {
                full_ref_name,
                tag,
                object,
            } => Ok(Ref::Peeled {
                full_ref_name: full_ref_name.try_clone()?,
                tag: *tag,
                object: *object,
            }),
            Ref::Unborn {
                full_ref_name,
                target,
            } => Ok(Ref::Unborn {
                full_ref_name: full_ref_name.try_clone()?,
                target: target.try_clone()?,
            }),
        }
    }
}

impl TryClone for Ref {
    fn try_clone(&self) -> Result<Ref, NoMemory> {
        self.try_clone()
    }
}

/// What a mapping takes from the remote: an object, or a reference.
#[derive(Debug, Drop, PartialEq, Eq)]
pub enum Source {
    /// An object, which a refspec names by its id.
    ObjectId(ObjectId),
    /// A reference that the server lists.
    Ref(Ref),
}

impl Source {
    /// The id (of a reference, a tag before what it peels to), where there is one.
    pub fn as_id(&self) -> Option<&ObjectId>
        ensures { option_copied result ≡ source_id self.now }
    {
        match self {
            Source::ObjectId(id) => Some(id),
            Source::Ref(reference) => reference.unpack().1,
        }
    }

    /// What the id peels to where the remote told it, or else the id.
    pub fn peeled_id(&self) -> Option<&ObjectId>
        ensures { option_copied result ≡ source_peeled self.now }
    {
        match self {
            Source::ObjectId(id) => Some(id),
            Source::Ref(reference) => {
                let (_, id, peeled) = reference.unpack();
                match peeled {
                    Some(peeled) => Some(peeled),
                    None => id,
                }
            }
        }
    }

    /// The name of the reference.
    pub fn as_name(&self) -> Option<&[u8]>
        ensures { option_copied result ≡ source_name self.now }
    {
        match self {
            Source::ObjectId(_) => None,
            Source::Ref(reference) => Some(reference.unpack().0),
        }
    }

    /// The target of a symbolic or unborn reference.
    pub fn as_target(&self) -> Option<&[u8]>
        ensures { option_copied result ≡ source_target self.now }
    {
        match self {
            Source::ObjectId(_) => None,
            Source::Ref(reference) => reference.target(),
        }
    }

    /// An equal source.
    pub fn try_clone(&self) -> Result<Source, NoMemory>
        ensures { IfOk result (λ copy. copy ≡ self.now) }
    {
        match self {
            Source::ObjectId(id) => Ok(Source::ObjectId(*id)),
            Source::Ref(reference) => Ok(Source::Ref(reference.try_clone()?)),
        }
    }
}
