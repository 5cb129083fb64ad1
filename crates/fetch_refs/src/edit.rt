//! Changes of references.

ghost use Rattle.std.specs.Prelude.{◌≡◌, IfOk};
ghost use Rattle.std.specs.Option.{option_map};
ghost use Rattle.fetch_refs.specs.Targets.{seen};
ghost use Rattle.fetch_refs.specs.Expectations as spec;

use crate::target::{Target, TargetRef};
use fetch_specs::FullName;
use fetch_store::{NoMemory, Text};

/// What is expected of a reference before it is changed.
#[derive(Debug, Drop)]
pub enum PreviousValue {
    /// Whatever stands there, also nothing.
    Any,
    /// Some value.
    MustExist,
    /// Nothing.
    MustNotExist,
    /// This value.
    MustExistAndMatch(Target),
    /// This value or nothing.
    ExistingMustMatch(Target),
}

impl PreviousValue {
    /// A copy of the expectation.
    pub fn try_clone(&self) -> Result<PreviousValue, NoMemory>
        ensures { IfOk result (λ copy. copy ≡ self.now) }
    {
        match self {
            PreviousValue::Any => Ok(PreviousValue::Any),
            PreviousValue::MustExist => Ok(PreviousValue::MustExist),
            PreviousValue::MustNotExist => Ok(PreviousValue::MustNotExist),
            PreviousValue::MustExistAndMatch(target) => {
                Ok(PreviousValue::MustExistAndMatch(target.try_clone()?))
            }
            PreviousValue::ExistingMustMatch(target) => {
                Ok(PreviousValue::ExistingMustMatch(target.try_clone()?))
            }
        }
    }

    /// Whether this value, or none, is expected.
    pub(crate) fn holds(&self, found: Option<TargetRef<'_>>) -> bool
        ensures { result ≡ spec.holds self.now (option_map seen found.entry) }
    {
        match (self, found) {
            (PreviousValue::Any, _) => true,
            (PreviousValue::MustExist, found) => found.is_some(),
            (PreviousValue::MustNotExist, found) => found.is_none(),
            (PreviousValue::MustExistAndMatch(_), None) => false,
            (PreviousValue::MustExistAndMatch(wanted), Some(target)) => target.is_same(wanted),
            (PreviousValue::ExistingMustMatch(_), None) => true,
            (PreviousValue::ExistingMustMatch(wanted), Some(target)) => target.is_same(wanted),
        }
    }
}

/// Whether a change touches the reference, or its reflog alone.
#[derive(Clone, Copy, Debug, PartialEq, Eq)]
pub enum RefLog {
    /// The reference and its reflog.
    AndReference,
    /// The reflog alone.
    Only,
}

/// How a change is logged.
#[derive(Debug, Drop)]
pub struct LogChange {
    /// What the update touches.
    pub mode: RefLog,
    /// Whether a name that isn't logged otherwise gets a line.
    pub force_create_reflog: bool,
    /// The message of the line.
    pub message: Text,
}

impl LogChange {
    /// A copy of the value.
    pub fn try_clone(&self) -> Result<LogChange, NoMemory>
        ensures { IfOk result (λ copy. copy ≡ self.now) }
    {
        Ok(LogChange {
            mode: self.mode,
            force_create_reflog: self.force_create_reflog,
            message: self.message.try_clone()?,
        })
    }
}

/// What becomes of a reference.
#[derive(Debug, Drop)]
pub enum Change {
    /// The reference gets a value.
    Update {
        /// How the update is logged.
        log: LogChange,
        /// What has to stand there before.
        expected: PreviousValue,
        /// The new value.
        new: Target,
    },
    /// The reflog goes, and the reference too unless the reflog alone is meant.
    Delete {
        /// What has to stand there before.
        expected: PreviousValue,
        /// What is deleted.
        log: RefLog,
    },
}

impl Change {
    /// A copy of the change.
    pub fn try_clone(&self) -> Result<Change, NoMemory>
        ensures { IfOk result (λ copy. copy ≡ self.now) }
    {
        match self {
            Change::Update { log, expected, new } => Ok(Change::Update {
                log: log.try_clone()?,
                expected: expected.try_clone()?,
                new: new.try_clone()?,
            }),
            Change::Delete { expected, log } => Ok(Change::Delete {
                expected: expected.try_clone()?,
                log: *log,
            }),
        }
    }

    /// What is expected before the change.
    pub(crate) fn expected(&self) -> &PreviousValue
        ensures { result.now ≡ spec.expected_of self.now }
    {
        match self {
            Change::Update { expected, .. } => expected,
            Change::Delete { expected, .. } => expected,
        }
    }
}

/// A change of one reference.
#[derive(Debug, Drop)]
pub struct RefEdit {
    /// What becomes of it.
    pub change: Change,
    /// Its name.
    pub name: FullName,
}

impl RefEdit {
    /// A copy of the edit.
    pub fn try_clone(&self) -> Result<RefEdit, NoMemory>
        ensures { IfOk result (λ copy. copy ≡ self.now) }
    {
        Ok(RefEdit {
            change: self.change.try_clone()?,
            name: self.name.try_clone()?,
        })
    }
}

/// Where references are written. Both leave the same map.
#[derive(Clone, Copy, Debug, PartialEq, Eq)]
pub enum PackedRefs {
    /// Each reference by itself; an update leaves the packed list as it is.
    Never,
    /// Updates go into the packed list.
    Only,
}
