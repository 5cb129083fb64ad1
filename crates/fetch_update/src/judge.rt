//! What mappings are judged by.

ghost use Rattle.fetch_update.specs.Trees.{IsIndex};

use crate::message::RefLogMessage;
use crate::worktrees::Worktree;
use fetch_refs::{Refs, TargetRef};
use fetch_specs::{FullName, Tags};
use fetch_store::{ObjectId, Text};
use std::alloc::Global;
use std::collections::{BTreeMap, BTreeSet};

/// What mappings are judged by. The directories are those of the worktrees, by their branches.
#[derive(Clone, Copy)]
pub(crate) struct Judge<'a> {
    pub(crate) alloc: Global,
    pub(crate) refs: &'a Refs,
    pub(crate) message: &'a RefLogMessage,
    pub(crate) tags: Tags,
    pub(crate) dry_run: bool,
    pub(crate) worktrees: &'a [Worktree],
    pub(crate) directories: &'a BTreeMap<FullName, BTreeSet<Text>>,
    ghost indexed: { IsIndex worktrees.now directories.now },
}

/// What a mapping is to write: an id, or the name that an unborn reference of the remote names.
#[derive(Clone, Copy)]
pub(crate) enum NewTarget<'a> {
    Id(ObjectId),
    Name(&'a [u8]),
}

/// A destination where a reference stands, and what is to be done there.
#[derive(Drop)]
pub(crate) struct Place<'a> {
    pub(crate) name: FullName,
    pub(crate) found: TargetRef<'a>,
    pub(crate) new_target: NewTarget<'a>,
    /// The name that the remote's reference names.
    pub(crate) target: Option<&'a [u8]>,
    pub(crate) is_forced: bool,
}
