//! The branch that `HEAD` of a new repository leads to.

ghost use Rattle.std.specs.Prelude.{◌≡◌, IfOk, not};
ghost use Rattle.fetch_create.specs.Branches as spec;

use crate::DEFAULT_BRANCH_NAME;
use fetch_config::File;
use fetch_specs::{FullName, NameError};
use fetch_store::NoMemory;
use std::alloc::Global;

/// The short name of the branch, as `init.defaultBranch` says it.
#[tactic(auto, unfolding(crate::specs::Branches::default_branch_of))]
pub fn default_branch(config: &File) -> &[u8]
    ensures { result.now ≡ spec.default_branch_of config.now }
{
    match config.string(b"init", None, b"defaultBranch", false) {
        Some(name) => name,
        None => DEFAULT_BRANCH_NAME.as_bytes(),
    }
}

/// The full name of a branch. None where a branch can't be called so.
pub fn branch_of(alloc: Global, name: &[u8]) -> Result<Option<FullName>, NoMemory>
    ensures { IfOk result (λ found. found ≡ spec.branch_of name.now) }
{
    if name == b"HEAD".as_slice() || name.starts_with(b"-") {
        return Ok(None);
    }
    let mut full = Vec::from_slice(alloc, b"refs/heads/")?;
    full.extend_from_slice(name)?;
    match FullName::new(alloc, full.as_slice()) {
        Ok(found) => Ok(Some(found)),
        Err(NameError::Invalid { .. }) => Ok(None),
        Err(NameError::NoMemory) => Err(NoMemory),
    }
}
