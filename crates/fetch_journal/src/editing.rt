//! Edits and deletions of a repository's references.

ghost use Rattle.std.specs.Prelude.{◌≡◌, ◌⊎◌, OnOk, OnErr, IfOk, map};
ghost use Rattle.fetch_base.specs.Answers.{RefusesUnless};
ghost use Rattle.fetch_journal.specs.Deletions.{without};
ghost use Rattle.fetch_journal.specs.Deletions as deletions;
ghost use Rattle.fetch_journal.specs.Unmet as spec;
ghost use Rattle.fetch_journal.specs.Machine.{commit_refusal, edited, with_refs};
ghost use Rattle.fetch_journal.specs.Shared.{is_memory};
ghost use Rattle.fetch_journal.specs.declared.error.SharedError.TheVariants as errors;

use crate::error::SharedError;
use fetch_refs::{Change, PackedRefs, PreviousValue, RefEdit, RefError, RefLog, Signature, Target};
use fetch_remote::Repository;
use fetch_specs::FullName;
use fetch_store::{NoMemory, Text};
use std::alloc::Global;

/// Makes the edits, or none of them.
pub(crate) fn edit(
    repo: &mut Repository,
    edits: &[RefEdit],
    committer: &Signature,
) -> Result<(), SharedError>
    ensures ok { OnOk result (repo.new ≡ with_refs repo.old (edited repo.old.setup.logging repo.old.state.refs edits.now committer.now)) }
    ensures err { OnErr result (repo.new ≡ repo.old) }
    ensures refusal { RefusesUnless is_memory (commit_refusal repo.old.state.refs.names edits.now) result }
{
    match repo.edit_refs(edits, committer, PackedRefs::Never) {
        Ok(()) => Ok(()),
        Err(cause) => Err(told(edits, cause)),
    }
}

/// What is told where edits aren't made ready for this cause.
fn told(edits: &[RefEdit], cause: RefError) -> SharedError
    requires { spec.IsOf edits.now cause }
    ensures { spec.IsTold edits.now cause result }
{
    match cause {
        RefError::Expectation { index, found } => unmet(&edits[index], found),
        _ => SharedError::NoMemory,
    }
}

/// An edit found this, and expects something else.
fn unmet(edit: &RefEdit, found: Option<Target>) -> SharedError
    ensures { (result ≡ errors.NoMemory) ⊎ (result ≡ errors.EditReferences edit.now.name found) }
{
    match edit.name.try_clone() {
        Ok(name) => SharedError::EditReferences { name, found },
        Err(_) => SharedError::NoMemory,
    }
}

/// Deletes these names with their reflogs, or none of them.
#[tactic(auto, using(crate::proofs::Deleted::by_edits))]
pub(crate) fn delete(
    repo: &mut Repository,
    alloc: Global,
    names: &[FullName],
) -> Result<(), NoMemory>
    ensures ok { OnOk result (repo.new ≡ with_refs repo.old (without repo.old.state.refs names.now)) }
    ensures err { OnErr result (repo.new ≡ repo.old) }
{
    let edits = deletions(alloc, names)?;
    match edit(repo, edits.as_slice(), &nobody(alloc)) {
        Ok(()) => Ok(()),
        Err(_) => Err(NoMemory),
    }
}

/// The edits that delete these names.
pub(crate) fn deletions(alloc: Global, names: &[FullName]) -> Result<Vec<RefEdit>, NoMemory>
    ensures { IfOk result (λ edits. edits.items ≡ map deletions.deletion names.now) }
{
    let mut edits = Vec::with_capacity(alloc, names.len())?;
    for name in names {
        edits.push(deletion(name)?)?;
    }
    Ok(edits)
}

fn deletion(name: &FullName) -> Result<RefEdit, NoMemory>
    ensures { IfOk result (λ edit. edit ≡ deletions.deletion name.now) }
{
    Ok(RefEdit {
        change: Change::Delete {
            expected: PreviousValue::Any,
            log: RefLog::AndReference,
        },
        name: name.try_clone()?,
    })
}

/// Who writes no line.
pub(crate) fn nobody(alloc: Global) -> Signature {
    Signature {
        name: Text::from(Vec::new(alloc)),
        email: Text::from(Vec::new(alloc)),
        seconds: 0,
        offset_minutes: 0,
    }
}
