//! References that are made of names and targets.

ghost use Rattle.std.specs.Prelude.{◌≡◌, false, map, IfErr, IfOk, IfSome, IsErrAnd, MatchOption, OnErr, OnOk};
ghost use Rattle.std.specs.FinMap as finmap;
ghost use Rattle.std.specs.List.Sorted.{IsStrictlySortedBy};
ghost use Rattle.std.specs.Map.{keys_of};
ghost use Rattle.fetch_refs.specs.Answers.{IsUnlessMemory};
ghost use Rattle.fetch_refs.specs.Expectations.{refusal_of, tells_name};
ghost use Rattle.fetch_refs.specs.Logs.{after};
ghost use Rattle.fetch_refs.specs.Names.{name_cmp};
ghost use Rattle.fetch_refs.specs.declared.edit.PackedRefs.TheVariants.{Never};
ghost use Rattle.fetch_refs.specs.declared.error.RefError.TheVariants as errors;
ghost use Rattle.fetch_check.specs.Made as spec;
ghost use Rattle.fetch_check.specs.Reading.{refs_alone};

use fetch_refs::{
    Change, LogChange, PackedRefs, PreviousValue, RefEdit, RefError, RefLog, Refs, Signature,
    Target,
};
use fetch_specs::FullName;
use fetch_store::{Kind, NoMemory, Text};
use std::alloc::Global;

/// The references of these names, which ascend, without reflogs. Their edits expect any value, so that memory alone may
/// refuse them.
pub(crate) fn refs_of(
    alloc: Global,
    hash: Kind,
    references: Vec<(FullName, Target)>,
) -> Result<Refs, NoMemory>
    requires { IsStrictlySortedBy name_cmp (keys_of references.items) }
    ensures { IfOk result (λ refs. refs ≡ refs_alone hash (finmap.from_entries references.items)) }
{
    match unlogged_refs(alloc, hash, references) {
        Ok(refs) => Ok(refs),
        Err(_) => Err(NoMemory),
    }
}

fn unlogged_refs(
    alloc: Global,
    hash: Kind,
    references: Vec<(FullName, Target)>,
) -> Result<Refs, RefError>
    requires { IsStrictlySortedBy name_cmp (keys_of references.items) }
    ensures { IfOk result (λ refs. refs ≡ refs_alone hash (finmap.from_entries references.items)) }
{
    let edits = edits_of(alloc, references)?;
    let nobody = Signature {
        name: Text::from(Vec::new(alloc)),
        email: Text::from(Vec::new(alloc)),
        seconds: 0,
        offset_minutes: 0,
    };
    let mut refs = Refs::new(alloc, hash);
    make_unlogged(&mut refs, edits.as_slice(), &nobody)?;
    Ok(refs)
}

/// An edit for each reference, which isn't logged.
fn edits_of(alloc: Global, references: Vec<(FullName, Target)>) -> Result<Vec<RefEdit>, NoMemory>
    ensures { IfOk result (λ edits. edits.items ≡ map spec.edit_of references.items) }
{
    let mut edits = Vec::with_capacity(alloc, references.len())?;
    for (name, target) in references {
        edits.push(edit_of(alloc, name, target))?;
    }
    Ok(edits)
}

fn edit_of(alloc: Global, name: FullName, target: Target) -> RefEdit
    ensures { result ≡ spec.edit_of (name, target) }
{
    let log = LogChange {
        mode: RefLog::AndReference,
        force_create_reflog: false,
        message: Text::from(Vec::new(alloc)),
    };
    RefEdit {
        change: Change::Update {
            log,
            expected: PreviousValue::Any,
            new: target,
        },
        name,
    }
}

/// Makes edits, as `Refs::prepare` and a commit do, and logs none. After an error the references are as before.
pub fn make_unlogged(
    refs: &mut Refs,
    edits: &[RefEdit],
    committer: &Signature,
) -> Result<(), RefError>
    ensures ok { OnOk result (refs.new ≡ after committer.now false Never refs.old edits.now) }
    ensures refusal { MatchOption (refusal_of refs.old.names edits.now) (IfErr result (λ e. e ≡ errors.NoMemory))
        (λ e. IsErrAnd result (IsUnlessMemory e)) }
    ensures exact { IfSome (refusal_of refs.old.names edits.now) (λ e. tells_name e ≡ false → IsErrAnd result (λ found. found ≡ e)) }
    ensures err { OnErr result (refs.new ≡ refs.old) }
{
    let prepared = refs.prepare(edits, committer, false, PackedRefs::Never)?;
    prepared.commit();
    Ok(())
}
