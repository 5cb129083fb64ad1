//! Edits, tested and made ready.

ghost use Rattle.std.specs.Prelude.{◌≡◌, ◌<◌, true, false, length, position, IfOk, IfErr, IfSome, IsErrAnd, MatchOption, Ok, OnErr};
ghost use Rattle.std.specs.Borrow.{sem, RestsIfErr};
ghost use Rattle.std.specs.FinMap as map;
ghost use Rattle.fetch_refs.specs.Answers.{IsUnlessMemory};
ghost use Rattle.fetch_refs.specs.Expectations as spec;
ghost use Rattle.fetch_refs.specs.Expectations.{is_name, refusal_of, tells_name};
ghost use Rattle.fetch_refs.specs.Logs.{after};
ghost use Rattle.fetch_refs.specs.Prepared.{ready, lent};
ghost use Rattle.fetch_refs.specs.contracts.refs.Refs.{the_row};
ghost use Rattle.fetch_refs.specs.declared.error.RefError.TheVariants as errors;

use crate::edit::{PackedRefs, RefEdit};
use crate::error::RefError;
use crate::log::Signature;
use crate::pending::Pending;
use crate::prepared::Prepared;
use crate::refs::Refs;
use crate::target::Target;
use fetch_specs::FullName;
use fetch_store::NoMemory;

impl Refs {
    /// Tests what each edit expects of the references found, and makes the edits ready.
    /// `logging` logs `HEAD`, branches, remote branches and notes. With `packed` at `Only` an update
    /// goes into the packed list; the map of references is the same either way.
    ///
    /// The edits are made in order, and none of them shows before the commit. `Expectation` comes
    /// exactly where an edit's expectation fails of the references found, with the first such edit; memory can run out
    /// in its place only where a name is found there.
    pub fn prepare(
        &mut self,
        edits: &[RefEdit],
        committer: &Signature,
        logging: bool,
        packed: PackedRefs,
    ) -> Result<Prepared<'_>, RefError>
        ensures* as_before { sem 𝓛 (RestsIfErr the_row self.entry (λ p. (lent p).ghost_name) result (λ now. now ≡ self.old)) }
        ensures same_reference { IfOk result (λ p. (lent p).ghost_name ≡ self.entry.ghost_name) }
        ensures unchanged { IfOk result (λ p. (lent p).now ≡ self.old) }
        ensures ready { IfOk result (λ p. ready p ≡ after committer.now logging packed self.old edits.now) }
        ensures refusal { MatchOption (refusal_of self.old.names edits.now) (IfErr result (λ e. e ≡ errors.NoMemory))
            (λ e. IsErrAnd result (IsUnlessMemory e)) }
        ensures exact { IfSome (refusal_of self.old.names edits.now) (λ e. tells_name e ≡ false → IsErrAnd result (λ found. found ≡ e)) }
    {
        check(self, edits)?;
        match Pending::made(self.take(), edits, committer, logging, packed) {
            Ok(next) => Ok(Prepared { refs: self, next }),
            Err(refs) => {
                *self = refs;
                Err(RefError::NoMemory)
            }
        }
    }
}

/// Whether each edit finds what it expects.
fn check(refs: &Refs, edits: &[RefEdit]) -> Result<(), RefError>
    ensures refusal { MatchOption (refusal_of refs.now.names edits.now) (result ≡ Ok tt) (λ e. IsErrAnd result (IsUnlessMemory e)) }
    ensures exact { IfSome (refusal_of refs.now.names edits.now) (λ e. tells_name e ≡ false → IsErrAnd result (λ found. found ≡ e)) }
{
    match first_failing(refs, edits) {
        Some(index) => {
            let found = found(refs, &edits[index].name)?;
            Err(RefError::Expectation { index, found })
        }
        None => Ok(()),
    }
}

fn found(refs: &Refs, name: &FullName) -> Result<Option<Target>, NoMemory>
    ensures found { IfOk result (λ found. found ≡ map.get refs.now.names name.now) }
    ensures memory { OnErr result (is_name (map.get refs.now.names name.now) ≡ true) }
{
    match refs.find(name) {
        Some(target) => Ok(Some(target.try_to_owned()?)),
        None => Ok(None),
    }
}

fn first_failing(refs: &Refs, edits: &[RefEdit]) -> Option<usize>
    ensures position { result ≡ position (spec.fails refs.now.names) edits.now }
    ensures within { IfSome result (λ i. i < length edits.now) }
{
    edits.iter().position(|edit| fails(refs, edit))
}

#[tactic(auto, unfolding(crate::specs::Expectations::fails))]
fn fails(refs: &Refs, edit: &RefEdit) -> bool
    ensures { result ≡ spec.fails refs.now.names edit.now }
{
    !edit.change.expected().holds(refs.find(&edit.name))
}
