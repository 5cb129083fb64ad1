//! Edits of a repository's references.

ghost use Rattle.std.specs.Prelude.{◌≡◌, None, false, IfErr, IfSome, IsErrAnd, MatchOption, OnOk, OnErr};
ghost use Rattle.fetch_refs.specs.Answers.{IsUnlessMemory};
ghost use Rattle.fetch_refs.specs.Expectations.{refusal_of, tells_name};
ghost use Rattle.fetch_refs.specs.Logs.{after};
ghost use Rattle.fetch_refs.specs.declared.error.RefError.TheVariants as errors;
ghost use Rattle.fetch_remote.specs.Repositories.{state_of, setup_of, with_refs};

use crate::repository::Repository;
use fetch_refs::{PackedRefs, RefEdit, RefError, Refs, Signature};
use fetch_store::NoMemory;

impl Repository {
    /// Tests what each edit expects of the references, and makes the edits, as `Refs::prepare` and a commit do.
    /// Branches are logged where the repository logs them. After an error the repository is as before. `Expectation`
    /// tells the first edit whose expectation fails.
    pub fn edit_refs(
        &mut self,
        edits: &[RefEdit],
        committer: &Signature,
        packed: PackedRefs,
    ) -> Result<(), RefError>
        ensures ok { OnOk result (state_of self.new
            ≡ with_refs (state_of self.old) (after committer.now (setup_of self.old).logging packed (state_of self.old).refs edits.now)) }
        ensures refusal { MatchOption (refusal_of (state_of self.old).refs.names edits.now) (IfErr result (λ e. e ≡ errors.NoMemory))
            (λ e. IsErrAnd result (IsUnlessMemory e)) }
        ensures exact { IfSome (refusal_of (state_of self.old).refs.names edits.now)
            (λ e. tells_name e ≡ false → IsErrAnd result (λ found. found ≡ e)) }
        ensures err { OnErr result (state_of self.new ≡ state_of self.old) }
        ensures setup { setup_of self.new ≡ setup_of self.old }
    {
        let logging = self.logs();
        edit(&mut self.refs, edits, committer, logging, packed)
    }

    /// The same, where the edits find what they expect, and the repository's own committer writes the lines of reflogs.
    /// Memory alone may refuse them.
    pub(crate) fn move_refs(
        &mut self,
        edits: &[RefEdit],
        packed: PackedRefs,
    ) -> Result<(), NoMemory>
        requires found { refusal_of (state_of self.old).refs.names edits.now ≡ None }
        ensures ok { OnOk result (state_of self.new ≡ with_refs (state_of self.old)
            (after (setup_of self.old).settings.committer (setup_of self.old).logging packed (state_of self.old).refs edits.now)) }
        ensures err { OnErr result (state_of self.new ≡ state_of self.old) }
        ensures setup { setup_of self.new ≡ setup_of self.old }
    {
        let logging = self.logs();
        let made = edit(
            &mut self.refs,
            edits,
            &self.settings.committer,
            logging,
            packed,
        );
        prove!(matches!(&made, Ok(()) | Err(RefError::NoMemory)));
        made.map_err(|_| NoMemory)
    }
}

/// Prepares and commits.
fn edit(
    refs: &mut Refs,
    edits: &[RefEdit],
    committer: &Signature,
    logging: bool,
    packed: PackedRefs,
) -> Result<(), RefError>
    ensures ok { OnOk result (refs.new ≡ after committer.now logging packed refs.old edits.now) }
    ensures refusal { MatchOption (refusal_of refs.old.names edits.now) (IfErr result (λ e. e ≡ errors.NoMemory))
        (λ e. IsErrAnd result (IsUnlessMemory e)) }
    ensures exact { IfSome (refusal_of refs.old.names edits.now) (λ e. tells_name e ≡ false → IsErrAnd result (λ found. found ≡ e)) }
    ensures err { OnErr result (refs.new ≡ refs.old) }
    ensures hash { refs.new.hash ≡ refs.old.hash }
{
    let prepared = refs.prepare(edits, committer, logging, packed)?;
    prepared.commit();
    Ok(())
}
