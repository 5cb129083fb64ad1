//! What becomes of each mapping.

ghost use Rattle.std.specs.Prelude.{◌≡◌};
ghost use Rattle.fetch_base.specs.Answers.{AnswersBy};
ghost use Rattle.fetch_update.specs.Outcomes.{verdicts_from};
ghost use Rattle.fetch_update.specs.Policy.{is_memory, policy_of};

use crate::judge::Judge;
use crate::judging::judge_mapping;
use crate::update::Error;
use crate::verdict::Verdict;
use fetch_map::Mapping;
use fetch_specs::RefSpec;
use fetch_store::{NoMemory, Objects};

/// The verdicts of the mappings, each beside its index, or the first refusal. A mapping whose
/// refspec isn't found is passed over.
pub(crate) fn verdicts<O: Objects>(
    judge: &Judge<'_>,
    objects: &O,
    mappings: &[Mapping],
    refspecs: &[RefSpec],
    extra_refspecs: &[RefSpec],
) -> Result<Vec<(usize, Verdict)>, Error>
    ensures { AnswersBy (λ v. v.items) is_memory
        (verdicts_from (policy_of (O.graph objects.now) judge.now) refspecs.now extra_refspecs.now 0 mappings.now) result }
{
    let mut verdicts = Vec::new(judge.alloc);
    'mappings: for (index, mapping) in mappings.iter().enumerate() {
        if let Some(refspec) = mapping.spec_index.get(refspecs, extra_refspecs) {
            let verdict = judge_mapping(judge, objects, refspec, mapping)?;
            verdicts.push((index, verdict)).map_err(NoMemory::from)?;
        }
    }
    Ok(verdicts)
}
