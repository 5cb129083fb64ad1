//! Refspecs that texts say, in order.

ghost use Rattle.std.specs.Prelude.{◌≡◌, IfOk, OnOk};
ghost use Rattle.std.specs.BTreeSet.{insert_key};
ghost use Rattle.fetch_specs.specs.Parses.{parsed};
ghost use Rattle.fetch_base.specs.Answers.{AnswersBy, AnswersUnless};
ghost use Rattle.fetch_lookup.specs.Ordered.{ascending};
ghost use Rattle.fetch_lookup.specs.Results.{all_of};
ghost use Rattle.fetch_lookup.specs.SpecOrder.{is_spec_memory, spec_cmp};

use fetch_base::{List, NoMemory, Text};
use fetch_specs::{Operation, RefSpec, SpecError, parse};
use std::alloc::Global;
use std::collections::BTreeSet;

/// The refspecs that the texts say, in order. The first text that says none is told.
pub(crate) fn parse_all(
    alloc: Global,
    texts: &[Text],
    operation: Operation,
) -> Result<Vec<RefSpec>, SpecError>
    ensures { AnswersBy (λ specs. specs.items) is_spec_memory (all_of (parsed operation) texts.now) result }
{
    let mut specs = Vec::with_capacity(alloc, texts.len())?;
    for text in texts {
        specs.push(parse_one(alloc, text, operation)?)?;
    }
    Ok(specs)
}

fn parse_one(alloc: Global, text: &Text, operation: Operation) -> Result<RefSpec, SpecError>
    ensures { AnswersUnless is_spec_memory (parsed operation text.now) result }
{
    parse(alloc, text.as_bytes(), operation)
}

/// The refspecs in ascending order, each once.
#[tactic(auto, unfolding(crate::specs::Ordered::placed))]
pub(crate) fn in_order(alloc: Global, specs: Vec<RefSpec>) -> Result<List<RefSpec>, NoMemory>
    ensures { IfOk result (λ list. list ≡ ascending spec_cmp specs.items) }
{
    let mut set = BTreeSet::new(alloc);
    for spec in specs {
        place(&mut set, spec)?;
    }
    list(alloc, set)
}

pub(crate) fn place(set: &mut BTreeSet<RefSpec>, spec: RefSpec) -> Result<(), NoMemory>
    ensures { OnOk result (set.new.keys ≡ insert_key spec_cmp set.old.keys spec) }
{
    set.insert(spec)?;
    Ok(())
}

fn list(alloc: Global, set: BTreeSet<RefSpec>) -> Result<List<RefSpec>, NoMemory>
    ensures { IfOk result (λ list. list ≡ set.keys) }
{
    let mut specs = Vec::with_capacity(alloc, set.len())?;
    for spec in set {
        specs.push(spec)?;
    }
    Ok(List::from(specs))
}
