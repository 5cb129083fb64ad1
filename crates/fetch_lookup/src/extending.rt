//! Refspecs of a remote that are replaced, and those that are added.

ghost use Rattle.std.specs.Prelude.{◌≡◌, IfOk, OnOk, OnErr};
ghost use Rattle.fetch_specs.specs.Parses.{parsed};
ghost use Rattle.fetch_base.specs.Answers.{AnswersBy};
ghost use Rattle.fetch_lookup.specs.Extended as spec;
ghost use Rattle.fetch_lookup.specs.Ordered.{ascending, is_among};
ghost use Rattle.fetch_lookup.specs.Remotes.{operation_of};
ghost use Rattle.fetch_lookup.specs.Results.{all_of};
ghost use Rattle.fetch_lookup.specs.SpecOrder.{is_spec_memory, spec_cmp};

use crate::direction::Direction;
use crate::refspecs::{parse_all, place};
use crate::remote::operation_of;
use fetch_base::{List, NoMemory, Text};
use fetch_specs::{RefSpec, SpecError};
use std::alloc::Global;
use std::collections::BTreeSet;

/// Other refspecs in place of a remote's: those that the texts say, all of them or none. The first text that says
/// none is told.
pub fn replace_refspecs(
    alloc: Global,
    specs: &mut List<RefSpec>,
    texts: &[Text],
    direction: Direction,
) -> Result<(), SpecError>
    ensures answer { AnswersBy (λ _. specs.new) is_spec_memory (all_of (parsed (operation_of direction)) texts.now) result }
    ensures err { OnErr result (specs.new ≡ specs.old) }
{
    match parse_all(alloc, texts, operation_of(direction)) {
        Ok(parsed) => {
            *specs = List::from(parsed);
            Ok(())
        }
        Err(e) => Err(e),
    }
}

/// More refspecs for a remote: those that the texts say and that aren't there yet, at the end, in order; all of them
/// or none. The first text that says none is told.
pub fn with_refspecs(
    alloc: Global,
    specs: &mut List<RefSpec>,
    texts: &[Text],
    direction: Direction,
) -> Result<(), SpecError>
    ensures answer { AnswersBy (λ _. specs.new) is_spec_memory
        (spec.with_all specs.old (all_of (parsed (operation_of direction)) texts.now)) result }
    ensures err { OnErr result (specs.new ≡ specs.old) }
{
    match parse_all(alloc, texts, operation_of(direction)) {
        Ok(parsed) => {
            *specs = extended(alloc, specs.as_slice(), parsed.as_slice())?;
            Ok(())
        }
        Err(e) => Err(e),
    }
}

fn extended(alloc: Global, there: &[RefSpec], added: &[RefSpec]) -> Result<List<RefSpec>, NoMemory>
    ensures { IfOk result (λ all. all ≡ spec.extended there.now added.now) }
{
    let mut all = copied(alloc, there)?;
    let mut known = set_of(alloc, there)?;
    for spec in added {
        add_new(&mut all, &mut known, spec)?;
    }
    Ok(List::from(all))
}

fn copied(alloc: Global, specs: &[RefSpec]) -> Result<Vec<RefSpec>, NoMemory>
    ensures { IfOk result (λ copy. copy.items ≡ specs.now) }
{
    let mut copy = Vec::with_capacity(alloc, specs.len())?;
    for spec in specs {
        copy.push(spec.try_clone()?)?;
    }
    Ok(copy)
}

#[tactic(auto, unfolding(crate::specs::Ordered::placed))]
fn set_of(alloc: Global, specs: &[RefSpec]) -> Result<BTreeSet<RefSpec>, NoMemory>
    ensures { IfOk result (λ set. set.keys ≡ ascending spec_cmp specs.now) }
{
    let mut set = BTreeSet::new(alloc);
    for spec in specs {
        place(&mut set, spec.try_clone()?)?;
    }
    Ok(set)
}

/// A refspec at the end, unless it is there.
fn add_new(
    all: &mut Vec<RefSpec>,
    known: &mut BTreeSet<RefSpec>,
    refspec: &RefSpec,
) -> Result<(), NoMemory>
    requires { known.old.keys ≡ ascending spec_cmp all.old.items }
    ensures all { OnOk result (all.new.items ≡ spec.one_more all.old.items refspec.now) }
    ensures known { OnOk result (known.new.keys ≡ ascending spec_cmp all.new.items) }
{
    if is_known(known, refspec) {
        return Ok(());
    }
    place(known, refspec.try_clone()?)?;
    all.push(refspec.try_clone()?)?;
    Ok(())
}

fn is_known(known: &BTreeSet<RefSpec>, spec: &RefSpec) -> bool
    ensures { result ≡ is_among spec_cmp known.now.keys spec.now }
{
    known.contains(spec)
}
