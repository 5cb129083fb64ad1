//! The edits and updates that verdicts give together.

ghost use Rattle.std.specs.Prelude.{◌≡◌, ◌+◌, ◌++◌, ℕ, List as Items, map, IfOk, OnOk, vec_len, option_map, option_to_list, is_some};
ghost use Rattle.std.specs.Prelude.{if◌then◌else◌};
ghost use Rattle.std.specs.List.{list_any};
ghost use Rattle.std.specs.Str.{bytes_eq};
ghost use Rattle.std.specs.BTreeSet.{contains};
ghost use Rattle.fetch_refs.specs.Names.{name_cmp};
ghost use Rattle.fetch_refs.specs.declared.edit.RefEdit.{RefEdit};
ghost use Rattle.fetch_update.specs.Outcomes as spec;
ghost use Rattle.fetch_update.specs.Outcomes.{edits_of, outcome_in, adjusted_verdicts};

use crate::mode::Mode;
use crate::update::{Outcome, Update};
use crate::verdict::Verdict;
use fetch_refs::{Change, LogChange, PreviousValue, RefEdit, Refs, Target};
use fetch_specs::FullName;
use fetch_store::{List, NoMemory, Text};
use std::alloc::Global;
use std::collections::BTreeSet;

pub(crate) fn adjusted_outcome(
    alloc: Global,
    refs: &Refs,
    verdicts: Vec<(usize, Verdict)>,
) -> Result<Outcome, NoMemory>
    ensures { IfOk result (λ outcome. outcome ≡ outcome_in (adjusted_verdicts refs.now.names verdicts.items)) }
{
    let names = names_of(alloc, verdicts.as_slice())?;
    let adjusted_verdicts = adjust_all(alloc, refs, &names, verdicts)?;
    number(alloc, adjusted_verdicts)
}

/// The names of the edits.
fn names_of(alloc: Global, verdicts: &[(usize, Verdict)]) -> Result<BTreeSet<FullName>, NoMemory>
    ensures { IfOk result (λ names. (name : Items ℕ)
        → contains name_cmp names name ≡ list_any (λ e. bytes_eq e.name name) (edits_of verdicts.now)) }
{
    let mut names = BTreeSet::new(alloc);
    'verdicts: for (_, verdict) in verdicts {
        if let Some(edit) = &verdict.edit {
            names.insert(edit.name.try_clone()?)?;
        }
    }
    Ok(names)
}

fn adjust_all(
    alloc: Global,
    refs: &Refs,
    names: &BTreeSet<FullName>,
    verdicts: Vec<(usize, Verdict)>,
) -> Result<Vec<(usize, Verdict)>, NoMemory>
    ensures { IfOk result (λ out. (edits : Items RefEdit)
        → ((name : Items ℕ) → contains name_cmp names.now name ≡ list_any (λ e. bytes_eq e.name name) edits)
        → out.items ≡ map (λ v. (v.0, spec.adjusted refs.now.names edits v.1 v.1.edit)) verdicts.items) }
{
    let mut out = Vec::with_capacity(alloc, verdicts.len())?;
    'verdicts: for (index, verdict) in verdicts {
        let verdict = adjust(alloc, refs, names, verdict)?;
        out.push((index, verdict))?;
    }
    Ok(out)
}

/// The edits in order, and the updates that name them.
fn number(alloc: Global, verdicts: Vec<(usize, Verdict)>) -> Result<Outcome, NoMemory>
    ensures { IfOk result (λ outcome. outcome ≡ outcome_in verdicts.items) }
{
    let mut edits = Vec::new(alloc);
    let mut updates = Vec::with_capacity(alloc, verdicts.len())?;
    'verdicts: for (mapping_index, verdict) in verdicts {
        let Verdict {
            mode,
            type_change,
            edit,
        } = verdict;
        let edit_index = add(&mut edits, edit)?;
        updates.push(Update {
            mode,
            type_change,
            edit_index,
            mapping_index,
        })?;
    }
    Ok(Outcome {
        edits: List::from(edits),
        updates: List::from(updates),
    })
}

/// Puts an edit after the others, and tells its index.
fn add(edits: &mut Vec<RefEdit>, edit: Option<RefEdit>) -> Result<Option<usize>, NoMemory>
    ensures index { IfOk result (λ index. index ≡ option_map (λ _. vec_len edits.old) edit) }
    ensures edits { OnOk result (edits.new.items ≡ edits.old.items ++ option_to_list edit) }
    ensures len { OnOk result (vec_len edits.new ≡ (if is_some edit then vec_len edits.old + 1 else vec_len edits.old)) }
{
    match edit {
        Some(edit) => {
            let index = edits.len();
            edits.push(edit)?;
            Ok(Some(index))
        }
        None => Ok(None),
    }
}

fn adjust(
    alloc: Global,
    refs: &Refs,
    names: &BTreeSet<FullName>,
    verdict: Verdict,
) -> Result<Verdict, NoMemory>
    ensures { IfOk result (λ out. (edits : Items RefEdit)
        → ((name : Items ℕ) → contains name_cmp names.now name ≡ list_any (λ e. bytes_eq e.name name) edits)
        → out ≡ spec.adjusted refs.now.names edits verdict verdict.edit) }
{
    let Verdict {
        mode,
        type_change,
        edit,
    } = verdict;
    let Some(edit) = edit else {
        return Ok(Verdict {
            mode,
            type_change,
            edit: None,
        });
    };
    if is_kept(refs, names, &edit.change) {
        return keep(alloc, edit);
    }
    Ok(Verdict {
        mode,
        type_change,
        edit: Some(edit),
    })
}

/// Whether a change is of an unborn reference that keeps its target.
fn is_kept(refs: &Refs, names: &BTreeSet<FullName>, change: &Change) -> bool
    ensures { (edits : Items RefEdit) → ((name : Items ℕ) → contains name_cmp names.now name ≡ list_any (λ e. bytes_eq e.name name) edits)
        → result ≡ spec.is_kept refs.now.names edits change.now }
{
    match change {
        Change::Update {
            log: _,
            expected: PreviousValue::MustExistAndMatch(Target::Symbolic(found)),
            new: Target::Symbolic(wanted),
        } => keeps_target(refs, names, found, wanted),
        _ => false,
    }
}

/// Whether an unborn reference keeps its target.
fn keeps_target(
    refs: &Refs,
    names: &BTreeSet<FullName>,
    found: &FullName,
    wanted: &FullName,
) -> bool
    ensures { (edits : Items RefEdit) → ((name : Items ℕ) → contains name_cmp names.now name ≡ list_any (λ e. bytes_eq e.name name) edits)
        → result ≡ spec.keeps_target refs.now.names edits found.now wanted.now }
{
    if *found == *wanted {
        return false;
    }
    if refs.find(found).is_none() {
        return false;
    }
    if refs.find(wanted).is_some() {
        return false;
    }
    !names.contains(wanted)
}

/// A rejection that writes the value found.
fn keep(alloc: Global, edit: RefEdit) -> Result<Verdict, NoMemory>
    ensures { IfOk result (λ verdict. verdict ≡ spec.kept edit) }
{
    let RefEdit { change, name } = edit;
    let change = no_op_change(alloc, change)?;
    Ok(Verdict {
        mode: Mode::RejectedToReplaceWithUnborn,
        type_change: None,
        edit: Some(RefEdit { change, name }),
    })
}

fn no_op_change(alloc: Global, change: Change) -> Result<Change, NoMemory>
    ensures { IfOk result (λ out. out ≡ spec.no_op_change change) }
{
    match change {
        Change::Update { log, expected, new } => no_op_write(alloc, log, expected, new),
        Change::Delete { expected, log } => Ok(Change::Delete { expected, log }),
    }
}

fn no_op_write(
    alloc: Global,
    log: LogChange,
    expected: PreviousValue,
    new: Target,
) -> Result<Change, NoMemory>
    ensures { IfOk result (λ out. out ≡ spec.no_op_write log expected new) }
{
    match expected {
        PreviousValue::MustExistAndMatch(found) => {
            let new = found.try_clone()?;
            let log = no_op_log(alloc, log)?;
            Ok(Change::Update {
                log,
                expected: PreviousValue::MustExistAndMatch(found),
                new,
            })
        }
        expected => Ok(Change::Update { log, expected, new }),
    }
}

#[tactic(auto, unfolding(crate::specs::Outcomes::no_op))]
fn no_op_log(alloc: Global, log: LogChange) -> Result<LogChange, NoMemory>
    ensures { IfOk result (λ out. out ≡ record log { message = spec.no_op }) }
{
    let LogChange {
        mode,
        force_create_reflog,
        message: _,
    } = log;
    Ok(LogChange {
        mode,
        force_create_reflog,
        message: Text::new(alloc, b"no-op")?,
    })
}
