//! The refspecs that a listing is asked for and mapped by.

ghost use Rattle.std.specs.Prelude.{◌≡◌, [], ◌++◌, if◌then◌else◌, IfOk, OnOk};
ghost use Rattle.std.specs.List.{list_any};
ghost use Rattle.fetch_specs.specs.Prefixes.{prefixes_of};
ghost use Rattle.fetch_specs.specs.Tagged.{is_tag_spec};
ghost use Rattle.fetch_conversation.specs.ListStage.{with_tags};

use fetch_specs::{RefSpec, Tags, prefixes};
use fetch_store::{NoMemory, Text};
use std::alloc::Global;

fn append_specs(specs: &mut Vec<RefSpec>, others: &[RefSpec]) -> Result<(), NoMemory>
    ensures { OnOk result (specs.new.items ≡ specs.old.items ++ others.now) }
{
    for spec in others {
        specs.push(spec.try_clone()?)?;
    }
    Ok(())
}

/// Copies of these refspecs.
pub(crate) fn copied_specs(alloc: Global, specs: &[RefSpec]) -> Result<Vec<RefSpec>, NoMemory>
    ensures { IfOk result (λ copies. copies.items ≡ specs.now) }
{
    let mut copies = Vec::new(alloc);
    append_specs(&mut copies, specs)?;
    Ok(copies)
}

/// The refspecs of the remote, and the extra ones after them.
pub(crate) fn joined_specs(
    alloc: Global,
    own: &[RefSpec],
    extra: &[RefSpec],
) -> Result<Vec<RefSpec>, NoMemory>
    ensures { IfOk result (λ specs. specs.items ≡ own.now ++ extra.now) }
{
    let mut specs = copied_specs(alloc, own)?;
    append_specs(&mut specs, extra)?;
    Ok(specs)
}

fn any_takes_all_tags(specs: &[RefSpec]) -> bool
    ensures { result ≡ list_any is_tag_spec specs.now }
{
    specs.iter().any(|spec| spec.is_all_tags())
}

/// The extra refspecs, with that of the tags where tags are taken.
pub(crate) fn specs_with_tags(
    alloc: Global,
    tags: Tags,
    extra: &[RefSpec],
) -> Result<Vec<RefSpec>, NoMemory>
    ensures { IfOk result (λ specs. specs.items ≡ with_tags tags extra.now) }
{
    let mut specs = copied_specs(alloc, extra)?;
    match tags.to_refspec(alloc) {
        Ok(Some(spec)) => {
            if any_takes_all_tags(extra) {
                return Ok(specs);
            }
            specs.push(spec)?;
            Ok(specs)
        }
        Ok(None) => Ok(specs),
        Err(_) => Err(NoMemory),
    }
}

/// The prefixes that the listing is asked for: none where it isn't filtered.
pub(crate) fn prefixes_for(
    alloc: Global,
    filtered: bool,
    specs: &[RefSpec],
) -> Result<Vec<Text>, NoMemory>
    ensures { IfOk result (λ texts. texts.items ≡ if filtered then prefixes_of specs.now else []) }
{
    if !filtered {
        return Ok(Vec::new(alloc));
    }
    match prefixes(alloc, specs) {
        Ok(texts) => Ok(texts),
        Err(_) => Err(NoMemory),
    }
}
