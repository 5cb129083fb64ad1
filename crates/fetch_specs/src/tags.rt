//! Which tags a fetch brings.

ghost use Rattle.std.specs.Prelude.{◌≡◌, ◌↔◌, IfOk, IsOkUnless, IsTrue};
ghost use Rattle.std.specs.Option.{option_copied};
ghost use Rattle.fetch_specs.specs.Specs.{Spec};
ghost use Rattle.fetch_specs.specs.Tagged as spec;
ghost use Rattle.fetch_specs.specs.Tagged.{is_tag_spec, tag_spec, tag_spec_of};
ghost use Rattle.fetch_specs.specs.declared.error.SpecError.TheVariants as errors;

use crate::error::SpecError;
use crate::operation::Operation;
use crate::spec::{RefSpec, parse};
use std::alloc::Global;

/// Which tags a fetch brings.
#[derive(Clone, Copy, Debug, PartialEq, Eq)]
pub enum Tags {
    /// All tags of the remote.
    All,
    /// The tags that point into the history that is fetched.
    Included,
    /// None but those that a refspec names.
    None,
}

impl Default for Tags {
    ghost use Rattle.std.specs.Prelude.{◌≡◌};
    ghost use Rattle.fetch_specs.specs.declared.tags.Tags.TheVariants.{Included};

    ghost is_default = { λ tags. tags ≡ Included };

    fn default() -> Tags {
        Tags::Included
    }
}

impl Tags {
    /// The refspec that brings all tags, where tags are to come: those that a fetch doesn't need are
    /// left out later. The only error is out of memory.
    pub fn to_refspec(self, alloc: Global) -> Result<Option<RefSpec>, SpecError>
        ensures spec { IfOk result (λ spec. spec ≡ tag_spec_of self) }
        ensures memory { IsOkUnless result errors.NoMemory }
    {
        match self {
            Tags::All | Tags::Included => Ok(Some(tag_spec(alloc)?)),
            Tags::None => Ok(None),
        }
    }
}

fn tag_spec(alloc: Global) -> Result<RefSpec, SpecError>
    ensures spec { IfOk result (λ found. found ≡ tag_spec) }
    ensures memory { IsOkUnless result errors.NoMemory }
{
    parse(alloc, b"refs/tags/*:refs/tags/*", Operation::Fetch)
}

impl RefSpec {
    /// Whether this is the refspec that brings all tags.
    pub fn is_all_tags(&self) -> bool
        ensures { result ≡ is_tag_spec self.now }
    {
        is_fetch(self.operation())
            && is_normal(self)
            && is_all_tags(self.source())
            && is_all_tags(self.destination())
    }
}

fn is_fetch(operation: Operation) -> bool
    ensures { result ≡ spec.is_fetch operation }
{
    match operation {
        Operation::Fetch => true,
        Operation::Push => false,
    }
}

fn is_normal(refspec: &RefSpec) -> bool
    ensures { result ≡ spec.is_normal refspec.now.mode }
{
    !refspec.is_exclusion() && !refspec.allow_non_fast_forward()
}

#[tactic(auto, unfolding(crate::specs::Tagged::all_tags))]
fn is_all_tags(side: Option<&[u8]>) -> bool
    ensures { result ≡ spec.is_all_tags (option_copied side.entry) }
{
    match side {
        Some(text) => text == b"refs/tags/*".as_slice(),
        None => false,
    }
}
