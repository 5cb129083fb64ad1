//! A refspec.

ghost use Rattle.std.specs.Prelude.{◌≡◌, ◌↔◌, ◌++◌, ◌∷◌, IfOk, IfErr, OnOk, IsOk, IsOkUnless, IsTrue, Ok, Err};
ghost use Rattle.std.specs.Option.{option_copied};
ghost use Rattle.fetch_specs.specs.Leads.{IsInOrder};
ghost use Rattle.fetch_specs.specs.Parses.{IsSpec, mark_of, parsed, printed, sides_text};
ghost use Rattle.fetch_specs.specs.Specs.{Spec};
ghost use Rattle.fetch_specs.specs.Views.{parts_spec};
ghost use Rattle.fetch_specs.specs.declared.error.SpecError.TheVariants as errors;
ghost use Rattle.fetch_specs.specs.declared.operation.Mode.TheVariants as modes;

use crate::error::SpecError;
use crate::operation::{Mode, Operation};
use crate::reading::{Parts, parts_of};
use fetch_base::{NoMemory, Text, TryClone};
use std::alloc::{AllocError, Global};
use std::marker::Model;

/// Which references go where. Contracts see it as the record of what it says.
#[derive(Debug, Drop, PartialEq, Eq, PartialOrd, Ord)]
pub struct RefSpec {
    operation: Operation,
    mode: Mode,
    source: Option<Text>,
    destination: Option<Text>,
}

impl Model for RefSpec {
    ghost use Rattle.fetch_specs.specs.Leads.{IsInOrder};
    ghost use Rattle.fetch_specs.specs.Parses.{IsSpec};
    ghost use Rattle.fetch_specs.specs.Specs.{Spec};

    ghost Value = { Spec };

    ghost view = { λ s. record { operation = s.operation; mode = s.mode; source = s.source; destination = s.destination } };

    ghost invariant = { λ s. IsSpec (record { operation = s.operation; mode = s.mode; source = s.source; destination = s.destination }) };

    ghost inverse = { λ s. record { operation = s.operation; mode = s.mode; source = s.source; destination = s.destination } };
}

/// Reads a refspec. A refusal tells what the text breaks, as `SpecError` says it; out of memory
/// comes for no text that is refused.
pub fn parse(alloc: Global, text: &[u8], operation: Operation) -> Result<RefSpec, SpecError>
    ensures spec { IfOk result (λ spec. parsed operation text.now ≡ Ok spec) }
    ensures refused { IfErr (parsed operation text.now) (λ e. result ≡ Err e) }
    ensures memory { IsOk (parsed operation text.now) → IsOkUnless result errors.NoMemory }
{
    let parts = parts_of(operation, text)?;
    Ok(owned(alloc, parts)?)
}

/// A refspec with copies of the sides.
fn owned(alloc: Global, parts: Parts<'_>) -> Result<RefSpec, NoMemory>
    requires { IsSpec (parts_spec parts) }
    ensures { IfOk result (λ spec. spec ≡ parts_spec parts.entry) }
{
    let source = owned_side(alloc, parts.source)?;
    let destination = owned_side(alloc, parts.destination)?;
    Ok(RefSpec {
        operation: parts.operation,
        mode: parts.mode,
        source,
        destination,
    })
}

fn owned_side(alloc: Global, side: Option<&[u8]>) -> Result<Option<Text>, NoMemory>
    ensures { IfOk result (λ text. text ≡ option_copied side.entry) }
{
    match side {
        Some(text) => Ok(Some(Text::new(alloc, text)?)),
        None => Ok(None),
    }
}

impl RefSpec {
    /// What the refspec is for.
    pub fn operation(&self) -> Operation
        ensures { result ≡ self.now.operation }
    {
        self.operation
    }

    /// What is taken, lent: a name, a pattern or an id. A refspec says what its own text says.
    pub fn source(&self) -> Option<&[u8]>
        ensures source { option_copied result ≡ self.now.source }
        ensures kept { IsSpec self.now }
    {
        side(&self.source)
    }

    /// Where it goes, lent.
    pub fn destination(&self) -> Option<&[u8]>
        ensures { option_copied result ≡ self.now.destination }
    {
        side(&self.destination)
    }

    /// Whether a destination may move to a commit that doesn't follow its own.
    pub fn allow_non_fast_forward(&self) -> bool
        ensures { IsTrue result ↔ (self.now.mode ≡ modes.Force) }
    {
        self.mode == Mode::Force
    }

    /// Whether the refspec takes names out.
    pub fn is_exclusion(&self) -> bool
        ensures { IsTrue result ↔ (self.now.mode ≡ modes.Exclusion) }
    {
        self.mode == Mode::Exclusion
    }

    /// The text of the refspec, which says the same again. The only error is out of memory.
    pub fn to_bstring(&self, alloc: Global) -> Result<Text, SpecError>
        ensures text { IfOk result (λ text. text ≡ printed self.now) }
        ensures again { IfOk result (λ text. parsed self.now.operation text ≡ Ok self.now) }
        ensures memory { IsOkUnless result errors.NoMemory }
    {
        let text = text_of(alloc, self.mode, self.source(), self.destination())?;
        Ok(Text::from(text))
    }

    /// An equal refspec.
    pub fn try_clone(&self) -> Result<RefSpec, NoMemory>
        ensures { IfOk result (λ copy. copy ≡ self.now) }
    {
        Ok(RefSpec {
            operation: self.operation,
            mode: self.mode,
            source: copied(&self.source)?,
            destination: copied(&self.destination)?,
        })
    }
}

impl TryClone for RefSpec {
    fn try_clone(&self) -> Result<RefSpec, NoMemory> {
        self.try_clone()
    }
}

fn mark(mode: Mode) -> &'static [u8]
    ensures { result.now ≡ mark_of mode }
{
    match mode {
        Mode::Normal => b"",
        Mode::Force => b"+",
        Mode::Exclusion => b"^",
    }
}

fn text_of(
    alloc: Global,
    mode: Mode,
    source: Option<&[u8]>,
    destination: Option<&[u8]>,
) -> Result<Vec<u8>, AllocError>
    ensures { IfOk result (λ text. text.items ≡ mark_of mode ++ sides_text (option_copied source.entry) (option_copied destination.entry)) }
{
    let mut text = Vec::from_slice(alloc, mark(mode))?;
    let Some(source) = source else {
        push_destination(&mut text, destination.unwrap_or(b""))?;
        return Ok(text);
    };
    text.extend_from_slice(source)?;
    if let Some(destination) = destination {
        push_destination(&mut text, destination)?;
    }
    Ok(text)
}

fn push_destination(text: &mut Vec<u8>, destination: &[u8]) -> Result<(), AllocError>
    ensures { OnOk result (text.new.items ≡ text.old.items ++ 58 ∷ destination.now) }
{
    text.push(b':')?;
    text.extend_from_slice(destination)?;
    Ok(())
}

fn side(text: &Option<Text>) -> Option<&[u8]>
    ensures { option_copied result ≡ text.now }
{
    match text {
        Some(text) => Some(text.as_bytes()),
        None => None,
    }
}

fn copied(text: &Option<Text>) -> Result<Option<Text>, NoMemory>
    ensures { IfOk result (λ copy. copy ≡ text.now) }
{
    match text {
        Some(text) => Ok(Some(text.try_clone()?)),
        None => Ok(None),
    }
}
