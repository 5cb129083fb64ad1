//! Reading a refspec.

ghost use Rattle.std.specs.Prelude.{◌≡◌, ◌==◌, ◌+◌, ◌^◌, ◌<◌, ◌≤◌, None, IfSome, is_some, length, MatchResult, IfOk, IsOkUnless, Err};
ghost use Rattle.std.specs.Prelude.{position};
ghost use Rattle.std.specs.Option.{option_copied};
ghost use Rattle.fetch_specs.specs.Parses as spec;
ghost use Rattle.fetch_specs.specs.Parses.{parsed};
ghost use Rattle.fetch_specs.specs.Views.{parts_seen};
ghost use Rattle.fetch_specs.specs.declared.error.SpecError.TheVariants as errors;

use crate::error::SpecError;
use crate::grammar::name_trouble;
use crate::operation::{Mode, Operation};
use fetch_base::{Kind, ObjectId};

/// The sides of a refspec, lent from its text.
#[derive(Clone, Copy, Debug)]
pub(crate) struct Parts<'a> {
    /// What the refspec is for.
    pub operation: Operation,
    /// How it applies.
    pub mode: Mode,
    /// The side before the colon, where there is one.
    pub source: Option<&'a [u8]>,
    /// The side after the colon, where there is one.
    pub destination: Option<&'a [u8]>,
}

/// What a text says.
#[tactic(auto, unfolding(crate::specs::Parses::parsed))]
pub(crate) fn parts_of(operation: Operation, text: &[u8]) -> Result<Parts<'_>, SpecError>
    ensures { parts_seen result ≡ parsed operation text.now }
{
    if is_blank(operation, text) {
        return Err(SpecError::Empty);
    }
    match text {
        [b'^', body @ ..] => excluded(operation, body),
        [b'+', body @ ..] => divided(operation, Mode::Force, 1, body),
        _ => divided(operation, Mode::Normal, 0, text),
    }
}

fn is_blank(operation: Operation, text: &[u8]) -> bool
    ensures { result ≡ spec.is_blank operation text.now }
{
    match operation {
        Operation::Push => text == b"^".as_slice()
            || text == b"".as_slice()
            || text == b"+".as_slice(),
        Operation::Fetch => text == b"^".as_slice(),
    }
}

fn excluded(operation: Operation, body: &[u8]) -> Result<Parts<'_>, SpecError>
    ensures { parts_seen result ≡ spec.excluded operation body.now }
{
    if body.contains(&b':') {
        return Err(SpecError::NegativeWithDestination);
    }
    if id_named(body).is_some() {
        return Err(SpecError::NegativeObjectHash);
    }
    sides(operation, Mode::Exclusion, 1, body, 1 + body.len(), b"")
}

fn divided(
    operation: Operation,
    mode: Mode,
    mark: usize,
    body: &[u8],
) -> Result<Parts<'_>, SpecError>
    requires { mark ≤ 1 }
    ensures { parts_seen result ≡ spec.divided operation mode mark body.now }
{
    match colon(body) {
        Some(i) => sides(
            operation,
            mode,
            mark,
            &body[..i],
            mark + i + 1,
            &body[i + 1..],
        ),
        None => sides(operation, mode, mark, body, mark + body.len(), b""),
    }
}

fn colon(body: &[u8]) -> Option<usize>
    ensures place { result ≡ position (λ b. b == 58) body.now }
    ensures within { IfSome result (λ i. i < length body.now) }
{
    body.iter().position(|b| *b == b':')
}

fn sides<'a>(
    operation: Operation,
    mode: Mode,
    mark: usize,
    source: &'a [u8],
    at: usize,
    destination: &'a [u8],
) -> Result<Parts<'a>, SpecError>
    requires marked { mark ≤ 1 }
    requires behind { at + length destination.now < 2 ^ 64 }
    ensures { parts_seen result ≡ spec.sides operation mode mark source.now at destination.now }
{
    let source = source_of(operation, source);
    let destination = side_of(destination);
    if stars(source) > 1 || stars(destination) > 1 {
        return Err(SpecError::PatternUnsupported);
    }
    if is_unbalanced(source, destination) {
        return Err(SpecError::PatternUnbalanced);
    }
    if let Some(place) = source_trouble(source) {
        return Err(SpecError::InvalidName {
            place: mark + place,
        });
    }
    if let Some(place) = destination_trouble(destination) {
        return Err(SpecError::InvalidName { place: at + place });
    }
    Ok(Parts {
        operation,
        mode,
        source,
        destination,
    })
}

#[tactic(auto, unfolding(crate::specs::Parses::head))]
fn source_of(operation: Operation, source: &[u8]) -> Option<&[u8]>
    ensures { option_copied result ≡ spec.source_of operation source.now }
{
    if source.is_empty() {
        return match operation {
            Operation::Fetch => Some(b"HEAD"),
            Operation::Push => None,
        };
    }
    if source == b"@".as_slice() {
        Some(b"HEAD")
    } else {
        Some(source)
    }
}

fn side_of(side: &[u8]) -> Option<&[u8]>
    ensures value { option_copied result ≡ spec.side_of side.now }
    ensures same { IfSome result (λ text. text.now ≡ side.now) }
{
    if side.is_empty() { None } else { Some(side) }
}

fn stars(side: Option<&[u8]>) -> usize
    ensures { result ≡ spec.stars (option_copied side.entry) }
{
    match side {
        Some(text) => text.iter().filter(|b| **b == b'*').count(),
        None => 0,
    }
}

fn is_unbalanced(source: Option<&[u8]>, destination: Option<&[u8]>) -> bool
    ensures { result ≡ spec.is_unbalanced (option_copied source.entry) (option_copied destination.entry) }
{
    if source.is_some() && destination.is_some() {
        stars(source) != stars(destination)
    } else {
        false
    }
}

fn source_trouble(source: Option<&[u8]>) -> Option<usize>
    ensures place { result ≡ spec.source_trouble (option_copied source.entry) }
    ensures small { IfSome result (λ place. place + 1 < 2 ^ 64) }
{
    match source {
        Some(text) => {
            if id_named(text).is_some() {
                None
            } else {
                name_trouble(true, text)
            }
        }
        None => None,
    }
}

fn destination_trouble(destination: Option<&[u8]>) -> Option<usize>
    ensures place { result ≡ spec.destination_trouble (option_copied destination.entry) }
    ensures within { IfSome (option_copied destination.entry) (λ text. IfSome result (λ place. place ≤ length text)) }
    ensures none { option_copied destination.entry ≡ None → result ≡ None }
{
    match destination {
        Some(text) => name_trouble(true, text),
        None => None,
    }
}

/// The id that 40 or 64 hex digits spell.
#[tactic(auto, unfolding(crate::specs::Parses::id_named))]
pub(crate) fn id_named(text: &[u8]) -> Option<ObjectId>
    ensures { result ≡ spec.id_named text.now }
{
    match ObjectId::in_hex(Kind::Sha1, text) {
        Some(id) => Some(id),
        None => ObjectId::in_hex(Kind::Sha256, text),
    }
}
