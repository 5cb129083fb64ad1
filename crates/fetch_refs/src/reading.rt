//! Reading a packed text.

ghost use Rattle.std.specs.Prelude.{◌≡◌, ◌↔◌, ◌++◌, ◌∷◌, [], List, ℕ, Ok, Err, Some, None, IfOk, IfErr, IfSome, IsTrue, true, false};
ghost use Rattle.std.specs.Char.{is_ascii_uppercase};
ghost use Rattle.std.specs.List.{list_any};
ghost use Rattle.std.specs.Ordering.{is_lt};
ghost use Rattle.hex.specs.Hex.{encode_lower};
ghost use Rattle.fetch_specs.specs.Names.{is_full_name};
ghost use Rattle.fetch_base.specs.Id.{bytes_of, id_in_hex};
ghost use Rattle.fetch_base.specs.Lines.{IsWithout};
ghost use Rattle.fetch_base.specs.declared.id.ObjectId.{ObjectId};
ghost use Rattle.fetch_refs.specs.Names.{RefsValue, name_cmp};
ghost use Rattle.fetch_refs.specs.Packed.{packed_line};
ghost use Rattle.fetch_refs.specs.Reading.{AnswersWhere, IsEntry, IsNoLineAt, IsOutOfOrderAt, IsReadAs, IsRefusedAs};
ghost use Rattle.fetch_refs.specs.ReadSteps as steps;
ghost use Rattle.fetch_refs.specs.ReadSteps.{AreRead};
ghost use Rattle.fetch_refs.specs.declared.error.PackedError.TheVariants as errors;
ghost use Rattle.fetch_refs.specs.declared.slot.Slot.{Slot};

use crate::contents::Contents;
use crate::copies::add;
use crate::error::PackedError;
use crate::refs::Refs;
use crate::slot::Slot;
use crate::target::Target;
use fetch_specs::{FullName, NameError};
use fetch_store::{Kind, ObjectId, Text, split_first};
use std::alloc::Global;
use std::collections::BTreeMap;

impl Refs {
    /// Reads the text of a packed list, in a repository of this hash. The references are those of
    /// the list, and there are no reflogs.
    ///
    /// `Line` is the start of the first line that isn't an id of the hash in lower-case hex, a
    /// space, a full name and a line feed; `Order` is the start of the first line whose name isn't
    /// above the one before. The earlier place is told. Out of memory comes of a packed text alone.
    pub fn read_packed(alloc: Global, kind: Kind, text: &[u8]) -> Result<Refs, PackedError>
        ensures ok { (refs : RefsValue) → AnswersWhere result (Ok refs) (IsReadAs kind text.now refs) }
        ensures line { (place : ℕ) → (result ≡ Err (errors.Line place)) ↔ IsNoLineAt kind text.now place }
        ensures order { (place : ℕ) → (result ≡ Err (errors.Order place)) ↔ IsOutOfOrderAt kind text.now place }
    {
        let names = read_places(alloc, kind, text)?;
        let text = Text::new(alloc, text)?;
        let contents = Contents {
            alloc,
            hash: kind,
            names,
            logs: BTreeMap::new(alloc),
        };
        Ok(Refs { contents, text })
    }
}

/// A line of a packed text, cut into its parts.
#[derive(Clone, Copy)]
struct PackedLine<'a> {
    id: ObjectId,
    name: &'a [u8],
    /// What stands after the line.
    rest: &'a [u8],
}

/// The places of the names. Out of memory comes of a packed text alone.
fn read_places(
    alloc: Global,
    kind: Kind,
    text: &[u8],
) -> Result<BTreeMap<FullName, Slot>, PackedError>
    ensures ok { IfOk result (λ names. AreRead kind text.now names.entries) }
    ensures refused { IfErr result (λ e. IsRefusedAs kind text.now e) }
{
    match read_lines(alloc, kind, text) {
        Ok(names) => Ok(names),
        Err(PackedError::Line { place }) => Err(PackedError::Line { place }),
        Err(PackedError::Order { place }) => Err(PackedError::Order { place }),
        Err(PackedError::NoMemory) => Err(first_refused(kind, text)),
    }
}

/// The first line that is refused, or out of memory where none is. This takes no memory.
fn first_refused(kind: Kind, text: &[u8]) -> PackedError
    ensures { IsRefusedAs kind text.now result }
{
    let mut last: &[u8] = b"";
    let mut rest = text;
    'lines: while !rest.is_empty() {
        let place = text.len() - rest.len();
        let Some(line) = first_line(kind, rest) else {
            return PackedError::Line { place };
        };
        if !FullName::is_valid(line.name) {
            return PackedError::Line { place };
        }
        if !comes_after(last, line.name) {
            return PackedError::Order { place };
        }
        last = line.name;
        rest = line.rest;
    }
    PackedError::NoMemory
}

/// Whether a name is above the last one.
fn comes_after(last: &[u8], name: &[u8]) -> bool
    ensures { result ≡ is_lt (name_cmp last.now name.now) }
{
    last.cmp(name).is_lt()
}

/// The places of the names, line by line.
fn read_lines(
    alloc: Global,
    kind: Kind,
    text: &[u8],
) -> Result<BTreeMap<FullName, Slot>, PackedError>
    ensures ok { IfOk result (λ names. AreRead kind text.now names.entries) }
    ensures line { (place : ℕ) → result ≡ Err (errors.Line place) → IsNoLineAt kind text.now place }
    ensures order { (place : ℕ) → result ≡ Err (errors.Order place) → IsOutOfOrderAt kind text.now place }
{
    let mut names = BTreeMap::new(alloc);
    let mut rest = text;
    'lines: while !rest.is_empty() {
        let place = text.len() - rest.len();
        let Some(line) = first_line(kind, rest) else {
            return Err(PackedError::Line { place });
        };
        let name = name_at(alloc, place, line.name)?;
        if !is_above(&names, &name) {
            return Err(PackedError::Order { place });
        }
        add(&mut names, name, direct_slot(line.id))?;
        rest = line.rest;
    }
    Ok(names)
}

/// The line at the front of a text, whose name isn't tested yet.
fn first_line(kind: Kind, text: &[u8]) -> Option<PackedLine<'_>>
    ensures line { IfSome result (λ line. text.now ≡ packed_line (line.name.now, line.id) ++ line.rest.now) }
    ensures id { IfSome result (λ line. id_in_hex kind (encode_lower (bytes_of line.id)) ≡ Some line.id) }
    ensures name { IfSome result (λ line. IsWithout 10 line.name.now) }
    ensures none { result ≡ None → (e : List ℕ × ObjectId) (more : List ℕ) → IsEntry kind e → text.now ≡ packed_line e ++ more → ⊥ }
{
    let (digits, behind) = split_first(b' ', text)?;
    let id = id_in_lower(kind, digits)?;
    let (name, rest) = split_first(b'\n', behind)?;
    Some(PackedLine { id, name, rest })
}

/// The id that digits of lower case spell.
fn id_in_lower(kind: Kind, digits: &[u8]) -> Option<ObjectId>
    ensures written { IfSome result (λ id. digits.now ≡ encode_lower (bytes_of id)) }
    ensures spelled { IfSome result (λ id. id_in_hex kind digits.now ≡ Some id) }
    ensures none { result ≡ None → (id : ObjectId) → digits.now ≡ encode_lower (bytes_of id) → id_in_hex kind digits.now ≡ Some id → ⊥ }
{
    if has_capital(digits) {
        return None;
    }
    ObjectId::in_hex(kind, digits)
}

fn has_capital(digits: &[u8]) -> bool
    ensures { result ≡ list_any is_ascii_uppercase digits.now }
{
    digits.iter().any(|c| c.is_ascii_uppercase())
}

/// The name in the line at a place.
fn name_at(alloc: Global, place: usize, text: &[u8]) -> Result<FullName, PackedError>
    ensures name { IfOk result (λ name. (name ≡ text.now) × IsTrue (is_full_name text.now)) }
    ensures line { (at : ℕ) → result ≡ Err (errors.Line at) → (at ≡ place) × (is_full_name text.now ≡ false) }
    ensures order { (at : ℕ) → result ≡ Err (errors.Order at) → ⊥ }
{
    match FullName::new(alloc, text) {
        Ok(name) => Ok(name),
        Err(NameError::Invalid { .. }) => Err(PackedError::Line { place }),
        Err(NameError::NoMemory) => Err(PackedError::NoMemory),
    }
}

/// Whether a name is above the last one.
fn is_above(names: &BTreeMap<FullName, Slot>, name: &FullName) -> bool
    ensures first { names.now.entries ≡ [] → IsTrue result }
    ensures last { (others : List (List ℕ × Slot)) (last : List ℕ × Slot) → names.now.entries ≡ others ++ last ∷ []
        → result ≡ is_lt (name_cmp last.0 name.now) }
{
    match names.last_key_value() {
        Some((last, _)) => last < name,
        None => true,
    }
}

/// The place of a direct reference that the packed list has.
fn direct_slot(id: ObjectId) -> Slot
    ensures { result ≡ steps.direct_slot id }
{
    Slot {
        value: Some(Target::Object(id)),
        packed: Some(id),
    }
}
