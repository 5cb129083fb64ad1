//! The references of a scene.

ghost use Rattle.std.specs.Prelude.{◌≡◌, ◌++◌, ◌∷◌, [], if◌then◌else◌, not, Some, None, IfOk, OnOk};
ghost use Rattle.std.specs.Option.{option_map};
ghost use Rattle.fetch_scene.specs.Gives.{Gives};
ghost use Rattle.fetch_scene.specs.LineKinds.{symbolic_in, object_in, target_in, reference_in, reference_of};
ghost use Rattle.fetch_scene.specs.SceneRefs as spec;

use crate::fault::SceneFault;
use crate::lines::{Lines, Placed};
use crate::names::full_name;
use fetch_refs::Target;
use fetch_specs::FullName;
use fetch_store::{Distinct, Keyed, Kind, List, NoMemory, ObjectId, split_first};
use std::alloc::Global;

/// A reference of a scene.
#[derive(Debug, Drop)]
pub struct Reference {
    /// Its name.
    pub name: FullName,
    /// What it points to.
    pub target: Target,
}

impl Reference {
    /// An equal reference.
    pub fn try_clone(&self) -> Result<Reference, NoMemory>
        ensures { IfOk result (λ copy. copy ≡ self.now) }
    {
        Ok(Reference {
            name: self.name.try_clone()?,
            target: self.target.try_clone()?,
        })
    }
}

#[tactic(auto, unfolding(crate::specs::LineKinds::target_in))]
fn target(alloc: Global, hash: Kind, text: &[u8]) -> Result<Option<Target>, NoMemory>
    ensures { IfOk result (λ found. found ≡ target_in hash text.now) }
{
    match text {
        [] => Ok(None),
        [b'@', name @ ..] => symbolic(alloc, name),
        _ => Ok(object(hash, text)),
    }
}

fn symbolic(alloc: Global, name: &[u8]) -> Result<Option<Target>, NoMemory>
    ensures { IfOk result (λ found. found ≡ symbolic_in name.now) }
{
    match full_name(alloc, name)? {
        Some(name) => Ok(Some(Target::Symbolic(name))),
        None => Ok(None),
    }
}

fn object(hash: Kind, digits: &[u8]) -> Option<Target>
    ensures { result ≡ object_in hash digits.now }
{
    match ObjectId::in_hex(hash, digits) {
        Some(id) => Some(Target::Object(id)),
        None => None,
    }
}

const SPACE: u8 = b' ';

#[tactic(auto, unfolding(crate::specs::LineKinds::reference_in))]
fn named_target(alloc: Global, hash: Kind, value: &[u8]) -> Result<Option<Reference>, NoMemory>
    ensures { IfOk result (λ found. found ≡ reference_in hash value.now) }
{
    let Some((text, name)) = split_first(SPACE, value) else {
        return Ok(None);
    };
    let Some(target) = target(alloc, hash, text)? else {
        return Ok(None);
    };
    let Some(name) = full_name(alloc, name)? else {
        return Ok(None);
    };
    Ok(Some(Reference { name, target }))
}

#[tactic(auto, unfolding(crate::specs::LineKinds::reference_of))]
fn reference_at(alloc: Global, hash: Kind, line: &Placed<'_>) -> Result<Option<Reference>, NoMemory>
    ensures { IfOk result (λ found. found ≡ reference_of hash line.now.line) }
{
    match line.value(b"ref ") {
        Some(value) => named_target(alloc, hash, value),
        None => Ok(None),
    }
}

impl Keyed<FullName> for Reference {
    ghost key_of = { λ r. r.name };

    fn key(&self) -> Result<FullName, NoMemory> {
        self.name.try_clone()
    }
}

/// The references read so far, by whose names a repeated one is known.
type Gathered = Distinct<FullName, Reference>;

/// Adds a reference, unless its name came before, and says whether it was added.
#[tactic(auto, using(crate::proofs::Gathered::has_key_is))]
fn add(gathered: &mut Gathered, reference: Reference) -> Result<bool, NoMemory>
    ensures new { IfOk result (λ is_new. is_new ≡ not (spec.has_name gathered.old reference.name)) }
    ensures added { OnOk result (gathered.new ≡ if spec.has_name gathered.old reference.name then gathered.old else gathered.old
        ++ reference ∷ []) }
{
    gathered.add(reference)
}

/// Adds the reference of a line, and says whether it has one whose name is new.
#[tactic(auto, unfolding(crate::specs::SceneRefs::new_reference))]
fn add_line(
    alloc: Global,
    hash: Kind,
    gathered: &mut Gathered,
    line: &Placed<'_>,
) -> Result<bool, NoMemory>
    ensures { IfOk result (λ is_new. (if is_new then Some gathered.new else None)
        ≡ option_map (λ r. gathered.old ++ r ∷ []) (spec.new_reference hash gathered.old line.now.line)) }
{
    match reference_at(alloc, hash, line)? {
        Some(reference) => add(gathered, reference),
        None => Ok(false),
    }
}

fn read_lines_of(
    alloc: Global,
    hash: Kind,
    lines: &[Placed<'_>],
) -> Result<List<Reference>, SceneFault>
    ensures { Gives result (spec.references_behind hash [] lines.now) }
{
    let mut gathered = Distinct::new(alloc);
    for line in lines {
        if !add_line(alloc, hash, &mut gathered, line)? {
            return Err(SceneFault::Malformed {
                place: line.place(),
            });
        }
    }
    Ok(List::from(gathered.into_vec()))
}

/// The references of a scene.
#[tactic(auto, unfolding(crate::specs::SceneRefs::references_of))]
pub(crate) fn read_references<'a>(
    alloc: Global,
    hash: Kind,
    lines: Lines<'a>,
) -> Result<(List<Reference>, Lines<'a>), SceneFault>
    ensures { Gives result (spec.references_of hash lines.entry) }
{
    let (group, lines) = lines.group(b"ref ");
    let references = read_lines_of(alloc, hash, group)?;
    Ok((references, lines))
}
