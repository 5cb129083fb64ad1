//! The names that a server lists.

ghost use Rattle.std.specs.Prelude.{◌≡◌, ◌≢◌, ◌∷◌, ◌++◌, [], false, is_some, IfOk, IfErr, OnOk};
ghost use Rattle.fetch_lines.specs.References.{id_in};
ghost use Rattle.std.specs.List.{filter_map};
ghost use Rattle.fetch_conversation.specs.Blame.{BlamesPeer, is_told};
ghost use Rattle.fetch_conversation.specs.Errors.{is_free_listing, is_interrupted, is_transport};
ghost use Rattle.fetch_conversation.specs.Conversation.{Converses};
ghost use Rattle.fetch_conversation.specs.ListStage.{answer_shown, ls_refs_stage, left_by};
ghost use Rattle.fetch_conversation.specs.declared.prepare.Error.TheVariants as refusals;
ghost use Rattle.fetch_mirror.specs.Naming as spec;
ghost use Rattle.fetch_mirror.specs.Naming.{everything, inquiry_by, own_name};

use fetch_conversation::{Listed, LsRefs, ls_refs, prepare, ref_map};
use fetch_specs::{FullName, Operation, RefSpec, Tags, parse};
use fetch_store::NoMemory;
use fetch_wire::{Peer, Ref, ReplyBound, ScriptedInterrupt};
use std::alloc::Global;

/// Who asks.
const AGENT: &[u8] = b"oxide-0.87.1";

/// How the references of a server are listed.
pub(crate) fn map_options(alloc: Global, bound: ReplyBound) -> ref_map::Options
    ensures { result ≡ spec.map_options bound }
{
    let mut options = ref_map::Options::new(alloc);
    options.max_reply_bytes = bound;
    options
}

/// What a server lists, asked for all that is under `refs/`. Nothing interrupts it, and a refspec is given.
pub(crate) fn list<P: Peer>(
    alloc: Global,
    lister: &mut P,
    bound: ReplyBound,
) -> Result<Listed, prepare::Error>
    ensures held { Converses is_free_listing is_interrupted P.answers bound (P.told lister.old) (P.told lister.new) [] (left_by result)
        (ls_refs_stage bound (inquiry_by bound)) (answer_shown result) }
    ensures peer { BlamesPeer (P.faults lister.old) (P.faults lister.new) (is_told is_transport result) }
    ensures never { IfErr result (λ e. is_interrupted e ≡ false) }
    ensures specified { IfErr result (λ e. e ≢ refusals.MissingRefSpecs) }
{
    let specs = [everything(alloc)?];
    let query = LsRefs {
        address: b".",
        agent: AGENT,
        specs: &specs,
        tags: Tags::None,
    };
    let mut interrupt = ScriptedInterrupt::new(Vec::new(alloc));
    ls_refs(
        alloc,
        &query,
        lister,
        &mut interrupt,
        map_options(alloc, bound),
    )
}

/// Every name under `refs/`, as itself. It is a refspec, so that memory alone may refuse it.
#[tactic(auto, using(crate::proofs::ListedSo::read_so))]
fn everything(alloc: Global) -> Result<RefSpec, NoMemory>
    ensures { IfOk result (λ spec. spec ≡ everything) }
{
    match parse(alloc, b"+refs/*:refs/*", Operation::Fetch) {
        Ok(spec) => Ok(spec),
        Err(_) => Err(NoMemory),
    }
}

/// The names under `refs/` of references that have an id, in their order. One that breaks the grammar of full names is passed
/// over.
pub(crate) fn names_of(alloc: Global, refs: &[Ref]) -> Result<Vec<FullName>, NoMemory>
    ensures { IfOk result (λ names. names.items ≡ spec.names_of refs.now) }
{
    let mut names = Vec::new(alloc);
    for reference in refs {
        add_name(alloc, &mut names, reference)?;
    }
    Ok(names)
}

fn add_name(alloc: Global, names: &mut Vec<FullName>, reference: &Ref) -> Result<(), NoMemory>
    ensures { OnOk result (names.new.items ≡ names.old.items ++ filter_map own_name (reference.now ∷ [])) }
{
    if !is_own(reference) {
        return Ok(());
    }
    match FullName::new(alloc, reference.unpack().0) {
        Ok(name) => {
            names.push(name)?;
            Ok(())
        }
        Err(_) => Err(NoMemory),
    }
}

/// Whether a reference has an id and a full name under `refs/`.
fn is_own(reference: &Ref) -> bool
    ensures { result ≡ spec.is_own reference.now }
{
    has_id(reference) && is_own_name(reference.unpack().0)
}

fn has_id(reference: &Ref) -> bool
    ensures { result ≡ is_some (id_in reference.now) }
{
    match reference.unpack().1 {
        Some(_) => true,
        None => false,
    }
}

#[tactic(auto, unfolding(fetch_specs::specs::Categories::refs))]
fn is_own_name(name: &[u8]) -> bool
    ensures { result ≡ spec.is_own_name name.now }
{
    name.starts_with(b"refs/") && FullName::is_valid(name)
}
