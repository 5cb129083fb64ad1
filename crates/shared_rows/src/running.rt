//! Events as they are made, each call in a function of its own.

ghost use Rattle.std.specs.Prelude.{◌≡◌, IfSome};
ghost use Rattle.fetch_store.specs.Stores.{AreOf};
ghost use Rattle.fetch_pack.specs.Once.{AreNamed};

use crate::events::{Event, Taking};
use fetch_negotiate::Shallow;
use fetch_pack::read_pack;
use fetch_refs::{RefEdit, Signature};
use fetch_shared::{Plan, SharedError, SharedState};
use fetch_specs::{FullName, Tags};
use fetch_store::{Kind, Object, ObjectId, Text};
use fetch_wire::RefMap;
use std::alloc::Global;
use std::thread::Threads;

/// What an event answers.
pub(crate) enum Answer {
    Planned(Result<Plan, SharedError>),
    /// Its place, or how many entries there are after a take.
    Placed(Result<u64, SharedError>),
    /// What was to be taken is no pack.
    NoPack,
}

impl Drop for Answer {
    fn drop(self) {
        match self {
            Answer::Planned(_) => {}
            Answer::Placed(_) => {}
            Answer::NoPack => {}
        }
    }
}

/// The objects of a pack. None where it is none, or where memory runs out.
fn objects_of(
    rt: &(impl Threads + Sync),
    alloc: Global,
    kind: Kind,
    packs: &[Text],
    index: usize,
) -> Option<Vec<(ObjectId, Object)>>
    ensures of_hash { IfSome result (λ objects. AreOf kind objects.items) }
    ensures named { IfSome result (λ objects. AreNamed objects.items) }
{
    let bytes = packs.get(index)?;
    match read_pack(rt, alloc, kind, bytes.as_bytes(), 1) {
        Ok(pack) => Some(pack.objects.into_vec()),
        Err(_) => None,
    }
}

fn plan(alloc: Global, state: &mut SharedState, map: &RefMap) -> Result<Plan, SharedError>
    ensures { state.new ≡ state.old }
{
    state.plan(alloc, map, Tags::None, &Shallow::NoChange)
}

fn take(
    alloc: Global,
    state: &mut SharedState,
    taking: &Taking,
    objects: Vec<(ObjectId, Object)>,
) -> Result<u64, SharedError>
    requires of_hash { AreOf state.old.repository.state.hash objects.items }
    requires named { AreNamed objects.items }
    ensures { state.new.repository.state.hash ≡ state.old.repository.state.hash }
{
    match state.take(
        alloc,
        taking.pass,
        taking.wants.as_slice(),
        objects,
        taking.shallow.as_slice(),
        taking.unshallow.as_slice(),
    ) {
        Ok(taken) => Ok(taken.place),
        Err(e) => Err(e),
    }
}

fn commit(
    state: &mut SharedState,
    pass: u64,
    edits: Vec<RefEdit>,
    committer: Signature,
) -> Result<u64, SharedError>
    ensures { state.new.repository.state.hash ≡ state.old.repository.state.hash }
{
    state.commit(pass, edits, committer)
}

fn delete(
    alloc: Global,
    state: &mut SharedState,
    pass: u64,
    names: &[FullName],
) -> Result<u64, SharedError>
    ensures { state.new.repository.state.hash ≡ state.old.repository.state.hash }
{
    state.delete(alloc, pass, names)
}

/// Makes an event of a shared repository of this hash.
pub(crate) fn run(
    rt: &(impl Threads + Sync),
    alloc: Global,
    kind: Kind,
    state: &mut SharedState,
    packs: &[Text],
    event: Event,
) -> Answer
    requires { state.old.repository.state.hash ≡ kind }
    ensures { state.new.repository.state.hash ≡ kind }
{
    match event {
        Event::Plan(map) => Answer::Planned(plan(alloc, state, &map)),
        Event::Take(taking) => match objects_of(rt, alloc, kind, packs, taking.pack) {
            Some(objects) => Answer::Placed(take(alloc, state, &taking, objects)),
            None => Answer::NoPack,
        },
        Event::Commit {
            pass,
            edits,
            committer,
        } => Answer::Placed(commit(state, pass, edits, committer)),
        Event::Delete { pass, names } => {
            Answer::Placed(delete(alloc, state, pass, names.as_slice()))
        }
    }
}
