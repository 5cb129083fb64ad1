//! The dated path, and how much of a graph its test reads.

ghost use Rattle.fetch_store.specs.Graph.{graph_of};

use crate::words::id_of;
use fetch_store::{NoMemory, ObjectId, ObjectKind, Objects, Parents, Store, decimal};
use fetch_update::laws::has_dated_path;
use rows::{say, split_word};
use std::alloc::Global;
use std::cell::Cell;

/// None where one of the two is no commit.
#[tactic(auto, using(fetch_update::proofs::CommitTests::commit_test))]
fn answer<O: Objects>(
    alloc: Global,
    objects: &O,
    from: &ObjectId,
    to: &ObjectId,
) -> Result<Option<bool>, NoMemory> {
    if !objects.is_commit(from) {
        return Ok(None);
    }
    if !objects.is_commit(to) {
        return Ok(None);
    }
    Ok(Some(has_dated_path(alloc, objects, from, to)?))
}

/// Tells whether a dated path leads from one commit to another.
pub(crate) fn tell<O: Objects>(
    alloc: Global,
    objects: &O,
    from: &ObjectId,
    to: &ObjectId,
    out: &mut Vec<u8>,
) -> Result<(), NoMemory> {
    match answer(alloc, objects, from, to)? {
        Some(true) => say(out, &[b"path"]),
        Some(false) => say(out, &[b"no path"]),
        None => say(out, &[b"no commit"]),
    }
}

/// A store that counts the commits and the parent links that are read, and how often it is asked what an object is.
#[derive(Drop)]
struct Counting<'a> {
    store: &'a Store,
    kinds: Cell<u64>,
    commits: Cell<u64>,
    links: Cell<u64>,
}

fn count(calls: &Cell<u64>) {
    calls.set(calls.get().wrapping_add(1));
}

impl Objects for Counting<'_> {
    ghost graph = { λ c. graph_of c.store.now.objects };

    fn len(&self) -> usize {
        Objects::len(self.store)
    }

    fn kind_of(&self, id: &ObjectId) -> Option<ObjectKind> {
        count(&self.kinds);
        self.store.kind_of(id)
    }

    fn parents(&self, id: &ObjectId) -> Parents<'_> {
        for _parent in self.store.parents(id) {
            count(&self.links);
        }
        self.store.parents(id)
    }

    fn parent(&self, id: &ObjectId, index: usize) -> Option<ObjectId> {
        count(&self.links);
        self.store.parent(id, index)
    }

    fn seconds(&self, id: &ObjectId) -> Option<u64> {
        count(&self.commits);
        self.store.seconds(id)
    }

    fn tag_target(&self, id: &ObjectId) -> Option<ObjectId> {
        count(&self.kinds);
        self.store.tag_target(id)
    }
}

/// `<id> <id> <commits> <links>`: the same, and whether no more commits and links are read. Whether the words are these.
pub(crate) fn tell_reads(
    alloc: Global,
    store: &Store,
    rest: &[u8],
    out: &mut Vec<u8>,
) -> Result<bool, NoMemory> {
    let (from, rest) = split_word(rest);
    let (to, most) = split_word(rest);
    let (Some(from), Some(to)) = (id_of(from), id_of(to)) else {
        return Ok(false);
    };
    let counting = Counting {
        store,
        kinds: Cell::new(0),
        commits: Cell::new(0),
        links: Cell::new(0),
    };
    tell(alloc, &counting, &from, &to, out)?;
    tell_counts(&counting, most, out)?;
    Ok(true)
}

/// `<commits> <links>`: whether no more are read. It is asked what an object is once for each commit, and once more for each
/// of the two ids, which are tested first.
fn tell_counts(counting: &Counting<'_>, most: &[u8], out: &mut Vec<u8>) -> Result<(), NoMemory> {
    let (commits, links) = split_word(most);
    let commits = decimal(commits).unwrap_or(0);
    let links = decimal(links).unwrap_or(0);
    let few_kinds = counting.kinds.get() <= commits.saturating_add(2);
    if few_kinds && counting.commits.get() <= commits && counting.links.get() <= links {
        say(out, &[b"within"])
    } else {
        say(out, &[b"beyond"])
    }
}
