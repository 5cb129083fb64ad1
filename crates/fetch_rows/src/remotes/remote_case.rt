//! What the lines of a row say of its repository.

use fetch_specs::FullName;
use fetch_store::{NoMemory, Text, decimal};
use fetch_update::{Worktree, WorktreeFault};
use rows::{name_of, split_word};
use std::alloc::Global;

/// A repository, and what fails there.
#[derive(Drop)]
pub(crate) struct RemoteCase {
    /// The text of the configuration in memory.
    pub(crate) config: Vec<u8>,
    /// The text of its file, which is absent where there is none.
    pub(crate) file: Vec<u8>,
    pub(crate) is_lenient: bool,
    /// The branch that is checked out.
    pub(crate) head: Option<FullName>,
    pub(crate) references: Vec<FullName>,
    pub(crate) worktrees: Vec<Worktree>,
    /// The calls on files that fail, from 0.
    pub(crate) files: Vec<u64>,
    /// The peers that can't be made, from 0.
    pub(crate) peers: Vec<u64>,
    /// How the work trees can't be listed.
    pub(crate) listings: Vec<(u64, WorktreeFault)>,
}

/// The names that these words are. None where one isn't.
pub(crate) fn names_of(alloc: Global, text: &[u8]) -> Result<Option<Vec<FullName>>, NoMemory> {
    let mut names = Vec::new(alloc);
    let mut rest = text;
    for _ in 0..text.len() {
        if rest.is_empty() {
            break;
        }
        let (word, behind) = split_word(rest);
        let Some(name) = name_of(alloc, word)? else {
            return Ok(None);
        };
        names.push(name)?;
        rest = behind;
    }
    Ok(Some(names))
}

fn push_line(text: &mut Vec<u8>, line: &[u8]) -> Result<bool, NoMemory> {
    text.extend_from_slice(line)?;
    text.push(b'\n')?;
    Ok(true)
}

impl RemoteCase {
    /// A repository without configuration, references and work trees, where nothing fails.
    pub(crate) fn new(alloc: Global) -> RemoteCase {
        RemoteCase {
            config: Vec::new(alloc),
            file: Vec::new(alloc),
            is_lenient: false,
            head: None,
            references: Vec::new(alloc),
            worktrees: Vec::new(alloc),
            files: Vec::new(alloc),
            peers: Vec::new(alloc),
            listings: Vec::new(alloc),
        }
    }

    /// Takes what a line says. Whether it says something.
    pub(crate) fn take(&mut self, alloc: Global, line: &[u8]) -> Result<bool, NoMemory> {
        let (word, rest) = split_word(line);
        if word == b"config".as_slice() {
            push_line(&mut self.file, rest)?;
            push_line(&mut self.config, rest)
        } else if word == b"memory".as_slice() {
            push_line(&mut self.config, rest)
        } else if word == b"file".as_slice() {
            push_line(&mut self.file, rest)
        } else if word == b"lenient".as_slice() {
            self.is_lenient = true;
            Ok(true)
        } else if word == b"fail".as_slice() {
            self.take_fault(rest)
        } else {
            self.take_names(alloc, word, rest)
        }
    }

    fn take_names(&mut self, alloc: Global, word: &[u8], rest: &[u8]) -> Result<bool, NoMemory> {
        let (text, directory) = split_word(rest);
        let Some(name) = name_of(alloc, text)? else {
            return Ok(false);
        };
        if word == b"head".as_slice() {
            self.head = Some(name);
            Ok(true)
        } else if word == b"ref".as_slice() {
            self.references.push(name)?;
            Ok(true)
        } else if word == b"worktree".as_slice() {
            let directory = Text::new(alloc, directory)?;
            self.worktrees.push(Worktree {
                branch: name,
                directory,
            })?;
            Ok(true)
        } else {
            Ok(false)
        }
    }

    /// Takes that a call fails. Whether it is said whose, and which.
    fn take_fault(&mut self, rest: &[u8]) -> Result<bool, NoMemory> {
        let (whose, digits) = split_word(rest);
        let Some(call) = decimal(digits) else {
            return Ok(false);
        };
        if whose == b"files".as_slice() {
            push(&mut self.files, call)
        } else if whose == b"peers".as_slice() {
            push(&mut self.peers, call)
        } else {
            push_listing(&mut self.listings, whose, call)
        }
    }
}

fn push(calls: &mut Vec<u64>, call: u64) -> Result<bool, NoMemory> {
    calls.push(call)?;
    Ok(true)
}

/// How a listing of the work trees fails.
fn fault_of(word: &[u8]) -> Option<WorktreeFault> {
    if word == b"listing".as_slice() {
        Some(WorktreeFault::Listing)
    } else if word == b"open-repo".as_slice() {
        Some(WorktreeFault::OpenRepo)
    } else if word == b"follow-symref".as_slice() {
        Some(WorktreeFault::FollowSymref)
    } else {
        None
    }
}

fn push_listing(
    listings: &mut Vec<(u64, WorktreeFault)>,
    word: &[u8],
    call: u64,
) -> Result<bool, NoMemory> {
    let Some(fault) = fault_of(word) else {
        return Ok(false);
    };
    listings.push((call, fault))?;
    Ok(true)
}
