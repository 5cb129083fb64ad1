//! What the lines of a row say of a clone.

use crate::said::Said;
use fetch_clone::ConfigureFault;
use fetch_clone::create::Kind;
use fetch_config::{File, Meta, Origin};
use fetch_negotiate::{Depth, Shallow};
use fetch_remote::{OpenOptions, Remote};
use fetch_specs::{NameError, PartialName};
use fetch_store::{List, NoMemory, Text, decimal};
use rows::{decoded, split_word};
use std::alloc::Global;

/// The closures of a clone.
#[derive(Clone, Copy, PartialEq, Eq)]
pub(crate) enum Closures {
    /// Those that it begins with, which agree.
    Usual,
    /// The builder sets one for the remote, which agrees.
    Remote,
    /// The builder sets one for the remote, which refuses.
    RefusesRemote,
    /// The one for the peer refuses.
    RefusesPeer,
    /// The builder sets one that answers a remote without an address.
    Nowhere,
    /// The builder sets one that answers a remote whose address no configuration can have.
    Unsaveable,
}

/// What is cloned, and how.
pub(crate) struct CloneCase {
    pub(crate) url: Text,
    pub(crate) kind: Kind,
    pub(crate) remote_name: Option<Text>,
    pub(crate) ref_name: Option<Text>,
    pub(crate) revision: Option<Text>,
    pub(crate) shallow: Shallow,
    pub(crate) specs: Vec<Text>,
    pub(crate) overrides: Vec<Text>,
    pub(crate) closures: Closures,
    /// What each peer that is made says.
    pub(crate) said: Vec<Said>,
    /// The scene of the server that peers are made of, where they are.
    pub(crate) server: Text,
    /// The makings that fail, from 0.
    pub(crate) unmade: Vec<u64>,
    /// The calls of files that fail, from 0.
    pub(crate) files: Vec<u64>,
    /// The calls of work trees that fail, from 0.
    pub(crate) worktrees: Vec<u64>,
    /// The questions that the interrupt answers with yes, from 0.
    pub(crate) yes: Vec<u64>,
    /// Whether a file of the user's stands at the place, which needn't be empty then.
    pub(crate) is_used: bool,
}

impl Drop for CloneCase {
    fn drop(self) {
        let CloneCase {
            url: _,
            kind: _,
            remote_name: _,
            ref_name: _,
            revision: _,
            shallow: _,
            specs: _,
            overrides: _,
            closures: _,
            said: _,
            server: _,
            unmade: _,
            files: _,
            worktrees: _,
            yes: _,
            is_used: _,
        } = self;
    }
}

/// Options without overrides, before an empty base.
pub(crate) fn options(alloc: Global, is_lenient: bool) -> Result<OpenOptions, NoMemory> {
    let meta = Meta {
        source: Origin::System,
        level: 0,
        path: None,
        trusted: true,
    };
    match File::new(alloc, meta) {
        Ok(base) => Ok(OpenOptions {
            lenient_config: is_lenient,
            api_config_overrides: List::new(alloc),
            base,
        }),
        Err(_) => Err(NoMemory),
    }
}

/// The remote as it is.
pub(crate) fn as_it_is(remote: Remote) -> Result<Remote, ConfigureFault> {
    Ok(remote)
}

/// A peer as it is.
pub(crate) fn agrees<P>(_peer: &mut P) -> Result<(), ConfigureFault> {
    Ok(())
}

fn closures_of(word: &[u8]) -> Option<Closures> {
    if word == b"remote".as_slice() {
        Some(Closures::Remote)
    } else if word == b"no-remote".as_slice() {
        Some(Closures::RefusesRemote)
    } else if word == b"no-peer".as_slice() {
        Some(Closures::RefusesPeer)
    } else if word == b"nowhere".as_slice() {
        Some(Closures::Nowhere)
    } else if word == b"unsaveable".as_slice() {
        Some(Closures::Unsaveable)
    } else {
        None
    }
}

/// Adds a number. Whether it is one.
fn push_number(numbers: &mut Vec<u64>, digits: &[u8]) -> Result<bool, NoMemory> {
    match decimal(digits) {
        Some(number) => {
            numbers.push(number)?;
            Ok(true)
        }
        None => Ok(false),
    }
}

/// That many commits. None for 0.
fn depth_of(digits: &[u8]) -> Option<Shallow> {
    let depth = u32::try_from(decimal(digits)?).ok()?;
    Some(Shallow::DepthAtRemote(Depth::new(depth)?))
}

/// The commits since a time.
fn since(digits: &[u8]) -> Option<Shallow> {
    Some(Shallow::Since {
        cutoff: decimal(digits)?,
    })
}

/// The commits that a name doesn't reach. None where it is none.
fn without(alloc: Global, name: &[u8]) -> Result<Option<Shallow>, NoMemory> {
    match PartialName::new(alloc, name) {
        Ok(name) => {
            let mut remote_refs = List::new(alloc);
            remote_refs.push(name)?;
            Ok(Some(Shallow::Exclude {
                remote_refs,
                since_cutoff: None,
            }))
        }
        Err(NameError::Invalid { .. }) => Ok(None),
        Err(NameError::NoMemory) => Err(NoMemory),
    }
}

impl CloneCase {
    /// A clone of `/srv/a.git` with a work tree, of which nothing was asked, without peers, where nothing fails.
    pub(crate) fn new(alloc: Global) -> Result<CloneCase, NoMemory> {
        Ok(CloneCase {
            url: Text::new(alloc, b"/srv/a.git")?,
            kind: Kind::WithWorktree,
            remote_name: None,
            ref_name: None,
            revision: None,
            shallow: Shallow::NoChange,
            specs: Vec::new(alloc),
            overrides: Vec::new(alloc),
            closures: Closures::Usual,
            said: Vec::new(alloc),
            server: Text::new(alloc, b"")?,
            unmade: Vec::new(alloc),
            files: Vec::new(alloc),
            worktrees: Vec::new(alloc),
            yes: Vec::new(alloc),
            is_used: false,
        })
    }

    /// Takes what a line says. Whether it says something.
    pub(crate) fn take(
        &mut self,
        alloc: Global,
        word: &[u8],
        rest: &[u8],
    ) -> Result<bool, NoMemory> {
        if word == b"says".as_slice() {
            let piece = Text::from(decoded(alloc, rest)?);
            self.said.push(Said::new(alloc, piece)?)?;
            Ok(true)
        } else if word == b"adds".as_slice() {
            self.take_piece(Text::from(decoded(alloc, rest)?))
        } else if word == b"server".as_slice() {
            self.server = Text::from(decoded(alloc, rest)?);
            Ok(true)
        } else if word == b"yes".as_slice() {
            push_number(&mut self.yes, rest)
        } else if word == b"fail".as_slice() {
            self.take_fault(rest)
        } else {
            self.take_choice(alloc, word, rest)
        }
    }

    /// One more piece of the last peer. Whether there is one.
    fn take_piece(&mut self, piece: Text) -> Result<bool, NoMemory> {
        match self.said.last_mut() {
            Some(said) => {
                said.pieces.push(piece)?;
                Ok(true)
            }
            None => Ok(false),
        }
    }

    /// Takes that a call fails. Whether it is said whose, and which.
    fn take_fault(&mut self, rest: &[u8]) -> Result<bool, NoMemory> {
        let (whose, digits) = split_word(rest);
        if whose == b"files".as_slice() {
            push_number(&mut self.files, digits)
        } else if whose == b"maker".as_slice() {
            push_number(&mut self.unmade, digits)
        } else if whose == b"worktrees".as_slice() {
            push_number(&mut self.worktrees, digits)
        } else if whose == b"peer".as_slice() {
            match self.said.last_mut() {
                Some(said) => push_number(&mut said.failing, digits),
                None => Ok(false),
            }
        } else {
            Ok(false)
        }
    }

    /// Takes what is chosen.
    fn take_choice(&mut self, alloc: Global, word: &[u8], rest: &[u8]) -> Result<bool, NoMemory> {
        if word == b"bare".as_slice() {
            self.kind = Kind::Bare;
            Ok(true)
        } else if word == b"used".as_slice() {
            self.is_used = true;
            Ok(true)
        } else if word == b"closures".as_slice() {
            Ok(self.take_closures(rest))
        } else if word == b"depth".as_slice() {
            Ok(self.take_shallow(depth_of(rest)))
        } else if word == b"since".as_slice() {
            Ok(self.take_shallow(since(rest)))
        } else if word == b"not".as_slice() {
            Ok(self.take_shallow(without(alloc, rest)?))
        } else {
            self.take_text(word, Text::new(alloc, rest)?)
        }
    }

    fn take_closures(&mut self, word: &[u8]) -> bool {
        match closures_of(word) {
            Some(closures) => {
                self.closures = closures;
                true
            }
            None => false,
        }
    }

    fn take_shallow(&mut self, shallow: Option<Shallow>) -> bool {
        match shallow {
            Some(shallow) => {
                self.shallow = shallow;
                true
            }
            None => false,
        }
    }

    /// Takes what is chosen by a text.
    fn take_text(&mut self, word: &[u8], text: Text) -> Result<bool, NoMemory> {
        if word == b"url".as_slice() {
            self.url = text;
        } else if word == b"name".as_slice() {
            self.remote_name = Some(text);
        } else if word == b"ref".as_slice() {
            self.ref_name = Some(text);
        } else if word == b"revision".as_slice() {
            self.revision = Some(text);
        } else if word == b"spec".as_slice() {
            self.specs.push(text)?;
        } else if word == b"override".as_slice() {
            self.overrides.push(text)?;
        } else {
            return Ok(false);
        }
        Ok(true)
    }
}
