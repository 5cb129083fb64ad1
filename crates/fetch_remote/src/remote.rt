//! Where references are fetched from.

pub mod init;

ghost use Rattle.std.specs.Prelude.{◌≡◌, IfOk, option_map, slice_get};
ghost use Rattle.std.specs.Option.{option_copied};
ghost use Rattle.fetch_remote.specs.Remotes.{address_of, nameless, specs_for, urls_for, value_of};

use crate::remotes::direction::Direction;
use fetch_lookup::{Name, RemoteParts};
use fetch_specs::{RefSpec, Tags};
use fetch_store::{List, NoMemory, Text};
use std::marker::Model;

/// A remote: its name where it has one, its addresses, the refspecs that it is fetched and pushed by, and what is done
/// with tags.
#[derive(Debug)]
pub struct Remote {
    pub(crate) parts: RemoteParts,
}

impl Model for Remote {
    ghost use Rattle.fetch_remote.specs.Remotes.{RemoteValue, value_of};

    ghost Value = { RemoteValue };

    ghost view = { λ r. value_of r.parts };
}

impl Drop for Remote {
    fn drop(self) {
        let Remote { parts: _ } = self;
    }
}

impl Remote {
    /// A nameless remote with these addresses and refspecs to fetch by, this choice of tags, and nothing to push.
    pub fn new(urls: List<Text>, fetch_specs: List<RefSpec>, tags: Tags) -> Remote
        ensures { result ≡ nameless urls fetch_specs tags }
    {
        let alloc = urls.allocator();
        Remote::of(RemoteParts {
            name: None,
            urls,
            push_urls: List::new(alloc),
            fetch_specs,
            push_specs: List::new(alloc),
            fetch_tags: tags,
        })
    }

    /// The remote that a configuration tells.
    pub(crate) fn of(parts: RemoteParts) -> Remote
        ensures { result ≡ value_of parts }
    {
        Remote { parts }
    }

    /// The name, where it has one.
    pub fn name(&self) -> Option<&Name>
        ensures { option_copied result ≡ self.now.name }
    {
        self.parts.name.as_ref()
    }

    /// The addresses, in order. To push, those for fetching are taken where there are no others.
    pub fn urls(&self, direction: Direction) -> &[Text]
        ensures { result.now ≡ urls_for self.now direction }
    {
        match direction {
            Direction::Fetch => self.parts.urls.as_slice(),
            Direction::Push => match self.parts.push_urls.as_slice() {
                [] => self.parts.urls.as_slice(),
                urls => urls,
            },
        }
    }

    /// The first of the addresses. None where there is none.
    pub fn url(&self, direction: Direction) -> Option<&[u8]>
        ensures { option_map (λ url. url.now) result ≡ slice_get (urls_for self.now direction) 0 }
    {
        match self.urls(direction) {
            [url, ..] => Some(url.as_bytes()),
            [] => None,
        }
    }

    /// The refspecs for a direction, in order.
    pub fn refspecs(&self, direction: Direction) -> &[RefSpec]
        ensures { result.now ≡ specs_for self.now direction }
    {
        match direction {
            Direction::Fetch => self.parts.fetch_specs.as_slice(),
            Direction::Push => self.parts.push_specs.as_slice(),
        }
    }

    /// What a fetch does with tags.
    pub fn fetch_tags(&self) -> Tags
        ensures { result ≡ self.now.tags }
    {
        self.parts.fetch_tags
    }

    /// The same remote with another choice of tags.
    pub fn with_fetch_tags(self, tags: Tags) -> Remote
        ensures { result ≡ record self { tags = tags } }
    {
        let mut remote = self;
        remote.parts.fetch_tags = tags;
        remote
    }

    /// An equal remote.
    pub fn try_clone(&self) -> Result<Remote, NoMemory>
        ensures { IfOk result (λ copy. copy ≡ self.now) }
    {
        Ok(Remote::of(self.parts.try_clone()?))
    }

    /// The first address, or an empty one where there is none.
    pub(crate) fn address(&self) -> &[u8]
        ensures { result.now ≡ address_of self.now }
    {
        match self.urls(Direction::Fetch) {
            [url, ..] => url.as_bytes(),
            [] => &[],
        }
    }
}
