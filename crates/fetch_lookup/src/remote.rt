//! The remote that a configuration has under a name.

ghost use Rattle.std.specs.Prelude.{◌≡◌, ◌≤◌, ◌==◌, is_some, IfOk, IfSome, Some, true, length, drop};
ghost use Rattle.std.specs.List.{list_any, suffix_len};
ghost use Rattle.fetch_config.specs.Lookups as lookups;
ghost use Rattle.fetch_base.specs.Answers.{AnswersUnless};
ghost use Rattle.fetch_lookup.specs.Names as names;
ghost use Rattle.fetch_lookup.specs.Remotes as spec;
ghost use Rattle.fetch_lookup.specs.Remotes.{is_memory};

use crate::direction::Direction;
use crate::find::Error;
use crate::name::{Name, is_place, named};
use crate::refspecs::{in_order, parse_all};
use fetch_base::{List, NoMemory, Text};
use fetch_config::{File, Section, is_same_name, is_same_sub};
use fetch_specs::{Operation, RefSpec, SpecError, Tags};
use std::alloc::Global;

/// What a configuration says of a remote.
#[derive(Debug, Drop)]
pub struct RemoteParts {
    /// Its name, where that is one.
    pub name: Option<Name>,
    /// The addresses to fetch from, in order.
    pub urls: List<Text>,
    /// The addresses to push to, in order, where they are others.
    pub push_urls: List<Text>,
    /// The refspecs to fetch by, ascending, each once.
    pub fetch_specs: List<RefSpec>,
    /// The refspecs to push by, ascending, each once.
    pub push_specs: List<RefSpec>,
    /// Which tags are fetched beside.
    pub fetch_tags: Tags,
}

impl RemoteParts {
    /// An equal remote.
    pub fn try_clone(&self) -> Result<RemoteParts, NoMemory>
        ensures { IfOk result (λ copy. copy ≡ self.now) }
    {
        let name = match &self.name {
            Some(name) => Some(name.try_clone()?),
            None => None,
        };
        Ok(RemoteParts {
            name,
            urls: self.urls.try_clone_with(Text::try_clone)?,
            push_urls: self.push_urls.try_clone_with(Text::try_clone)?,
            fetch_specs: self.fetch_specs.try_clone_with(RefSpec::try_clone)?,
            push_specs: self.push_specs.try_clone_with(RefSpec::try_clone)?,
            fetch_tags: self.fetch_tags,
        })
    }
}

/// The remote that has trusted sections `remote "<name>"`; none where there is no such section. An empty address clears
/// those before it. Without an address to fetch from, the name is one where it has a slash, is a dot, or has a colon
/// after its first byte. An unknown `tagOpt`, an address with a line feed and a refspec that doesn't parse are refused.
#[tactic(auto, unfolding(crate::specs::Names::remote))]
pub fn find_remote(alloc: Global, file: &File, name: &[u8]) -> Option<Result<RemoteParts, Error>>
    ensures found { is_some result ≡ spec.is_remote file.now.sections name.now }
    ensures answer { IfSome result (AnswersUnless is_memory (spec.found_in file.now.sections name.now)) }
{
    if is_remote(file.sections(), name) {
        Some(found(alloc, file, name))
    } else {
        None
    }
}

fn is_remote(sections: &[Section], name: &[u8]) -> bool
    ensures { result ≡ spec.is_remote sections.now name.now }
{
    sections.iter().any(|section| is_section_of(section, name))
}

#[tactic(auto, unfolding(crate::specs::Names::remote))]
fn is_section_of(section: &Section, name: &[u8]) -> bool
    ensures { result ≡ lookups.is_meant names.remote (Some name.now) true section.now }
{
    is_same_name(section.name.as_bytes(), b"remote")
        && is_same_sub(&section.sub, Some(name))
        && section.meta.trusted
}

/// The parts of a remote, each refused in its turn.
pub(crate) fn found(alloc: Global, file: &File, name: &[u8]) -> Result<RemoteParts, Error>
    ensures { AnswersUnless is_memory (spec.found_in file.now.sections name.now) result }
{
    let fetch_tags = tags(alloc, file, name)?;
    let urls = addresses(alloc, file, name, Direction::Fetch)?;
    let push_urls = addresses(alloc, file, name, Direction::Push)?;
    let fetch_specs = specs(alloc, file, name, Direction::Fetch)?;
    let push_specs = specs(alloc, file, name, Direction::Push)?;
    let name = named(alloc, name)?;
    Ok(RemoteParts {
        name,
        urls,
        push_urls,
        fetch_specs,
        push_specs,
        fetch_tags,
    })
}

#[tactic(auto, unfolding(crate::specs::Names::remote, crate::specs::Remotes::tags_in))]
fn tags(alloc: Global, file: &File, name: &[u8]) -> Result<Tags, Error>
    ensures { AnswersUnless is_memory (spec.tags_in file.now.sections name.now) result }
{
    match file.string(b"remote", Some(name), b"tagOpt", true) {
        Some(text) => tags_said(alloc, text),
        None => Ok(Tags::Included),
    }
}

fn tags_said(alloc: Global, text: &[u8]) -> Result<Tags, Error>
    ensures { AnswersUnless is_memory (spec.tags_said (Some text.now)) result }
{
    if text == b"--tags".as_slice() {
        Ok(Tags::All)
    } else if text == b"--no-tags".as_slice() {
        Ok(Tags::None)
    } else {
        Err(Error::TagOpt {
            value: Text::new(alloc, text)?,
        })
    }
}

/// The values of a key, in trusted sections.
#[tactic(auto, unfolding(crate::specs::Names::remote))]
fn texts(alloc: Global, file: &File, name: &[u8], key: &[u8]) -> Result<Vec<Text>, NoMemory>
    ensures { IfOk result (λ texts. texts.items ≡ spec.texts_of file.now.sections name.now key.now) }
{
    match file.strings(alloc, b"remote", Some(name), key, true) {
        Ok(texts) => Ok(texts),
        Err(_) => Err(NoMemory),
    }
}

/// The addresses, where none has a line feed.
#[tactic(auto, unfolding(crate::specs::Remotes::addresses_in))]
fn addresses(
    alloc: Global,
    file: &File,
    name: &[u8],
    direction: Direction,
) -> Result<List<Text>, Error>
    ensures { AnswersUnless is_memory (spec.addresses_in file.now.sections name.now direction) result }
{
    let urls = addresses_of(alloc, file, name, direction)?;
    if has_feeds(urls.as_slice()) {
        return Err(Error::Url {
            kind: direction,
            remote_name: Text::new(alloc, name)?,
        });
    }
    Ok(List::from(urls))
}

#[tactic(auto, unfolding(crate::specs::Remotes::addresses_of))]
fn addresses_of(
    alloc: Global,
    file: &File,
    name: &[u8],
    direction: Direction,
) -> Result<Vec<Text>, NoMemory>
    ensures { IfOk result (λ urls. urls.items ≡ spec.addresses_of file.now.sections name.now direction) }
{
    match direction {
        Direction::Fetch => {
            let urls = uncleared(texts(alloc, file, name, b"url")?)?;
            or_itself(alloc, name, urls)
        }
        Direction::Push => uncleared(texts(alloc, file, name, b"pushurl")?),
    }
}

/// The addresses after the last empty one.
fn uncleared(mut addresses: Vec<Text>) -> Result<Vec<Text>, NoMemory>
    ensures { IfOk result (λ kept. kept.items ≡ spec.uncleared addresses.items) }
{
    let cleared = addresses.len() - uncleared_count(addresses.as_slice());
    Ok(addresses.split_off(cleared)?)
}

fn uncleared_count(addresses: &[Text]) -> usize
    ensures count { result ≡ suffix_len spec.has_bytes addresses.now }
    ensures within { result ≤ length addresses.now }
{
    addresses
        .iter()
        .rev()
        .take_while(|address| has_bytes(address))
        .count()
}

fn has_bytes(address: &Text) -> bool
    ensures { result ≡ spec.has_bytes address.now }
{
    address.len() != 0
}

/// The addresses, or else the name, where it is one.
fn or_itself(alloc: Global, name: &[u8], urls: Vec<Text>) -> Result<Vec<Text>, NoMemory>
    ensures { IfOk result (λ all. all.items ≡ spec.or_itself name.now urls.items) }
{
    let mut urls = urls;
    if urls.is_empty() && is_address(name) {
        urls.push(Text::new(alloc, name)?)?;
    }
    Ok(urls)
}

fn is_address(name: &[u8]) -> bool
    ensures { result ≡ spec.is_address name.now }
{
    is_place(name) || has_colon(name)
}

/// Whether a colon stands after the first byte.
fn has_colon(name: &[u8]) -> bool
    ensures { result ≡ list_any (λ b. b == 58) (drop 1 name.now) }
{
    match name {
        [_, behind @ ..] => behind.contains(&b':'),
        [] => false,
    }
}

fn has_feeds(urls: &[Text]) -> bool
    ensures { result ≡ list_any spec.has_feed urls.now }
{
    urls.iter().any(|url| has_feed(url.as_bytes()))
}

fn has_feed(url: &[u8]) -> bool
    ensures { result ≡ spec.has_feed url.now }
{
    url.contains(&b'\n')
}

/// The refspecs, where each parses.
#[tactic(auto, unfolding(crate::specs::Remotes::specs_in))]
fn specs(
    alloc: Global,
    file: &File,
    name: &[u8],
    direction: Direction,
) -> Result<List<RefSpec>, Error>
    ensures { AnswersUnless is_memory (spec.specs_in file.now.sections name.now direction) result }
{
    let texts = texts(alloc, file, name, spec_key(direction))?;
    match parse_all(alloc, texts.as_slice(), operation_of(direction)) {
        Ok(specs) => Ok(in_order(alloc, specs)?),
        Err(SpecError::NoMemory) => Err(Error::NoMemory),
        Err(source) => Err(Error::RefSpec {
            kind: direction,
            remote_name: Text::new(alloc, name)?,
            source,
        }),
    }
}

pub(crate) fn operation_of(direction: Direction) -> Operation
    ensures { result ≡ spec.operation_of direction }
{
    match direction {
        Direction::Fetch => Operation::Fetch,
        Direction::Push => Operation::Push,
    }
}

#[tactic(auto, unfolding(crate::specs::Remotes::spec_key))]
pub(crate) fn spec_key(direction: Direction) -> &'static [u8]
    ensures { result.now ≡ spec.spec_key direction }
{
    match direction {
        Direction::Fetch => b"fetch",
        Direction::Push => b"push",
    }
}
