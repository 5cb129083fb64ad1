//! A remote is saved into a configuration.

ghost use Rattle.std.specs.Prelude.{◌≡◌, ◌<◌, ◌||◌, ◌∷◌, [], IfOk, OnOk, OnErr, IfSome, None, length, position, slice_get};
ghost use Rattle.std.specs.List.{filter_map};
ghost use Rattle.fetch_config.specs.Contents.{with_sections, on_section};
ghost use Rattle.fetch_config.specs.Kept.{is_nul_or_feed};
ghost use Rattle.fetch_base.specs.Answers.{AnswersBy, AnswersUnless};
ghost use Rattle.fetch_lookup.specs.Names.{text_of};
ghost use Rattle.fetch_lookup.specs.Saved as spec;

use crate::cleaning::{clean, clears, is_of_remote, is_same_meta};
use crate::direction::Direction;
use crate::lines::{KeyLine, lines};
use crate::name::{Error as NameError, Name, is_place, validated};
use crate::remote::RemoteParts;
use crate::save::{AsError, Error};
use fetch_base::{NoMemory, Text};
use fetch_config::{ConfigError, File, Meta, Section};
use std::alloc::Global;

/// Saves a remote: in all sections `remote "<name>"` the addresses, the choice of tags and the refspecs go, and what
/// they are now is written into the last such section of the file itself, or into a new one at the end. A new one is
/// used also where addresses of other files are to be cleared, by an empty address before the others. After an error
/// the file is as before. `NameMissing` comes where the remote has no name, and then `Value` where a configuration
/// can't keep one of the texts.
pub fn save_to(alloc: Global, remote: &RemoteParts, config: &mut File) -> Result<(), Error>
    ensures answer { AnswersUnless spec.is_memory (spec.save_verdict remote.now.name remote.now) result }
    ensures saved { OnOk result (IfSome remote.now.name (λ name. config.new ≡ spec.saved config.old (text_of name) remote.now)) }
    ensures err { OnErr result (config.new ≡ config.old) }
{
    match &remote.name {
        Some(name) => save_named(alloc, remote, name.as_bstr(), config),
        None => Err(Error::NameMissing {
            url: first_or_empty(alloc, remote.urls.as_slice())?,
        }),
    }
}

/// Saves a remote under a valid name, which it then has. After an error the file and the remote are as before. `Name`
/// comes first, where the name isn't valid.
pub fn save_as_to(
    alloc: Global,
    remote: &mut RemoteParts,
    name: &[u8],
    config: &mut File,
) -> Result<(), AsError>
    ensures answer { AnswersUnless spec.is_as_memory (spec.save_as_verdict name.now remote.old) result }
    ensures saved { OnOk result (config.new ≡ spec.saved config.old name.now remote.old) }
    ensures named { OnOk result (remote.new ≡ spec.renamed (spec.valid_name name.now) remote.old) }
    ensures err { OnErr result ((config.new ≡ config.old) × (remote.new ≡ remote.old)) }
{
    let valid = valid_name(alloc, name)?;
    save_valid(alloc, remote, name, config)?;
    remote.name = Some(valid);
    Ok(())
}

fn valid_name(alloc: Global, name: &[u8]) -> Result<Name, AsError>
    ensures { AnswersUnless spec.is_as_memory (spec.name_verdict name.now) result }
{
    match validated(alloc, name) {
        Ok(text) => Ok(name_of_text(text)),
        Err(NameError::NoMemory) => Err(AsError::NoMemory),
        Err(e) => Err(AsError::Name(e)),
    }
}

fn name_of_text(text: Text) -> Name
    ensures { result ≡ spec.valid_name text }
{
    if is_place(text.as_bytes()) {
        Name::Url(text)
    } else {
        Name::Symbol(text)
    }
}

fn save_valid(
    alloc: Global,
    remote: &RemoteParts,
    name: &[u8],
    config: &mut File,
) -> Result<(), AsError>
    ensures answer { AnswersUnless spec.is_as_memory (spec.save_place (spec.unkept_place name.now remote.now)) result }
    ensures saved { OnOk result (config.new ≡ spec.saved config.old name.now remote.now) }
    ensures err { OnErr result (config.new ≡ config.old) }
{
    match save_named(alloc, remote, name, config) {
        Ok(()) => Ok(()),
        Err(Error::NoMemory) => Err(AsError::NoMemory),
        Err(e) => Err(AsError::Save(e)),
    }
}

fn first_or_empty(alloc: Global, urls: &[Text]) -> Result<Text, NoMemory>
    ensures { IfOk result (λ url. url ≡ spec.first_or_empty urls.now) }
{
    match urls {
        [url, ..] => url.try_clone(),
        [] => Text::new(alloc, b""),
    }
}

/// A name with a NUL or a line feed is refused.
#[tactic(auto, unfolding(crate::specs::Saved::unkept_place))]
fn save_named(
    alloc: Global,
    remote: &RemoteParts,
    name: &[u8],
    config: &mut File,
) -> Result<(), Error>
    ensures answer { AnswersUnless spec.is_memory (spec.at_place (spec.unkept_place name.now remote.now)) result }
    ensures saved { OnOk result (config.new ≡ spec.saved config.old name.now remote.now) }
    ensures err { OnErr result (config.new ≡ config.old) }
{
    if let Some(place) = nul_or_feed_place(name) {
        return Err(Error::Value { place });
    }
    match saved(alloc, remote, name, config) {
        Ok(saved) => {
            *config = saved;
            Ok(())
        }
        Err(e) => Err(e),
    }
}

fn nul_or_feed_place(text: &[u8]) -> Option<usize>
    ensures { result ≡ position is_nul_or_feed text.now }
{
    text.iter().position(|byte| *byte == 0 || *byte == b'\n')
}

/// A copy of the configuration with the remote saved.
fn saved(alloc: Global, remote: &RemoteParts, name: &[u8], config: &File) -> Result<File, Error>
    requires { position is_nul_or_feed name.now ≡ None }
    ensures saved { IfOk result (λ file. file ≡ spec.saved config.now name.now remote.now) }
    ensures answer { AnswersBy (λ _. tt) spec.is_memory (spec.at_place (spec.nul_in (spec.values_of_parts remote.now))) result }
{
    let clears_urls = clears(config, name, Direction::Fetch);
    let clears_push_urls = clears(config, name, Direction::Push);
    let is_new = either(clears_urls, clears_push_urls);
    let lines = lines(alloc, remote, clears_urls, clears_push_urls)?;
    let file = cleaned(alloc, config, name)?;
    with_lines(alloc, file, name, is_new, lines.as_slice())
}

fn either(a: bool, b: bool) -> bool
    ensures { result ≡ (a || b) }
{
    a || b
}

fn cleaned(alloc: Global, config: &File, name: &[u8]) -> Result<File, NoMemory>
    ensures { IfOk result (λ file. file ≡ with_sections config.now (spec.cleaned name.now config.now.sections)) }
{
    let mut file = config.try_clone(alloc)?;
    clean(&mut file, name);
    Ok(file)
}

/// The lines at the end of the section that is used.
fn with_lines(
    alloc: Global,
    file: File,
    name: &[u8],
    is_new: bool,
    lines: &[KeyLine],
) -> Result<File, Error>
    requires { position is_nul_or_feed name.now ≡ None }
    ensures placed { IfOk result (λ new. new ≡ with_sections file
        (spec.placed_in (spec.used_or_new is_new file.meta name.now file.sections)
        (spec.new_section file.meta name.now) lines.now file.sections)) }
    ensures answer { AnswersBy (λ _. tt) spec.is_memory (spec.at_place (slice_get (filter_map spec.nul_at lines.now) 0)) result }
{
    let mut file = file;
    let index = used_section(alloc, &mut file, name, is_new)?;
    match push_lines(alloc, &mut file, index, lines) {
        Ok(()) => Ok(file),
        Err(e) => Err(e),
    }
}

/// The section that the remote is written into.
fn used_section(
    alloc: Global,
    file: &mut File,
    name: &[u8],
    is_new: bool,
) -> Result<usize, NoMemory>
    requires { position is_nul_or_feed name.now ≡ None }
    ensures within { IfOk result (λ index. index < length file.new.sections) }
    ensures used { IfOk result (λ index. spec.IsUsedAt file.old name.now
        (spec.used_or_new is_new file.old.meta name.now file.old.sections) index file.new) }
{
    if is_new {
        return push_new(alloc, file, name);
    }
    match last_own(file, name) {
        Some(index) => Ok(index),
        None => push_new(alloc, file, name),
    }
}

/// A new section at the end.
fn push_new(alloc: Global, file: &mut File, name: &[u8]) -> Result<usize, NoMemory>
    requires { position is_nul_or_feed name.now ≡ None }
    ensures within { IfOk result (λ index. index < length file.new.sections) }
    ensures used { IfOk result (λ index. spec.IsUsedAt file.old name.now None index file.new) }
{
    let meta = file.meta().try_clone()?;
    match file.push_section(alloc, b"remote", Some(name), meta) {
        Ok(index) => Ok(index),
        Err(_) => Err(NoMemory),
    }
}

/// The last section of the remote that is of the file itself.
fn last_own(file: &File, name: &[u8]) -> Option<usize>
    ensures within { IfSome result (λ index. index < length file.now.sections) }
    ensures place { result ≡ spec.last_place (spec.is_own file.now.meta name.now) file.now.sections }
{
    let sections = file.sections();
    let mut left = sections.len();
    'sections: while left > 0 {
        left -= 1;
        if is_own(&sections[left], file.meta(), name) {
            return Some(left);
        }
    }
    None
}

fn is_own(section: &Section, meta: &Meta, name: &[u8]) -> bool
    ensures { result ≡ spec.is_own meta.now name.now section.now }
{
    is_of_remote(section, name) && is_same_meta(&section.meta, meta)
}

/// The lines are added at the end of a section, until a value has a NUL.
fn push_lines(alloc: Global, file: &mut File, index: usize, lines: &[KeyLine]) -> Result<(), Error>
    requires { index < length file.old.sections }
    ensures pushed { OnOk result (file.new ≡ with_sections file.old (on_section index (spec.with_lines lines.now) file.old.sections)) }
    ensures answer { AnswersUnless spec.is_memory (spec.at_place (slice_get (filter_map spec.nul_at lines.now) 0)) result }
{
    for line in lines {
        push_line(alloc, file, index, line)?;
    }
    Ok(())
}

fn push_line(alloc: Global, file: &mut File, index: usize, line: &KeyLine) -> Result<(), Error>
    requires { index < length file.old.sections }
    ensures pushed { OnOk result (file.new ≡ with_sections file.old
        (on_section index (spec.with_lines (line.now ∷ [])) file.old.sections)) }
    ensures answer { AnswersUnless spec.is_memory (spec.at_place (spec.nul_at line.now)) result }
{
    match file.push_value(alloc, index, line.0.as_bytes(), line.1.as_bytes()) {
        Ok(()) => Ok(()),
        Err(ConfigError::BadValue { place }) => Err(Error::Value { place }),
        Err(_) => Err(Error::NoMemory),
    }
}
