//! A configuration.

ghost use Rattle.std.specs.Prelude.{◌≡◌, ◌<◌, ◌++◌, length, IfOk, OnOk, IfErr, OnErr, IfSome, IsOkUnless, MatchOption, IsTrue, is_some};
ghost use Rattle.std.specs.Prelude.{None, Some, Ok, Err, option_map, position, remove, [], ◌∷◌, slice_get};
ghost use Rattle.std.specs.Option.{option_copied, option_map_or};
ghost use Rattle.fetch_config.specs.Contents.{Contents, with_sections, on_section, with_entry, without_key, IsRefusedAt};
ghost use Rattle.fetch_config.specs.Kept as kept;
ghost use Rattle.fetch_config.specs.Lines as lines;
ghost use Rattle.fetch_config.specs.Lookups as lookups;
ghost use Rattle.fetch_config.specs.Overrides as overrides;
ghost use Rattle.fetch_config.specs.Print as print;
ghost use Rattle.fetch_config.specs.Written.{AreNamed, Says};
ghost use Rattle.fetch_config.specs.declared.error.ConfigError.TheVariants as errors;

use crate::error::{ConfigError, Unreadable};
use crate::lookup;
use crate::meta::{Meta, Origin};
use crate::overrides::{nul_or_feed_place, nul_place, override_of, section_of, unkept_place};
use crate::print::text_of;
use crate::reading::read_sections;
use crate::section::{Section, push_copies, push_entry, remove_entries};
use fetch_base::{List, NoMemory, Text};
use std::alloc::Global;
use std::marker::Model;

/// A configuration: sections in order, each with what says where it comes from.
#[derive(Debug, Drop)]
pub struct File {
    meta: Meta,
    sections: Vec<Section>,
}

impl Model for File {
    ghost use Rattle.fetch_config.specs.Contents.{Contents};
    ghost use Rattle.fetch_config.specs.Kept.{AreKept};

    ghost Value = { Contents };

    ghost view = { λ f. record { meta = f.meta; sections = f.sections.items } };

    ghost invariant = { λ f. AreKept f.sections.items };
}

impl File {
    /// A configuration without sections. It is always Ok.
    pub fn new(alloc: Global, meta: Meta) -> Result<File, ConfigError>
        ensures { result ≡ Ok (record { meta = meta; sections = [] }) }
    {
        Ok(File {
            meta,
            sections: Vec::new(alloc),
        })
    }

    /// Where new sections come from.
    pub fn meta(&self) -> &Meta
        ensures { result.now ≡ self.now.meta }
    {
        &self.meta
    }

    /// An equal configuration.
    pub fn try_clone(&self, alloc: Global) -> Result<File, NoMemory>
        ensures { IfOk result (λ copy. copy ≡ self.now) }
    {
        let mut sections = Vec::new(alloc);
        push_copies(alloc, &mut sections, self.sections.as_slice())?;
        Ok(File {
            meta: self.meta.try_clone()?,
            sections,
        })
    }

    /// Reads a text. A refusal tells the first line that breaks the grammar. That is `Syntax`, and else the only error
    /// is out of memory.
    pub fn read(alloc: Global, bytes: &[u8], meta: Meta) -> Result<File, ConfigError>
        ensures accepted { OnOk result (lines.broken_line bytes.now ≡ None) }
        ensures file { IfOk result (λ file. file ≡ record { meta = meta; sections = lines.sections_of meta bytes.now }) }
        ensures refused { IfErr result (IsRefusedAt (lines.broken_line bytes.now)) }
    {
        let sections = read_sections(alloc, bytes, &meta)?;
        Ok(File { meta, sections })
    }

    /// The text of the sections of this source, or of all sections. Where names and keys obey the grammar, the text of
    /// all reads as the same sections. The only error is out of memory.
    pub fn write(&self, alloc: Global, origin: Option<Origin>) -> Result<Text, ConfigError>
        ensures ok { IfOk result (λ text. text ≡ print.text_of (print.of_origin origin self.now.sections)) }
        ensures read_back { IfOk result (λ text. origin ≡ None → AreNamed self.now.sections → Says self.now.sections text) }
        ensures err { IfErr result (λ e. e ≡ errors.NoMemory) }
    {
        let text = text_of(alloc, self.sections.as_slice(), origin)?;
        Ok(Text::from(text))
    }

    /// Adds copies of the other's sections at the end. After an error the file is as before. The only error is out of
    /// memory.
    pub fn append(&mut self, alloc: Global, other: &File) -> Result<(), ConfigError>
        ensures ok { OnOk result (self.new ≡ with_sections self.old (self.old.sections ++ other.now.sections)) }
        ensures err { IfErr result (λ e. (e ≡ errors.NoMemory) × (self.new ≡ self.old)) }
    {
        let len = self.sections.len();
        match push_copies(alloc, &mut self.sections, other.sections.as_slice()) {
            Ok(()) => Ok(()),
            Err(_) => {
                self.sections.truncate(len);
                Err(ConfigError::NoMemory)
            }
        }
    }

    /// Adds a section of its own for `section.key=value` or `section.subsection.key=value`. Without `=` the entry
    /// is implicit. After an error the file is as before.
    pub fn apply_override(&mut self, alloc: Global, text: &[u8]) -> Result<(), ConfigError>
        ensures ok { OnOk result (option_map (λ s. with_sections self.old (self.old.sections ++ s ∷ [])) (overrides.override_of text.now)
            ≡ Some self.new) }
        ensures kept { OnOk result (overrides.unkept_place text.now ≡ None) }
        ensures refused { IfErr result (overrides.IsOverrideRefusal text.now) }
        ensures bad_value { IsTrue (is_some (overrides.override_of text.now))
            → IfSome (overrides.unkept_place text.now) (λ place. result ≡ Err (errors.BadValue place)) }
        ensures err { OnErr result (self.new ≡ self.old) }
    {
        let Some(said) = override_of(text) else {
            return Err(ConfigError::InvalidKey {
                text: Text::new(alloc, text)?,
            });
        };
        if let Some(place) = unkept_place(text) {
            return Err(ConfigError::BadValue { place });
        }
        let section = section_of(alloc, said)?;
        self.sections.push(section)?;
        Ok(())
    }

    /// The last value that isn't implicit.
    pub fn string(
        &self,
        section: &[u8],
        sub: Option<&[u8]>,
        key: &[u8],
        trusted_only: bool,
    ) -> Option<&[u8]>
        ensures { option_map (λ v. v.now) result ≡ lookups.last_of
            (lookups.explicit (lookups.values_of section.now (option_map (λ s. s.now) sub.entry) key.now trusted_only self.now.sections)) }
    {
        lookup::last_text(self.sections.as_slice(), section, sub, key, trusted_only)
    }

    /// The value of the last entry. Within, None is an implicit one.
    pub fn last_value(
        &self,
        section: &[u8],
        sub: Option<&[u8]>,
        key: &[u8],
        trusted_only: bool,
    ) -> Option<&Option<Text>>
        ensures { option_copied result ≡ lookups.last_of
            (lookups.values_of section.now (option_map (λ s. s.now) sub.entry) key.now trusted_only self.now.sections) }
    {
        lookup::last_value(self.sections.as_slice(), section, sub, key, trusted_only)
    }

    /// The values that aren't implicit, in order. The only error is out of memory.
    pub fn strings(
        &self,
        alloc: Global,
        section: &[u8],
        sub: Option<&[u8]>,
        key: &[u8],
        trusted_only: bool,
    ) -> Result<Vec<Text>, ConfigError>
        ensures ok { IfOk result (λ values. values.items ≡ lookups.explicit
            (lookups.values_of section.now (option_map (λ s. s.now) sub.entry) key.now trusted_only self.now.sections)) }
        ensures err { IfErr result (λ e. e ≡ errors.NoMemory) }
    {
        let sections = self.sections.as_slice();
        let values = lookup::collect(alloc, sections, section, sub, key, trusted_only)?;
        Ok(values)
    }

    /// The last entry as a truth value. An implicit entry is true. None where there is no entry; `Unreadable` where its
    /// value is no truth value.
    pub fn boolean(
        &self,
        section: &[u8],
        sub: Option<&[u8]>,
        key: &[u8],
        trusted_only: bool,
    ) -> Option<Result<bool, Unreadable>>
        ensures { result ≡ lookups.boolean_of
            (lookups.values_of section.now (option_map (λ s. s.now) sub.entry) key.now trusted_only self.now.sections) }
    {
        lookup::boolean(self.sections.as_slice(), section, sub, key, trusted_only)
    }

    /// The last entry as a number. None where there is no entry; `Unreadable` where its value is no number, or it has
    /// none.
    pub fn integer(
        &self,
        section: &[u8],
        sub: Option<&[u8]>,
        key: &[u8],
        trusted_only: bool,
    ) -> Option<Result<i64, Unreadable>>
        ensures { result ≡ lookups.integer_of
            (lookups.values_of section.now (option_map (λ s. s.now) sub.entry) key.now trusted_only self.now.sections) }
    {
        lookup::integer(self.sections.as_slice(), section, sub, key, trusted_only)
    }

    /// How many sections there are.
    pub fn section_count(&self) -> usize
        ensures { result ≡ length self.now.sections }
    {
        self.sections.len()
    }

    /// A section, lent. No value that a file keeps has a NUL, and no subsection a NUL or a line feed.
    pub fn section(&self, index: usize) -> Option<&Section>
        ensures section { option_copied result ≡ slice_get self.now.sections index }
        ensures kept { kept.AreKept self.now.sections }
    {
        self.sections.get(index)
    }

    /// The sections, in order, lent. No value that a file keeps has a NUL, and no subsection a NUL or a line feed.
    pub fn sections(&self) -> &[Section]
        ensures sections { result.now ≡ self.now.sections }
        ensures kept { kept.AreKept self.now.sections }
    {
        self.sections.as_slice()
    }

    /// Adds a section without entries at the end, and answers its index. After an error the file is as before.
    /// `BadValue` comes exactly where the subsection has a NUL or a line feed, with the place of the first.
    pub fn push_section(
        &mut self,
        alloc: Global,
        name: &[u8],
        sub: Option<&[u8]>,
        meta: Meta,
    ) -> Result<usize, ConfigError>
        ensures ok { OnOk result (self.new ≡ with_sections self.old (self.old.sections
            ++ record { name = name.now; sub = option_map (λ s. s.now) sub.entry; meta = meta; entries = [] } ∷ [])) }
        ensures index { IfOk result (λ index. index ≡ length self.old.sections) }
        ensures kept { OnOk result (option_map_or (λ s. position kept.is_nul_or_feed s.now) sub.entry None ≡ None) }
        ensures verdict { MatchOption (option_map_or (λ s. position kept.is_nul_or_feed s.now) sub.entry None)
            (IsOkUnless result errors.NoMemory) (λ place. result ≡ Err (errors.BadValue place)) }
        ensures err { OnErr result (self.new ≡ self.old) }
    {
        let section = new_section(alloc, name, sub, meta)?;
        let index = self.sections.len();
        self.sections.push(section)?;
        Ok(index)
    }

    /// Adds an entry at the end of a section. After an error the file is as before. `BadValue` comes exactly where the
    /// value has a NUL, with the place of the first.
    pub fn push_value(
        &mut self,
        alloc: Global,
        index: usize,
        key: &[u8],
        value: &[u8],
    ) -> Result<(), ConfigError>
        requires { index < length self.old.sections }
        ensures ok { OnOk result (self.new ≡ with_sections self.old
            (on_section index (with_entry (key.now, Some value.now)) self.old.sections)) }
        ensures kept { OnOk result (position kept.is_nul value.now ≡ None) }
        ensures verdict { MatchOption (position kept.is_nul value.now) (IsOkUnless result errors.NoMemory)
            (λ place. result ≡ Err (errors.BadValue place)) }
        ensures err { OnErr result (self.new ≡ self.old) }
    {
        if let Some(place) = nul_place(value) {
            return Err(ConfigError::BadValue { place });
        }
        let key = Text::new(alloc, key)?;
        let value = Text::new(alloc, value)?;
        push_entry(&mut self.sections, index, key, Some(value))?;
        Ok(())
    }

    /// Removes all entries of a key from a section.
    pub fn remove_key(&mut self, index: usize, key: &[u8])
        requires { index < length self.old.sections }
        ensures { self.new ≡ with_sections self.old (on_section index (without_key key.now) self.old.sections) }
    {
        remove_entries(&mut self.sections, index, key);
    }

    /// Removes a section; those after it move up.
    pub fn remove_section(&mut self, index: usize)
        requires { index < length self.old.sections }
        ensures { self.new ≡ with_sections self.old (remove self.old.sections index) }
    {
        let _ = self.sections.remove(index);
    }
}

/// A section without entries.
fn new_section(
    alloc: Global,
    name: &[u8],
    sub: Option<&[u8]>,
    meta: Meta,
) -> Result<Section, ConfigError>
    ensures ok { IfOk result (λ section. section
        ≡ record { name = name.now; sub = option_map (λ s. s.now) sub.entry; meta = meta; entries = [] }) }
    ensures kept { OnOk result (option_map_or (λ s. position kept.is_nul_or_feed s.now) sub.entry None ≡ None) }
    ensures verdict { MatchOption (option_map_or (λ s. position kept.is_nul_or_feed s.now) sub.entry None)
        (IsOkUnless result errors.NoMemory) (λ place. result ≡ Err (errors.BadValue place)) }
{
    let sub = match sub {
        Some(sub) => Some(checked_sub(alloc, sub)?),
        None => None,
    };
    Ok(Section {
        name: Text::new(alloc, name)?,
        sub,
        meta,
        entries: List::new(alloc),
    })
}

fn checked_sub(alloc: Global, sub: &[u8]) -> Result<Text, ConfigError>
    ensures ok { IfOk result (λ copy. copy ≡ sub.now) }
    ensures kept { OnOk result (position kept.is_nul_or_feed sub.now ≡ None) }
    ensures verdict { MatchOption (position kept.is_nul_or_feed sub.now) (IsOkUnless result errors.NoMemory)
        (λ place. result ≡ Err (errors.BadValue place)) }
{
    if let Some(place) = nul_or_feed_place(sub) {
        return Err(ConfigError::BadValue { place });
    }
    Ok(Text::new(alloc, sub)?)
}
