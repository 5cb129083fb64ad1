//! The configuration of a scene.

ghost use Rattle.std.specs.Prelude.{◌≡◌, drop, IfOk};
ghost use Rattle.std.specs.Option.{option_copied};
ghost use Rattle.fetch_scene.specs.Gives.{Gives};
ghost use Rattle.fetch_scene.specs.SceneConfig as spec;
ghost use Rattle.fetch_scene.specs.SceneLines.{first_place, group_len};

use crate::fault::SceneFault;
use crate::line_reader::{ReadsLine, read_each};
use crate::lines::{Lines, Placed};
use fetch_config::{ConfigError, File, Meta, Origin};
use fetch_store::{NoMemory, Text};
use std::alloc::Global;

/// What a line of the configuration says. It has no line feed inside.
#[tactic(auto, unfolding(crate::specs::SceneConfig::config_line))]
fn config_text<'a>(line: &Placed<'a>) -> Option<&'a [u8]>
    ensures { option_copied result ≡ spec.config_line line.now.line }
{
    let text = line.value(b"config ")?;
    if text.contains(&b'\n') {
        return None;
    }
    Some(text)
}

fn config_count(lines: &[Placed<'_>]) -> usize
    ensures { result ≡ group_len spec.config_line lines.now }
{
    lines
        .iter()
        .take_while(|line| config_text(line).is_some())
        .count()
}

/// A line of the configuration.
#[derive(Drop)]
struct ConfigLine;

impl ReadsLine for ConfigLine {
    type Item = Text;

    ghost gives = { λ _. spec.config_line };

    fn read_line(&self, alloc: Global, line: &Placed<'_>) -> Result<Option<Text>, NoMemory> {
        match config_text(line) {
            Some(text) => Ok(Some(Text::new(alloc, text)?)),
            None => Ok(None),
        }
    }
}

/// The lines, each with a line feed after.
fn joined(alloc: Global, lines: &[Text]) -> Result<Vec<u8>, NoMemory>
    ensures { IfOk result (λ bytes. bytes.items ≡ spec.text_of lines.now) }
{
    let mut bytes = Vec::new(alloc);
    for line in lines {
        bytes.extend_from_slice(line.as_bytes())?;
        bytes.push(b'\n')?;
    }
    Ok(bytes)
}

/// The configuration that a text is, or the number of the first line that breaks its grammar, from 1 on.
#[tactic(auto, unfolding(crate::specs::SceneConfig::file_in))]
fn file_in(alloc: Global, text: &[u8]) -> Result<Result<File, usize>, NoMemory>
    ensures { IfOk result (λ found. found ≡ spec.file_in text.now) }
{
    let meta = Meta {
        source: Origin::Local,
        level: 0,
        path: None,
        trusted: true,
    };
    match File::read(alloc, text, meta) {
        Ok(file) => Ok(Ok(file)),
        Err(ConfigError::Syntax { line }) => Ok(Err(line)),
        // Reading a text is refused for nothing else.
        Err(
            ConfigError::NoMemory | ConfigError::BadValue { .. } | ConfigError::InvalidKey { .. },
        ) => Err(NoMemory),
    }
}

/// Where the line after that many others stands.
fn place_behind(count: usize, lines: &[Placed<'_>], last: usize) -> usize
    ensures { result ≡ first_place (drop count lines.now) last }
{
    match lines.get(count) {
        Some(line) => line.place(),
        None => last,
    }
}

/// Reads the configuration of a scene.
#[tactic(auto, using(crate::proofs::EachLine::group_within), unfolding(crate::specs::SceneConfig::config_of))]
pub(crate) fn read_config<'a>(
    alloc: Global,
    lines: Lines<'a>,
) -> Result<(File, Lines<'a>), SceneFault>
    ensures { Gives result (spec.config_of lines.entry) }
{
    let (all, last) = lines.into_parts();
    let (group, others) = all.split_at(config_count(all));
    let texts = read_each(alloc, &ConfigLine, group)?;
    let text = joined(alloc, texts.as_slice())?;
    match file_in(alloc, &text)? {
        Ok(file) => Ok((file, Lines::from_parts(others, last))),
        Err(number) => Err(SceneFault::Malformed {
            place: place_behind(number.saturating_sub(1), all, last),
        }),
    }
}
