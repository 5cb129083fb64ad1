//! The options of a scene.

ghost use Rattle.std.specs.Prelude.{◌≡◌, ◌∷◌, ◌++◌, [], Some, IfOk};
ghost use Rattle.fetch_scene.specs.SceneOptions as spec;

use crate::line_reader::ReadsLine;
use crate::lines::Placed;
use crate::names::partial_name;
use crate::numbers::{number, small_number};
use fetch_lines::ReplyBound;
use fetch_negotiate::{Depth, Shallow};
use fetch_specs::PartialName;
use fetch_store::{List, NoMemory, Text, split_first};
use fetch_update::RefLogMessage;
use std::alloc::Global;
use std::mem;

/// One option of a scene.
#[derive(Debug, Drop)]
pub(crate) enum SceneOption {
    DryRun,
    PackedOnly,
    NoFilter,
    Depth(Depth),
    Deepen(u32),
    Since(u64),
    Not(PartialName),
    Parameter(Text, Option<Text>),
    Bound(ReplyBound),
    Action(Text),
    Message(Text),
}

/// The options of a scene.
// Not copied: it is read from a text, which can be read again.
#[derive(Debug, Drop)]
pub struct SceneOptions {
    /// Whether nothing is to be changed.
    pub dry_run: bool,
    /// Whether references are written into the packed list.
    pub packed_only: bool,
    /// Whether the remote is asked for the references alone that the refspecs may match.
    pub filter: bool,
    /// What becomes of the border.
    pub shallow: Shallow,
    /// What the first line says besides the address, in order.
    pub parameters: List<(Text, Option<Text>)>,
    /// The most bytes of a reply.
    pub bound: ReplyBound,
    /// What the lines of reflogs say, where it isn't the usual.
    pub message: Option<RefLogMessage>,
}

#[tactic(auto, unfolding(crate::specs::SceneOptions::plain_option))]
fn plain(word: &[u8]) -> Option<SceneOption>
    ensures { result ≡ spec.plain_option word.now }
{
    if word == b"dry-run".as_slice() {
        Some(SceneOption::DryRun)
    } else if word == b"packed-only".as_slice() {
        Some(SceneOption::PackedOnly)
    } else if word == b"no-filter".as_slice() {
        Some(SceneOption::NoFilter)
    } else {
        None
    }
}

fn depth(text: &[u8]) -> Option<SceneOption>
    ensures { result ≡ spec.depth_in text.now }
{
    let n = small_number(text)?;
    match Depth::new(n) {
        Some(depth) => Some(SceneOption::Depth(depth)),
        None => None,
    }
}

fn bound(text: &[u8]) -> Option<SceneOption>
    ensures { result ≡ spec.bound_in text.now }
{
    let n = small_number(text)?;
    match ReplyBound::new(n) {
        Some(bound) => Some(SceneOption::Bound(bound)),
        None => None,
    }
}

fn deepen(text: &[u8]) -> Option<SceneOption>
    ensures { result ≡ spec.deepen_in text.now }
{
    match small_number(text) {
        Some(n) => Some(SceneOption::Deepen(n)),
        None => None,
    }
}

fn since(text: &[u8]) -> Option<SceneOption>
    ensures { result ≡ spec.since_in text.now }
{
    match number(text) {
        Some(n) => Some(SceneOption::Since(n)),
        None => None,
    }
}

fn excluded(alloc: Global, text: &[u8]) -> Result<Option<SceneOption>, NoMemory>
    ensures { IfOk result (λ found. found ≡ spec.not_in text.now) }
{
    match partial_name(alloc, text)? {
        Some(name) => Ok(Some(SceneOption::Not(name))),
        None => Ok(None),
    }
}

fn parameter_of(
    alloc: Global,
    name: &[u8],
    value: Option<Text>,
) -> Result<Option<SceneOption>, NoMemory>
    ensures { IfOk result (λ found. found ≡ spec.parameter_of name.now value) }
{
    if name.is_empty() {
        return Ok(None);
    }
    Ok(Some(SceneOption::Parameter(Text::new(alloc, name)?, value)))
}

fn parameter(alloc: Global, text: &[u8]) -> Result<Option<SceneOption>, NoMemory>
    ensures { IfOk result (λ found. found ≡ spec.parameter_in text.now) }
{
    match split_first(b'=', text) {
        Some((name, value)) => parameter_of(alloc, name, Some(Text::new(alloc, value)?)),
        None => parameter_of(alloc, text, None),
    }
}

#[tactic(auto, unfolding(crate::specs::SceneOptions::option_with))]
fn with_text(alloc: Global, word: &[u8], text: &[u8]) -> Result<Option<SceneOption>, NoMemory>
    ensures { IfOk result (λ found. found ≡ spec.option_with word.now text.now) }
{
    if word == b"depth".as_slice() {
        Ok(depth(text))
    } else if word == b"deepen".as_slice() {
        Ok(deepen(text))
    } else if word == b"since".as_slice() {
        Ok(since(text))
    } else if word == b"not".as_slice() {
        excluded(alloc, text)
    } else if word == b"parameter".as_slice() {
        parameter(alloc, text)
    } else if word == b"bound".as_slice() {
        Ok(bound(text))
    } else if word == b"action".as_slice() {
        Ok(Some(SceneOption::Action(Text::new(alloc, text)?)))
    } else if word == b"message".as_slice() {
        Ok(Some(SceneOption::Message(Text::new(alloc, text)?)))
    } else {
        Ok(None)
    }
}

#[tactic(auto, unfolding(crate::specs::SceneOptions::option_in))]
fn option_in(alloc: Global, text: &[u8]) -> Result<Option<SceneOption>, NoMemory>
    ensures { IfOk result (λ found. found ≡ spec.option_in text.now) }
{
    match split_first(b' ', text) {
        Some((word, text)) => with_text(alloc, word, text),
        None => Ok(plain(text)),
    }
}

/// A line that tells an option.
#[derive(Drop)]
pub(crate) struct OptionLine;

impl ReadsLine for OptionLine {
    type Item = SceneOption;

    ghost gives = { λ _. spec.option_of };

    #[tactic(auto, unfolding(crate::specs::SceneOptions::option_of))]
    fn read_line(&self, alloc: Global, line: &Placed<'_>) -> Result<Option<SceneOption>, NoMemory> {
        match line.value(b"option ") {
            Some(text) => option_in(alloc, text),
            None => Ok(None),
        }
    }
}

fn with_since(shallow: Shallow, n: u64) -> Shallow
    ensures { result ≡ spec.with_since n shallow }
{
    match shallow {
        Shallow::Exclude {
            remote_refs,
            since_cutoff: _,
        } => Shallow::Exclude {
            remote_refs,
            since_cutoff: Some(n),
        },
        Shallow::NoChange
        | Shallow::DepthAtRemote(_)
        | Shallow::Deepen(_)
        | Shallow::Since { cutoff: _ } => Shallow::Since { cutoff: n },
    }
}

fn one_name(alloc: Global, name: PartialName) -> Result<List<PartialName>, NoMemory>
    ensures { IfOk result (λ names. names ≡ name ∷ []) }
{
    let mut names = Vec::new(alloc);
    names.push(name)?;
    Ok(List::from(names))
}

fn with_name(alloc: Global, shallow: Shallow, name: PartialName) -> Result<Shallow, NoMemory>
    ensures { IfOk result (λ changed. changed ≡ spec.with_name name shallow) }
{
    match shallow {
        Shallow::Exclude {
            remote_refs,
            since_cutoff,
        } => {
            let mut names = remote_refs.into_vec();
            names.push(name)?;
            Ok(Shallow::Exclude {
                remote_refs: List::from(names),
                since_cutoff,
            })
        }
        Shallow::Since { cutoff } => Ok(Shallow::Exclude {
            remote_refs: one_name(alloc, name)?,
            since_cutoff: Some(cutoff),
        }),
        Shallow::NoChange | Shallow::DepthAtRemote(_) | Shallow::Deepen(_) => {
            Ok(Shallow::Exclude {
                remote_refs: one_name(alloc, name)?,
                since_cutoff: None,
            })
        }
    }
}

impl SceneOptions {
    /// As where no option is told.
    pub fn none(alloc: Global) -> SceneOptions
        ensures { result ≡ spec.no_options }
    {
        SceneOptions {
            dry_run: false,
            packed_only: false,
            filter: true,
            shallow: Shallow::NoChange,
            parameters: List::from(Vec::new(alloc)),
            bound: ReplyBound::default(),
            message: None,
        }
    }

    #[tactic(auto, unfolding(crate::specs::SceneOptions::with_option))]
    fn with(self, alloc: Global, option: SceneOption) -> Result<SceneOptions, NoMemory>
        ensures { IfOk result (λ options. options ≡ spec.with_option self option) }
    {
        match option {
            SceneOption::DryRun => Ok(SceneOptions {
                dry_run: true,
                ..self
            }),
            SceneOption::PackedOnly => Ok(SceneOptions {
                packed_only: true,
                ..self
            }),
            SceneOption::NoFilter => Ok(SceneOptions {
                filter: false,
                ..self
            }),
            SceneOption::Depth(depth) => Ok(self.with_shallow(Shallow::DepthAtRemote(depth))),
            SceneOption::Deepen(depth) => Ok(self.with_shallow(Shallow::Deepen(depth))),
            SceneOption::Since(cutoff) => Ok(self.with_since(cutoff)),
            SceneOption::Not(name) => self.with_name(alloc, name),
            SceneOption::Parameter(name, value) => self.with_parameter(name, value),
            SceneOption::Bound(bound) => Ok(SceneOptions { bound, ..self }),
            SceneOption::Action(action) => {
                Ok(self.with_message(RefLogMessage::Prefixed { action }))
            }
            SceneOption::Message(message) => {
                Ok(self.with_message(RefLogMessage::Override { message }))
            }
        }
    }

    fn with_shallow(self, shallow: Shallow) -> SceneOptions
        ensures { result ≡ record self { shallow = shallow } }
    {
        SceneOptions { shallow, ..self }
    }

    fn with_message(self, message: RefLogMessage) -> SceneOptions
        ensures { result ≡ record self { message = Some message } }
    {
        SceneOptions {
            message: Some(message),
            ..self
        }
    }

    fn with_since(self, cutoff: u64) -> SceneOptions
        ensures { result ≡ record self { shallow = spec.with_since cutoff self.shallow } }
    {
        let mut options = self;
        let shallow = mem::replace(&mut options.shallow, Shallow::NoChange);
        options.shallow = with_since(shallow, cutoff);
        options
    }

    fn with_name(self, alloc: Global, name: PartialName) -> Result<SceneOptions, NoMemory>
        ensures { IfOk result (λ options. options ≡ record self { shallow = spec.with_name name self.shallow }) }
    {
        let mut options = self;
        let shallow = mem::replace(&mut options.shallow, Shallow::NoChange);
        options.shallow = with_name(alloc, shallow, name)?;
        Ok(options)
    }

    fn with_parameter(self, name: Text, value: Option<Text>) -> Result<SceneOptions, NoMemory>
        ensures { IfOk result (λ options. options ≡ record self { parameters = self.parameters ++ (name, value) ∷ [] }) }
    {
        let mut options = self;
        options.parameters.push((name, value))?;
        Ok(options)
    }
}

/// What all options say.
pub(crate) fn scene_options(
    alloc: Global,
    options: List<SceneOption>,
) -> Result<SceneOptions, NoMemory>
    ensures { IfOk result (λ all. all ≡ spec.options_of options) }
{
    let mut all = SceneOptions::none(alloc);
    for option in options.into_vec() {
        all = all.with(alloc, option)?;
    }
    Ok(all)
}
