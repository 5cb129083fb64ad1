//! The requests of a fetch.

ghost use Rattle.std.specs.Prelude.{◌≡◌, ◌∷◌, ◌++◌, map, IfOk, OnOk};
ghost use Rattle.fetch_lines.specs.Greetings.{offers};
ghost use Rattle.fetch_lines.specs.RequestWords.{agent_word, agent_is, format_word, format_is};
ghost use Rattle.fetch_lines.specs.Requests.{parameter_text, parameters_text, first_line, agent_text, text_line, sent, when, kind_text};
ghost use Rattle.fetch_lines.specs.Requests.{head_texts, listing_word, detail_texts, prefix_text, listing_lines};

use crate::greetings::handshake::Handshake;
use crate::lines::line::Line;
use fetch_base::{Kind, NoMemory, Text};
use std::alloc::Global;

/// Appends `name` or `name=value`, with a NUL after it.
fn append_parameter(out: &mut Vec<u8>, parameter: &(Text, Option<Text>)) -> Result<(), NoMemory>
    ensures { OnOk result (out.new.items ≡ out.old.items ++ parameter_text parameter.now) }
{
    out.extend_from_slice(parameter.0.as_bytes())?;
    if let Some(value) = &parameter.1 {
        out.extend_from_slice(b"=")?;
        out.extend_from_slice(value.as_bytes())?;
    }
    out.extend_from_slice(b"\0")?;
    Ok(())
}

/// The first line of a conversation, without a line feed: which repository, the version, and the parameters.
#[tactic(auto, unfolding(crate::specs::Requests::first_line))]
pub fn first_line(
    alloc: Global,
    address: &[u8],
    parameters: &[(Text, Option<Text>)],
) -> Result<Line, NoMemory>
    ensures { IfOk result (λ line. line ≡ first_line address.now parameters.now) }
{
    let mut out = Vec::new(alloc);
    out.extend_from_slice(b"git-upload-pack ")?;
    out.extend_from_slice(address)?;
    out.extend_from_slice(b"\0\0version=2\0")?;
    append_parameters(&mut out, parameters)?;
    Ok(Line::Payload(Text::from(out)))
}

fn append_parameters(out: &mut Vec<u8>, parameters: &[(Text, Option<Text>)]) -> Result<(), NoMemory>
    ensures { OnOk result (out.new.items ≡ out.old.items ++ parameters_text parameters.now) }
{
    for parameter in parameters {
        append_parameter(out, parameter)?;
    }
    Ok(())
}

/// The agent's text: `git/` is put before an agent that doesn't begin with it.
#[tactic(auto, unfolding(crate::specs::Requests::agent_text))]
pub fn agent_text(alloc: Global, agent: &[u8]) -> Result<Text, NoMemory>
    ensures { IfOk result (λ text. text ≡ agent_text agent.now) }
{
    if agent.starts_with(b"git/") {
        return Text::new(alloc, agent);
    }
    let mut text = Vec::from_slice(alloc, b"git/")?;
    text.extend_from_slice(agent)?;
    Ok(Text::from(text))
}

/// The text line of a word and what follows it.
pub(crate) fn text_line(alloc: Global, word: &[u8], value: &[u8]) -> Result<Line, NoMemory>
    ensures { IfOk result (λ line. line ≡ text_line (word.now ++ value.now)) }
{
    let mut text = Vec::from_slice(alloc, word)?;
    text.extend_from_slice(value)?;
    text.extend_from_slice(b"\n")?;
    Ok(Line::Payload(Text::from(text)))
}

/// The word of a hash.
#[tactic(auto, unfolding(crate::specs::Requests::kind_text))]
fn kind_text(kind: Kind) -> &'static [u8]
    ensures { result.now ≡ kind_text kind }
{
    match kind {
        Kind::Sha1 => b"sha1",
        Kind::Sha256 => b"sha256",
    }
}

/// The text of a word and what follows it.
pub fn joined(alloc: Global, word: &[u8], rest: &[u8]) -> Result<Text, NoMemory>
    ensures { IfOk result (λ text. text ≡ word.now ++ rest.now) }
{
    let mut bytes = Vec::from_slice(alloc, word)?;
    bytes.extend_from_slice(rest)?;
    Ok(Text::from(bytes))
}

/// Appends the text of a word and what follows it, where the condition holds.
pub fn append_when(
    alloc: Global,
    texts: &mut Vec<Text>,
    condition: bool,
    word: &[u8],
    rest: &[u8],
) -> Result<(), NoMemory>
    ensures { OnOk result (texts.new.items ≡ texts.old.items ++ when condition (word.now ++ rest.now)) }
{
    if condition {
        texts.push(joined(alloc, word, rest)?)?;
    }
    Ok(())
}

#[tactic(auto, unfolding(crate::specs::RequestWords::agent_word, crate::specs::RequestWords::agent_is))]
fn append_agent(
    alloc: Global,
    texts: &mut Vec<Text>,
    handshake: &Handshake,
    agent: &[u8],
) -> Result<(), NoMemory>
    ensures { OnOk result (texts.new.items ≡ texts.old.items
        ++ when (offers agent_word handshake.now.capabilities) (agent_is ++ agent_text agent.now)) }
{
    let agent = agent_text(alloc, agent)?;
    append_when(
        alloc,
        texts,
        handshake.offers(b"agent"),
        b"agent=",
        agent.as_bytes(),
    )
}

#[tactic(auto, unfolding(crate::specs::RequestWords::format_word, crate::specs::RequestWords::format_is))]
fn append_format(
    alloc: Global,
    texts: &mut Vec<Text>,
    handshake: &Handshake,
) -> Result<(), NoMemory>
    ensures { OnOk result (texts.new.items ≡ texts.old.items
        ++ when (offers format_word handshake.now.capabilities) (format_is ++ kind_text handshake.now.object_hash)) }
{
    let offered = handshake.offers(b"object-format");
    append_when(
        alloc,
        texts,
        offered,
        b"object-format=",
        kind_text(handshake.object_hash),
    )
}

/// Appends what each request tells of itself: agent and hash, where they are offered. `git/` is put before an agent that
/// doesn't begin with it.
pub fn append_head(
    alloc: Global,
    texts: &mut Vec<Text>,
    handshake: &Handshake,
    agent: &[u8],
) -> Result<(), NoMemory>
    ensures { OnOk result (texts.new.items ≡ texts.old.items ++ head_texts handshake.now agent.now) }
{
    append_agent(alloc, texts, handshake, agent)?;
    append_format(alloc, texts, handshake)
}

/// What stands before the delimiter of a listing request.
#[tactic(auto, unfolding(crate::specs::Requests::listing_word))]
fn listing_head(alloc: Global, handshake: &Handshake, agent: &[u8]) -> Result<Vec<Text>, NoMemory>
    ensures { IfOk result (λ texts. texts.items ≡ listing_word ∷ head_texts handshake.now agent.now) }
{
    let mut texts = Vec::new(alloc);
    texts.push(Text::new(alloc, b"command=ls-refs")?)?;
    append_head(alloc, &mut texts, handshake, agent)?;
    Ok(texts)
}

/// What it asks to be told of each reference.
#[tactic(auto, unfolding(crate::specs::Requests::detail_texts))]
fn details(alloc: Global, handshake: &Handshake) -> Result<Vec<Text>, NoMemory>
    ensures { IfOk result (λ texts. texts.items ≡ detail_texts handshake.now) }
{
    let mut texts = Vec::new(alloc);
    texts.push(Text::new(alloc, b"symrefs")?)?;
    texts.push(Text::new(alloc, b"peel")?)?;
    let unborn = handshake.supports(b"ls-refs", b"unborn");
    append_when(alloc, &mut texts, unborn, b"unborn", b"")?;
    Ok(texts)
}

#[tactic(auto, unfolding(crate::specs::Requests::prefix_text))]
fn prefix_text(alloc: Global, prefix: &[u8]) -> Result<Text, NoMemory>
    ensures { IfOk result (λ text. text ≡ prefix_text prefix.now) }
{
    joined(alloc, b"ref-prefix ", prefix)
}

fn append_prefixes(alloc: Global, texts: &mut Vec<Text>, prefixes: &[Text]) -> Result<(), NoMemory>
    ensures { OnOk result (texts.new.items ≡ texts.old.items ++ map prefix_text prefixes.now) }
{
    for prefix in prefixes {
        texts.push(prefix_text(alloc, prefix.as_bytes())?)?;
    }
    Ok(())
}

/// Appends each text as a line.
pub(crate) fn append_texts(
    alloc: Global,
    lines: &mut Vec<Line>,
    texts: &[Text],
) -> Result<(), NoMemory>
    ensures { OnOk result (lines.new.items ≡ lines.old.items ++ sent texts.now) }
{
    for text in texts {
        lines.push(text_line(alloc, b"", text.as_bytes())?)?;
    }
    Ok(())
}

/// The request for the references, of these prefixes alone where there are some.
pub fn listing_request(
    alloc: Global,
    handshake: &Handshake,
    agent: &[u8],
    prefixes: &[Text],
) -> Result<Vec<Line>, NoMemory>
    ensures { IfOk result (λ lines. lines.items ≡ listing_lines handshake.now agent.now prefixes.now) }
{
    let head = listing_head(alloc, handshake, agent)?;
    let mut asked = details(alloc, handshake)?;
    append_prefixes(alloc, &mut asked, prefixes)?;
    let mut lines = Vec::new(alloc);
    append_texts(alloc, &mut lines, &head)?;
    lines.push(Line::Delim)?;
    append_texts(alloc, &mut lines, &asked)?;
    lines.push(Line::Flush)?;
    Ok(lines)
}
