//! What of a first line can't be sent.

ghost use Rattle.std.specs.Prelude.{◌≡◌, ◌++◌, ◌∷◌, [], map, IfOk, OnOk, None, Some, position};
ghost use Rattle.std.specs.Option.{option_map};
ghost use Rattle.fetch_wire.specs.Parameters.{divides, bad_in, first_bad, texts_told, told_parameter};

use fetch_base::{NoMemory, Text};
use fetch_lines::agent_text;
use std::alloc::Global;

/// Whether the byte divides what is sent: NUL or a line feed.
fn divides(byte: u8) -> bool
    ensures { result ≡ divides byte }
{
    byte == 0 || byte == b'\n'
}

/// The place of the first byte of a text that can't be sent.
fn bad_place(text: &[u8]) -> Option<usize>
    ensures { result ≡ position divides text.now }
{
    text.iter().position(|byte| divides(*byte))
}

/// `name` or `name=value`.
fn told(alloc: Global, parameter: &(Text, Option<Text>)) -> Result<Text, NoMemory>
    ensures { IfOk result (λ text. text ≡ told_parameter parameter.now) }
{
    let mut text = Vec::from_slice(alloc, parameter.0.as_bytes())?;
    if let Some(value) = &parameter.1 {
        text.extend_from_slice(b"=")?;
        text.extend_from_slice(value.as_bytes())?;
    }
    Ok(Text::from(text))
}

/// Appends the text of each parameter.
fn append_told(
    alloc: Global,
    texts: &mut Vec<Text>,
    parameters: &[(Text, Option<Text>)],
) -> Result<(), NoMemory>
    ensures { OnOk result (texts.new.items ≡ texts.old.items ++ map told_parameter parameters.now) }
{
    for parameter in parameters {
        texts.push(told(alloc, parameter)?)?;
    }
    Ok(())
}

/// What is sent first: the address, then each parameter, then the agent with `git/` before it.
fn texts_told(
    alloc: Global,
    address: &[u8],
    parameters: &[(Text, Option<Text>)],
    agent: &[u8],
) -> Result<Vec<Text>, NoMemory>
    ensures { IfOk result (λ texts. texts.items ≡ texts_told address.now parameters.now agent.now) }
{
    let mut texts = Vec::new(alloc);
    texts.push(Text::new(alloc, address)?)?;
    append_told(alloc, &mut texts, parameters)?;
    texts.push(agent_text(alloc, agent)?)?;
    Ok(texts)
}

/// The text, where it can't be sent, and the place of its first byte that can't.
fn bad_in(text: &Text) -> Result<Option<(Text, usize)>, NoMemory>
    ensures { IfOk result (λ bad. bad ≡ bad_in text.now) }
{
    match bad_place(text.as_bytes()) {
        Some(place) => Ok(Some((text.try_clone()?, place))),
        None => Ok(None),
    }
}

/// The first of the texts that can't be sent.
fn first_of(texts: &[Text]) -> Result<Option<(Text, usize)>, NoMemory>
    ensures { IfOk result (λ bad. bad ≡ first_bad texts.now) }
{
    for text in texts {
        let bad = bad_in(text)?;
        if bad.is_some() {
            return Ok(bad);
        }
    }
    Ok(None)
}

/// The first text of a first line that can't be sent, and the place of its first byte that can't.
pub(crate) fn first_bad(
    alloc: Global,
    address: &[u8],
    parameters: &[(Text, Option<Text>)],
    agent: &[u8],
) -> Result<Option<(Text, usize)>, NoMemory>
    ensures { IfOk result (λ bad. bad ≡ first_bad (texts_told address.now parameters.now agent.now)) }
{
    let texts = texts_told(alloc, address, parameters, agent)?;
    first_of(&texts)
}
