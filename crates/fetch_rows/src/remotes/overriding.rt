//! Overrides of a repository's configuration.

use super::opening::{config_of, tell_overridden};
use super::remote_case::RemoteCase;
use fetch_store::{NoMemory, Text};
use rows::split_word;
use std::alloc::Global;

/// The overrides that these words are.
fn overrides_of(alloc: Global, text: &[u8]) -> Result<Vec<Text>, NoMemory> {
    let mut overrides = Vec::new(alloc);
    let mut rest = text;
    for _ in 0..text.len() {
        if rest.is_empty() {
            break;
        }
        let (word, behind) = split_word(rest);
        overrides.push(Text::new(alloc, word)?)?;
        rest = behind;
    }
    Ok(overrides)
}

/// Opens a repository with these overrides, and tells its remotes. Whether its configuration is one.
pub(crate) fn tell(
    alloc: Global,
    remote_case: &RemoteCase,
    words: &[u8],
    out: &mut Vec<u8>,
) -> Result<bool, NoMemory> {
    let Some(config) = config_of(alloc, remote_case.config.as_slice())? else {
        return Ok(false);
    };
    let overrides = overrides_of(alloc, words)?;
    tell_overridden(alloc, config, remote_case.is_lenient, overrides, out)?;
    Ok(true)
}
