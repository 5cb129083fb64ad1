//! Where a row's input comes from, and where what it writes goes.

ghost use Rattle.std.specs.Prelude.{false, None};

use fetch_cli::{MemorySink, MemorySource, Sink};
use fetch_store::{NoMemory, Text, after, decimal, split_first};
use fetch_wire::SendFault;
use rows::split_word;
use std::alloc::Global;

/// Which call of a source or a sink fails.
#[derive(Clone, Copy)]
pub(crate) enum Fault {
    Never,
    /// The call with this number, counted from 0.
    Call(u64),
    /// Each call of a sink that has no memory.
    Full,
}

/// How the source and the sink of a row fail.
#[derive(Clone, Copy)]
pub(crate) struct Faults {
    pub(crate) source: Fault,
    pub(crate) sink: Fault,
}

/// Neither fails.
pub(crate) const NO_FAULTS: Faults = Faults {
    source: Fault::Never,
    sink: Fault::Never,
};

/// How a source fails, as a row names it.
fn source_fault(word: &[u8]) -> Option<Fault> {
    if word == b"-".as_slice() {
        Some(Fault::Never)
    } else {
        Some(Fault::Call(decimal(word)?))
    }
}

/// How a sink fails, as a row names it.
fn sink_fault(word: &[u8]) -> Option<Fault> {
    if word == b"full".as_slice() {
        Some(Fault::Full)
    } else {
        source_fault(word)
    }
}

/// What the line `ends <source> <sink>` of a row says, where it has one.
pub(crate) fn faults_of(lines: &[u8]) -> Option<Faults> {
    if lines.is_empty() {
        return Some(NO_FAULTS);
    }
    let (words, _) = split_first(b'\n', after(b"ends ", lines)?)?;
    let (source, sink) = split_word(words);
    Some(Faults {
        source: source_fault(source)?,
        sink: sink_fault(sink)?,
    })
}

/// A sink that has no memory.
#[derive(Drop)]
pub(crate) struct Full;

impl Sink for Full {
    ghost taken = { λ _. None };

    ghost faults = { λ _. record { count = 0; possible = false } };

    fn write_all(&mut self, _bytes: &[u8]) -> Result<(), SendFault> {
        Err(SendFault::NoMemory)
    }
}

/// The call that fails, or none.
fn failing(alloc: Global, fault: Fault) -> Result<Vec<u64>, NoMemory> {
    let mut calls = Vec::new(alloc);
    if let Fault::Call(number) = fault {
        calls.push(number)?;
    }
    Ok(calls)
}

/// A source of these bytes.
pub(crate) fn source_of(
    alloc: Global,
    bytes: &[u8],
    fault: Fault,
) -> Result<MemorySource, NoMemory> {
    let calls = failing(alloc, fault)?;
    Ok(MemorySource::new(Text::new(alloc, bytes)?, calls))
}

pub(crate) fn sink_of(alloc: Global, fault: Fault) -> Result<MemorySink, NoMemory> {
    Ok(MemorySink::new(alloc, failing(alloc, fault)?))
}
