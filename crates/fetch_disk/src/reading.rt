//! Reading the records of a journal's bytes.

ghost use Rattle.std.specs.Prelude.{◌≡◌, ◌≢◌, ◌<◌, ◌≤◌, ◌∷◌, ◌++◌, length, take, drop, Some, None, MatchOption, IfSome, MatchResult, IfOk, IfErr, IsTrue, ◌↔◌, List as Items, ℕ};
ghost use Rattle.std.specs.Int.{w64, from_be_bytes};
ghost use Rattle.fetch_base.specs.Id.{byte_len};
ghost use Rattle.fetch_disk.specs.Reading.{first, frame};
ghost use Rattle.fetch_disk.specs.Records as spec;
ghost use Rattle.fetch_disk.specs.Records.{front, IsRead, IsForeign, IsUnread};

use crate::journal_error::JournalError;
use crate::record::Record;
use fetch_base::{Kind, List, Text, digest};
use std::alloc::Global;

const MARK: &[u8] = b"bagjulen";

/// What a journal stands for.
// Not copied: it is the answer of one reading, given to its caller.
#[derive(Debug, Drop)]
pub struct Recovered {
    /// The records, in order.
    pub records: List<Record>,
    /// The place of the closed gate behind them.
    pub end: usize,
}

/// The bytes behind the mark and the version.
#[tactic(auto, unfolding(crate::specs::Records::front))]
fn behind_front(bytes: &[u8]) -> Result<&[u8], JournalError>
    ensures rest { IfOk result (λ rest. bytes.now ≡ front ++ rest.now) }
    ensures cause { IfErr result (IsForeign bytes.now) }
{
    let Some([version, rest @ ..]) = bytes.strip_prefix(MARK) else {
        return Err(JournalError::NotARepository);
    };
    if *version != 1 {
        return Err(JournalError::Version { found: *version });
    }
    Ok(rest)
}

/// Whether a gate stands in front that isn't open.
fn begins_shut(bytes: &[u8]) -> bool
    ensures { result ≡ spec.is_shut bytes.now }
{
    match bytes {
        [gate, ..] => *gate != 1,
        [] => false,
    }
}

/// The length of a body, of bytes that begin with a kind and this length.
fn body_len(bytes: &[u8]) -> usize
    requires { 9 ≤ length bytes.now }
    ensures { result ≡ from_be_bytes w64 (take 8 (drop 1 bytes.now)) }
{
    let (_, lengths) = bytes.split_at(1);
    let (front, _) = lengths.split_at(8);
    u64::from_be_bytes([
        front[0], front[1], front[2], front[3], front[4], front[5], front[6], front[7],
    ]) as usize
}

/// The first record's message and digest, and the bytes behind it, if its gate is open and it is whole.
#[tactic(auto, unfolding(crate::specs::Reading::frame))]
fn first_frame(digest_len: usize, bytes: &[u8]) -> Option<(&[u8], &[u8], &[u8])>
    ensures found { MatchOption result (frame digest_len bytes.now ≡ None)
        (λ x. frame digest_len bytes.now ≡ Some ((x.0.now, x.1.now), x.2.now)) }
    ensures long { IfSome result (λ x. 9 ≤ length x.0.now) }
{
    let [1, bytes @ ..] = bytes else {
        return None;
    };
    if bytes.len() < 9 {
        return None;
    }
    let len = body_len(bytes);
    let room = bytes.len() - 9;
    if room < len {
        return None;
    }
    if room - len < digest_len {
        return None;
    }
    let (message, rest) = bytes.split_at(9 + len);
    let (sum, rest) = rest.split_at(digest_len);
    Some((message, sum, rest))
}

/// The first record, its kind and body, and the bytes behind it. None where its gate isn't open, where it is cut short, and
/// where its digest is another.
#[tactic(auto, unfolding(crate::specs::Reading::first))]
fn first_record(hash: Kind, bytes: &[u8]) -> Option<(u8, &[u8], &[u8])>
    ensures { MatchOption result (first hash bytes.now ≡ None)
        (λ x. first hash bytes.now ≡ Some (record { kind = x.0; body = x.1.now }, x.2.now)) }
{
    let Some((message, sum, rest)) = first_frame(hash.len_in_bytes(), bytes) else {
        return None;
    };
    if digest(hash, message).as_bytes() != sum {
        return None;
    }
    Some((message[0], &message[9..], rest))
}

/// The records of a journal's bytes, which are of this hash. The only error but for those of the bytes is out of memory.
pub fn read_records(alloc: Global, hash: Kind, bytes: &[u8]) -> Result<Recovered, JournalError>
    ensures read { IfOk result (λ r. IsRead hash bytes.now r.records r.end) }
    ensures cause { IfErr result (IsUnread hash bytes.now) }
{
    let mut rest = behind_front(bytes)?;
    let mut records = List::new(alloc);
    while let Some((kind, body, after)) = first_record(hash, rest) {
        let body = Text::new(alloc, body)?;
        records.push(Record { kind, body })?;
        rest = after;
    }
    let end = bytes.len() - rest.len();
    if !begins_shut(rest) {
        return Err(JournalError::Damaged { place: end as u64 });
    }
    Ok(Recovered { records, end })
}
