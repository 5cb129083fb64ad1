//! The bytes of records.

ghost use Rattle.std.specs.Prelude.{◌≡◌, ◌++◌, [], ◌∷◌, OnOk, IfOk};
ghost use Rattle.fetch_disk.specs.Records.{front, payload, journal_of};

use crate::record::Record;
use fetch_base::{Kind, NoMemory, digest};
use std::alloc::Global;

/// Puts what stands of a record behind its gate after what is there: kind, length, body and digest.
#[tactic(auto, unfolding(crate::specs::Records::payload, crate::specs::Records::message))]
fn put_payload(out: &mut Vec<u8>, hash: Kind, kind: u8, body: &[u8]) -> Result<(), NoMemory>
    ensures { OnOk result (out.new.items ≡ out.old.items ++ payload hash (record { kind = kind; body = body.now })) }
{
    let start = out.len();
    out.push(kind)?;
    out.extend_from_slice(&(body.len() as u64).to_be_bytes())?;
    out.extend_from_slice(body)?;
    let sum = digest(hash, &out[start..]);
    out.extend_from_slice(sum.as_bytes())?;
    Ok(())
}

/// What is written behind a closed gate to add a record, and behind it the next closed gate.
pub(crate) fn spell(alloc: Global, hash: Kind, kind: u8, body: &[u8]) -> Result<Vec<u8>, NoMemory>
    ensures { IfOk result (λ bytes. bytes.items ≡ payload hash (record { kind = kind; body = body.now }) ++ 0 ∷ []) }
{
    let mut out = Vec::new(alloc);
    put_payload(&mut out, hash, kind, body)?;
    out.push(0)?;
    Ok(out)
}

/// What each journal begins with.
#[tactic(auto, unfolding(crate::specs::Records::front))]
fn begun(alloc: Global) -> Result<Vec<u8>, NoMemory>
    ensures { IfOk result (λ bytes. bytes.items ≡ front) }
{
    Ok(Vec::from_slice(alloc, b"bagjulen\x01")?)
}

/// Puts a record behind what is there, with an open gate.
fn put_record(out: &mut Vec<u8>, hash: Kind, entry: &Record) -> Result<(), NoMemory>
    ensures { OnOk result (out.new.items ≡ out.old.items ++ 1 ∷ payload hash entry.now) }
{
    out.push(1)?;
    put_payload(out, hash, entry.kind, entry.body.as_bytes())
}

/// The journal of these records.
pub(crate) fn spell_all(alloc: Global, hash: Kind, records: &[Record]) -> Result<Vec<u8>, NoMemory>
    ensures { IfOk result (λ bytes. bytes.items ≡ journal_of hash records.now) }
{
    let mut out = begun(alloc)?;
    for record in records {
        put_record(&mut out, hash, record)?;
    }
    out.push(0)?;
    Ok(out)
}
