//! What a disk in memory does with its file, and what it remembers.

ghost use Rattle.std.specs.Prelude.{◌≡◌, ◌⊎◌, ◌∷◌, ◌≤◌, length, take, drop, reverse, OnOk, OnErr, IfOk};
ghost use Rattle.fetch_base.specs.Faults.{counted};
ghost use Rattle.fetch_disk.specs.Disk.{overwritten, IsPiece, HasCause};
ghost use Rattle.fetch_disk.specs.declared.call.Call.TheVariants as kinds;

use crate::call::Call;
use crate::disk_error::DiskError;
use fetch_base::{Calls, NoMemory, ObjectId, Text, copy_from};
use std::alloc::Global;

/// Counts a call, which fails where it is listed.
pub(crate) fn admit(refused: &mut Calls, failed: &mut u64) -> Result<(), DiskError>
    ensures { HasCause (counted failed.old) (counted failed.new) result }
{
    if refused.count() {
        *failed = failed.saturating_add(1);
        return Err(DiskError::Failed);
    }
    Ok(())
}

/// Remembers a call.
fn note(calls: &mut Vec<Call>, call: Call) -> Result<(), NoMemory>
    ensures ok { OnOk result (reverse calls.new.items ≡ call ∷ reverse calls.old.items) }
    ensures err { OnErr result (reverse calls.new.items ≡ reverse calls.old.items) }
{
    calls.push(call)?;
    Ok(())
}

/// Copies bytes from a place on to the front of a buffer, as far as they go, and tells how many.
pub(crate) fn read_file(file: &[u8], at: usize, into: &mut [u8]) -> usize
    ensures bytes { IsPiece (drop at file.now) result into.new }
    ensures end { result ≡ 0 → (length file.now ≤ at) ⊎ (length into.new ≡ 0) }
{
    if at >= file.len() {
        return 0;
    }
    copy_from(file, at, into)
}

/// The bytes with these over what stood at a place, and past the end.
fn with_bytes(alloc: Global, file: &[u8], at: usize, bytes: &[u8]) -> Result<Vec<u8>, NoMemory>
    requires { at ≤ length file.now }
    ensures { IfOk result (λ next. next.items ≡ overwritten at bytes.now file.now) }
{
    let mut next = file[..at].to_vec(alloc)?;
    next.extend_from_slice(bytes)?;
    if bytes.len() < file.len() - at {
        next.extend_from_slice(&file[at + bytes.len()..])?;
    }
    Ok(next)
}

/// Writes into the file, and remembers it.
pub(crate) fn write_file(
    alloc: Global,
    file: &mut Vec<u8>,
    calls: &mut Vec<Call>,
    at: usize,
    bytes: &[u8],
) -> Result<(), NoMemory>
    requires { at ≤ length file.old.items }
    ensures written { OnOk result (file.new.items ≡ overwritten at bytes.now file.old.items) }
    ensures noted { OnOk result (reverse calls.new.items ≡ kinds.Write at bytes.now ∷ reverse calls.old.items) }
    ensures err { OnErr result (reverse calls.new.items ≡ reverse calls.old.items) }
{
    let next = with_bytes(alloc, file, at, bytes)?;
    let bytes = Text::new(alloc, bytes)?;
    note(calls, Call::Write { at, bytes })?;
    *file = next;
    Ok(())
}

/// Cuts the file, and remembers it.
pub(crate) fn cut_file(
    file: &mut Vec<u8>,
    calls: &mut Vec<Call>,
    len: usize,
) -> Result<(), NoMemory>
    requires { len ≤ length file.old.items }
    ensures cut { OnOk result (file.new.items ≡ take len file.old.items) }
    ensures noted { OnOk result (reverse calls.new.items ≡ kinds.Cut len ∷ reverse calls.old.items) }
    ensures err { OnErr result (reverse calls.new.items ≡ reverse calls.old.items) }
{
    note(calls, Call::Cut { len })?;
    file.truncate(len);
    Ok(())
}

/// Remembers what the file has, as what a crash leaves.
pub(crate) fn sync_file(alloc: Global, file: &[u8], calls: &mut Vec<Call>) -> Result<(), NoMemory>
    ensures noted { OnOk result (reverse calls.new.items ≡ kinds.Sync file.now ∷ reverse calls.old.items) }
    ensures err { OnErr result (reverse calls.new.items ≡ reverse calls.old.items) }
{
    let bytes = Text::new(alloc, file)?;
    note(calls, Call::Sync { bytes })
}

/// Puts other bytes in the file's place, and remembers it.
pub(crate) fn replace_file(
    alloc: Global,
    file: &mut Vec<u8>,
    calls: &mut Vec<Call>,
    bytes: &[u8],
) -> Result<(), NoMemory>
    ensures replaced { OnOk result (file.new.items ≡ bytes.now) }
    ensures noted { OnOk result (reverse calls.new.items ≡ kinds.Replace bytes.now ∷ reverse calls.old.items) }
    ensures err { OnErr result (reverse calls.new.items ≡ reverse calls.old.items) }
{
    let next = bytes.to_vec(alloc)?;
    let bytes = Text::new(alloc, bytes)?;
    note(calls, Call::Replace { bytes })?;
    *file = next;
    Ok(())
}

/// Remembers a pack that is put.
pub(crate) fn put_pack(
    alloc: Global,
    calls: &mut Vec<Call>,
    name: &ObjectId,
    bytes: &[u8],
) -> Result<(), NoMemory>
    ensures noted { OnOk result (reverse calls.new.items ≡ kinds.Put name.now bytes.now ∷ reverse calls.old.items) }
    ensures err { OnErr result (reverse calls.new.items ≡ reverse calls.old.items) }
{
    let bytes = Text::new(alloc, bytes)?;
    note(calls, Call::Put { name: *name, bytes })
}

/// Remembers a pack that is removed.
pub(crate) fn remove_pack(calls: &mut Vec<Call>, name: &ObjectId) -> Result<(), NoMemory>
    ensures noted { OnOk result (reverse calls.new.items ≡ kinds.Remove name.now ∷ reverse calls.old.items) }
    ensures err { OnErr result (reverse calls.new.items ≡ reverse calls.old.items) }
{
    note(calls, Call::Remove { name: *name })
}
