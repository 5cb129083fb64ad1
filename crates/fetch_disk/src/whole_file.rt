//! The journal's file, read in pieces.

ghost use Rattle.std.specs.Prelude.{◌≡◌, ◌<◌, Ok, true, false, length, IfOk};
ghost use Rattle.fetch_disk.specs.Disk.{IsFront, NoOther, LeavesOnly, HasCause};

use crate::device::Device;
use crate::disk_error::DiskError;
use fetch_base::NoMemory;
use std::alloc::Global;

const PIECE: usize = 1 << 16;

/// Reads on behind the bytes that were read, and says whether there was more.
fn read_piece<D: Device>(
    disk: &mut D,
    bytes: &mut Vec<u8>,
    piece: &mut [u8],
) -> Result<bool, DiskError>
    requires front { IsFront bytes.old.items (D.seen disk.old).journal }
    requires room { 0 < length piece.old }
    ensures front { IfOk result (λ _. IsFront bytes.new.items (D.seen disk.old).journal) }
    ensures more { result ≡ Ok true → length bytes.old.items < length bytes.new.items }
    ensures end { result ≡ Ok false → bytes.new.items ≡ (D.seen disk.old).journal }
    ensures piece { length piece.new ≡ length piece.old }
    ensures seen { D.seen disk.new ≡ D.seen disk.old }
    ensures crash { NoOther (D.may_leave disk.old) (D.may_leave disk.new) }
    ensures any_moment { LeavesOnly D.moment D.left_since disk.old disk.new (D.may_leave disk.old) }
    ensures cause { HasCause (D.faults disk.old) (D.faults disk.new) result }
{
    let count = disk.read_at(bytes.len(), piece)?;
    if count == 0 {
        return Ok(false);
    }
    bytes.extend_from_slice(&piece[..count])?;
    Ok(true)
}

/// A buffer of this length.
fn buffer(alloc: Global, len: usize) -> Result<Vec<u8>, NoMemory>
    requires { 0 < len }
    ensures { IfOk result (λ buffer. 0 < length buffer.items) }
{
    Ok(vec![in alloc; 0; len]?)
}

/// The whole file. It changes nothing.
pub fn read_all<D: Device>(alloc: Global, disk: &mut D) -> Result<Vec<u8>, DiskError>
    ensures bytes { IfOk result (λ bytes. bytes.items ≡ (D.seen disk.old).journal) }
    ensures seen { D.seen disk.new ≡ D.seen disk.old }
    ensures crash { NoOther (D.may_leave disk.old) (D.may_leave disk.new) }
    ensures any_moment { LeavesOnly D.moment D.left_since disk.old disk.new (D.may_leave disk.old) }
    ensures cause { HasCause (D.faults disk.old) (D.faults disk.new) result }
{
    let mut bytes = Vec::new(alloc);
    let mut piece = buffer(alloc, PIECE)?;
    while read_piece(disk, &mut bytes, &mut piece)? {}
    Ok(bytes)
}
