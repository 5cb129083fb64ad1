//! Parts of a text that are copied into a caller's buffer.

ghost use Rattle.std.specs.Prelude.{◌≡◌, ◌≤◌, ◌+◌, ◌-◌, ◌++◌, min, length, take, drop};

/// Copies what follows this place to the front of `into`, as far as it fits, and tells how many bytes that were. What stands
/// in `into` after them stays.
pub fn copy_from(bytes: &[u8], place: usize, into: &mut [u8]) -> usize
    requires { place ≤ length bytes.now }
    ensures count { result ≡ min (length into.new) (length bytes.now - place) }
    ensures copied { drop place bytes.now ≡ take result into.new ++ drop (place + result) bytes.now }
    ensures rest { drop result into.new ≡ drop result into.old }
{
    let count = into.len().min(bytes.len() - place);
    into[..count].copy_from_slice(&bytes[place..place + count]);
    count
}
