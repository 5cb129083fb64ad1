//! The versions of the plain pack.

/// A version of the plain pack. Both are read, whichever was asked for.
#[derive(Clone, Copy, Debug, PartialEq, Eq)]
pub enum PackVersion {
    /// Lengths of four bytes, and no ids: payloads have fewer than 2^32 bytes.
    V1,
    /// Lengths of eight bytes, and each object's id before its payload: payloads have fewer than 2^63 bytes.
    V2,
}
