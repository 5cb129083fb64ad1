//! Where an object stands in a buffer.

use fetch_base::ObjectKind;

/// An object's kind, and its bytes' place in a buffer.
#[derive(Clone, Copy, Debug)]
pub(crate) struct Span {
    /// What kind of object it is.
    pub kind: ObjectKind,
    /// The index of the first byte.
    pub start: usize,
    /// How many bytes there are.
    pub length: usize,
}
