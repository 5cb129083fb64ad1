//! Words for what refspecs are for.

use fetch_specs::Operation;

pub(crate) fn operation_of(word: &[u8]) -> Option<Operation> {
    if word == b"fetch".as_slice() {
        Some(Operation::Fetch)
    } else if word == b"push".as_slice() {
        Some(Operation::Push)
    } else {
        None
    }
}
