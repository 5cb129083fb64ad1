//! Words for hashes and for kinds of objects.

use fetch_store::{Kind, ObjectKind};

/// `sha1` or `sha256`.
pub fn hash_of(word: &[u8]) -> Option<Kind> {
    if word == b"sha1".as_slice() {
        Some(Kind::Sha1)
    } else if word == b"sha256".as_slice() {
        Some(Kind::Sha256)
    } else {
        None
    }
}

/// The kind of object that has this name.
pub fn object_kind_of(word: &[u8]) -> Option<ObjectKind> {
    for kind in [
        ObjectKind::Commit,
        ObjectKind::Tree,
        ObjectKind::Blob,
        ObjectKind::Tag,
    ] {
        if word == kind.name() {
            return Some(kind);
        }
    }
    None
}
