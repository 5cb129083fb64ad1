//! The ids of objects, by their hash.

ghost use Rattle.std.specs.Prelude.{◌≡◌};
ghost use Rattle.fetch_base.specs.Hashing as spec;

use crate::id::{Kind, ObjectId};
use crate::object_kind::ObjectKind;
use itoa::Buffer;
use sha1::Sha1;
use sha2::{Digest, Sha256};

/// The id of an object: the hash of its kind, its length and its bytes.
pub fn id_of(kind: Kind, object_kind: ObjectKind, bytes: &[u8]) -> ObjectId
    ensures { result ≡ spec.id_of kind object_kind bytes.now }
{
    let mut buffer = Buffer::new();
    let length = buffer.format(bytes.len()).as_bytes();
    let name = object_kind.name();
    match kind {
        Kind::Sha1 => {
            let mut hasher = Sha1::new();
            hasher.update(name);
            hasher.update(b" ");
            hasher.update(length);
            hasher.update(b"\0");
            hasher.update(bytes);
            ObjectId::Sha1(hasher.finalize())
        }
        Kind::Sha256 => {
            let mut hasher = Sha256::new();
            hasher.update(name);
            hasher.update(b" ");
            hasher.update(length);
            hasher.update(b"\0");
            hasher.update(bytes);
            ObjectId::Sha256(hasher.finalize())
        }
    }
}

/// The hash of a message.
pub fn digest(kind: Kind, message: &[u8]) -> ObjectId
    ensures { result ≡ spec.digest kind message.now }
{
    match kind {
        Kind::Sha1 => ObjectId::Sha1(Sha1::digest(message)),
        Kind::Sha256 => ObjectId::Sha256(Sha256::digest(message)),
    }
}
