//! Texts, lists and ids, and the words that the crates above share.
#![tactic(auto)]

mod appending;
mod calls;
mod cloning;
mod copying;
mod counter;
mod digits;
mod distinct;
mod error;
mod failed;
mod hashing;
mod hex_digits;
mod id;
pub mod laws;
mod list;
mod object_kind;
mod scan;
mod text;

pub use appending::{append_hex, append_number};
pub use calls::Calls;
pub use cloning::{TryClone, copy_slice};
pub use copying::copy_from;
pub use counter::Steps;
pub use digits::{decimal, is_decimal};
pub use distinct::{Distinct, Keyed};
pub use error::{NoMemory, StoreError};
pub use failed::Failed;
pub use hashing::{digest, id_of};
pub use id::{Kind, ObjectId, same_id};
pub use list::List;
pub use object_kind::ObjectKind;
pub use scan::{LF, NUL, SPACE, after, is_offset, seconds_in, split_first, split_last};
pub use text::Text;
