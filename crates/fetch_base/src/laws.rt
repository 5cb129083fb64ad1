//! Laws: what holds of the definitions that contracts speak of. Each is the contract of a function without a body.

mod pieces;

pub use pieces::{splits_exactly, splits_last_exactly};
