//! Laws: what holds of the definitions that contracts speak of. Each is the contract of a function without a body.

mod trees;

pub use trees::nothing_stands_below_a_file;
