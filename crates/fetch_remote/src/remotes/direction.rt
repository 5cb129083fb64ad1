//! Fetching or pushing.

pub use fetch_lookup::Direction;
