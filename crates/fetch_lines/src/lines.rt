//! Lines: how they are read from bytes, and written.

pub mod bound;
pub mod cutting;
pub mod line;
pub mod reader;
pub mod section;
pub mod text;
pub mod words;
pub mod write;
