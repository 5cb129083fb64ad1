//! Requests: what a fetch asks, as lines.

pub mod records;
pub mod request_lines;
pub mod request_parts;
