//! A server: what it says, as lines.

pub mod advertising;
pub mod reply_lines;
pub mod server_lines;
