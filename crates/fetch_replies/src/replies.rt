//! Replies: what is awaited, and what it tells.

pub mod fetch_reply;
pub mod haves;
pub mod parser;
pub mod progress;
pub mod reply;
pub mod reply_buffer;
pub mod reply_reader;
pub mod saying;
