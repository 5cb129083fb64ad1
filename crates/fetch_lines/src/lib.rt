//! What passes between a fetch and its peer, line by line: lines, references, requests, and what a server writes.
#![tactic(auto)]

mod error;
mod greetings;
mod lines;
mod listings;
mod peer;
mod requests;
mod server;

pub use error::WireError;
pub use greetings::greeting::{hash_of, known_capability, says_version_2};
pub use greetings::handshake::{Capability, Handshake, Version};
pub use lines::bound::ReplyBound;
pub use lines::cutting::in_pieces;
pub use lines::line::{Line, LineRef};
pub use lines::reader::{LineReader, Need};
pub use lines::section::{LineError, line_in};
pub use lines::text::without_line_feed;
pub use lines::words::next_word;
pub use lines::write::{length_digits, write_line, write_lines};
pub use listings::reference::{Ref, Source};
pub use peer::{Interrupt, Peer, SendFault};
pub use requests::records::{FetchReply, Request};
pub use requests::request_parts::{
    agent_text, append_head, append_when, first_line, joined, listing_request,
};
pub use server::advertising::advertisement_lines;
pub use server::reply_lines::{last_lines, ready_lines};
pub use server::server_lines::{greeting_lines, listing_lines, round_lines};
