//! The session of a fetch with its peer, and the laws of lines, replies and sessions.
#![tactic(auto)]

pub mod laws;
mod session;

pub use fetch_lines::{
    Capability, FetchReply, Handshake, Interrupt, Line, LineError, LineReader, LineRef, Need, Peer,
    Ref, ReplyBound, Request, SendFault, Source, Version, WireError, advertisement_lines,
    agent_text, append_head, append_when, first_line, greeting_lines, in_pieces, joined,
    last_lines, length_digits, line_in, listing_lines, listing_request, ready_lines, round_lines,
    without_line_feed, write_line, write_lines,
};
pub use fetch_map::{Mapping, RefMap, SpecIndex};
pub use fetch_replies::{
    Haves, ParsedReply, ReplyContext, ReplyError, ReplyKind, ReplyReader, each_once, make_ref,
};
pub use session::conversation::Session;
pub use session::scripted::{ScriptedInterrupt, ScriptedPeer};
pub use session::turn::Turn;
