//! The replies of a server: what each one tells, read line by line.
#![tactic(auto)]

mod greetings;
mod listing;
mod replies;

pub use listing::make_ref;
pub use replies::haves::{Haves, each_once};
pub use replies::reply::{ParsedReply, ReplyContext, ReplyError, ReplyKind};
pub use replies::reply_buffer::{FoundReply, ReplyBuffer};
pub use replies::reply_reader::ReplyReader;
