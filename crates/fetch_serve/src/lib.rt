//! A server of packs: what it answers to what it is asked.
#![tactic(auto)]

mod bands;
mod depth;
mod fetching;
pub mod laws;
mod limits;
mod offered;
mod parts;
mod peer;
mod replying;
mod servable;
mod served;
mod server;

pub use fetch_asked::{Asked, DepthAsked, FetchAsked, ServeError};
pub use peer::ServerPeer;
pub use server::{ServeTurn, Server};
