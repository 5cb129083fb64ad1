//! A session: the conversation with a peer, driven from outside.

pub mod conversation;
pub mod parameters;
pub mod scripted;
pub mod turn;
