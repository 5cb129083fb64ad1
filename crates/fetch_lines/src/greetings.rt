//! What a server offers, as a record.

pub mod greeting;
pub mod handshake;
