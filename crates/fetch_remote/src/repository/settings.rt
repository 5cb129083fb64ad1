//! What a fetch reads of a repository beside objects, border and references.

pub use fetch_conversation::Settings;
