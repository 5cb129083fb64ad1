//! Whose turn it is in a conversation.

/// What a session waits for.
#[derive(Clone, Copy, Debug, PartialEq, Eq)]
pub enum Turn {
    /// What is outgoing is to be sent.
    Send,
    /// The peer's next bytes are to be fed, or its end told.
    Receive,
    /// The next request: the listing was read, or the reply to the last request.
    Idle,
    /// Nothing more: a refusal stands, which each further call answers.
    Failed,
}
