//! What is told of a server's progress.

/// One who is told how a server gets on, as it is received. What it does decides nothing.
pub trait Progress {
    /// The server says this text, as it stands in band 2. It is told in the order in which it stands in the reply, before
    /// the next bytes are received, and also where the fetch is refused by what comes behind it.
    fn text(&mut self, band: &[u8]);
}

/// One who passes over all of it.
#[derive(Clone, Copy, Debug)]
pub struct NoProgress;

impl Progress for NoProgress {
    fn text(&mut self, _band: &[u8]) {}
}
