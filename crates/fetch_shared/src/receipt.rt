//! What a fetch or a deletion saw of a journal.

/// What a fetch or a deletion saw of a journal, and its place in it.
#[derive(Clone, Copy, Debug, PartialEq, Eq)]
pub struct Receipt {
    /// The number of the pass, which its entries have.
    pub pass: u64,
    /// How many entries the plan saw. None where none was made.
    pub planned: Option<u64>,
    /// How many entries the verdicts saw. None where none was told.
    pub judged: Option<u64>,
    /// The place of the commit or the deletion. None where there is none.
    pub place: Option<u64>,
}
