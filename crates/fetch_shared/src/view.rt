//! What seats at the table know. No value of these types is made but `Span`.

use fetch_journal::Entry;
use fetch_remote::Repository;
use std::collections::LinkedList;

/// The numbers from `first` to before `end`.
#[derive(Clone, Copy, Debug)]
pub struct Span {
    /// The first number.
    pub first: u64,
    /// The number after the last one.
    pub end: u64,
}

/// What a seat at the table is at.
pub(crate) enum Stage {
    /// It hasn't the turn.
    Resting,
    /// It has the turn, and keeps the journal.
    Turn(LinkedList<Entry>),
    /// It took in a pass that held these numbers and had this front.
    Joined(LinkedList<Span>, LinkedList<Entry>),
    /// Another pass took it in.
    Spent,
}

/// What a seat at the table knows.
pub(crate) struct View {
    /// What the shared repository opened as.
    pub opening: Repository,
    /// The number under which it enters into the journal.
    pub number: u64,
    /// Its numbers that no pass has yet.
    pub unused: Span,
    /// Numbers of passes that it took in.
    pub others: LinkedList<Span>,
    /// The beginning of the journal that it has seen.
    pub front: LinkedList<Entry>,
    /// What it is at.
    pub stage: Stage,
}
