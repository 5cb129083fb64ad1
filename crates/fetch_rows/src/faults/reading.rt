//! What fails, as the lines of a row name it.

use fetch_store::decimal;
use rows::split_word;

/// What fails.
#[derive(Clone, Copy, PartialEq, Eq)]
pub(crate) enum Kind {
    /// Nothing.
    Nothing,
    /// A send or a receive.
    Peer,
    /// A question that is answered yes.
    Interrupt,
    /// A call on the files.
    Files,
    /// The work trees, while they are listed.
    Listing,
    /// The work trees, while the repository of one is opened.
    OpenRepo,
    /// The work trees, while the head of one is followed.
    FollowSymref,
    /// The peer ends after so many bytes.
    Cut,
    /// Nothing, but what the peer says comes in pieces of so many bytes.
    Pieces,
}

/// How a row names each of them.
const KINDS: [(&[u8], Kind); 9] = [
    (b"nothing", Kind::Nothing),
    (b"peer", Kind::Peer),
    (b"interrupt", Kind::Interrupt),
    (b"files", Kind::Files),
    (b"listing", Kind::Listing),
    (b"open-repo", Kind::OpenRepo),
    (b"follow-symref", Kind::FollowSymref),
    (b"cut", Kind::Cut),
    (b"pieces", Kind::Pieces),
];

/// What fails, and where.
#[derive(Clone, Copy)]
pub(crate) struct Fault {
    pub(crate) kind: Kind,
    /// The call that fails, counted from 0, or how many bytes.
    pub(crate) number: u64,
}

/// What fails, as a row names it.
fn kind_of(word: &[u8]) -> Option<Kind> {
    for (name, kind) in KINDS {
        if word == name {
            return Some(kind);
        }
    }
    None
}

/// What a line says that fails: `<what> <number>`.
pub(crate) fn fault_of(line: &[u8]) -> Option<Fault> {
    let (word, digits) = split_word(line);
    Some(Fault {
        kind: kind_of(word)?,
        number: decimal(digits)?,
    })
}
