//! What a refspec is for, and how it applies.

/// What a refspec is for.
#[derive(Clone, Copy, Debug, PartialEq, Eq, PartialOrd, Ord)]
pub enum Operation {
    /// Local references are sent to a remote.
    Push,
    /// References of a remote are fetched.
    Fetch,
}

/// How a refspec applies: as it stands, by force, or as an exclusion.
#[derive(Clone, Copy, Debug, PartialEq, Eq, PartialOrd, Ord)]
pub enum Mode {
    /// As it stands: an update has to be a fast-forward.
    Normal,
    /// By force, with a plus in front.
    Force,
    /// Names that it matches are left out; it has a caret in front.
    Exclusion,
}
