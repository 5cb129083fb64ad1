//! What a full name is for.

ghost use Rattle.std.specs.Prelude.{◌≡◌};
ghost use Rattle.fetch_specs.specs.Categories.{prefix_of};

/// What a full name is for, by its prefix.
#[derive(Clone, Copy, Debug, PartialEq, Eq)]
pub enum Category {
    /// `refs/tags/`
    Tag,
    /// `refs/heads/`
    LocalBranch,
    /// `refs/remotes/`
    RemoteBranch,
    /// `refs/notes/`
    Note,
    /// A name without a slash, as `HEAD`.
    PseudoRef,
}

impl Category {
    /// What the names of the category begin with.
    #[tactic(auto, unfolding(crate::specs::Categories::tags, crate::specs::Categories::heads, crate::specs::Categories::remotes, crate::specs::Categories::notes))]
    pub(crate) fn prefix(self) -> &'static [u8]
        ensures { result.now ≡ prefix_of self }
    {
        match self {
            Category::Tag => b"refs/tags/",
            Category::LocalBranch => b"refs/heads/",
            Category::RemoteBranch => b"refs/remotes/",
            Category::Note => b"refs/notes/",
            Category::PseudoRef => b"",
        }
    }
}
