//! The kinds of objects.

ghost use Rattle.std.specs.Prelude.{◌≡◌};
ghost use Rattle.fetch_base.specs.Hashing.{name_of};
ghost use Rattle.fetch_base.specs.Kinds.{is_kind};
ghost use Rattle.fetch_base.specs.declared.object_kind.ObjectKind.TheVariants as kinds;

/// What an object is.
#[derive(Clone, Copy, Debug, PartialEq, Eq, PartialOrd, Ord)]
pub enum ObjectKind {
    /// A state of a tree, with its history.
    Commit,
    /// A directory.
    Tree,
    /// The bytes of a file.
    Blob,
    /// A name for another object, with a text.
    Tag,
}

impl ObjectKind {
    /// Git's name of the kind.
    pub fn name(self) -> &'static [u8]
        ensures { result.now ≡ name_of self }
    {
        match self {
            ObjectKind::Commit => b"commit",
            ObjectKind::Tree => b"tree",
            ObjectKind::Blob => b"blob",
            ObjectKind::Tag => b"tag",
        }
    }

    /// Whether this is a commit.
    pub fn is_commit(self) -> bool
        ensures { result ≡ is_kind self kinds.Commit }
    {
        match self {
            ObjectKind::Commit => true,
            ObjectKind::Tree | ObjectKind::Blob | ObjectKind::Tag => false,
        }
    }
}
