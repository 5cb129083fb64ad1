//! Fetching or pushing.

ghost use Rattle.std.specs.Prelude.{◌≡◌};
ghost use Rattle.fetch_lookup.specs.Directions.{word_of};

/// What is done with a remote.
#[derive(Clone, Copy, Debug, PartialEq, Eq, Hash)]
pub enum Direction {
    /// The remote's references are changed.
    Push,
    /// The remote's references are read.
    Fetch,
}

impl Direction {
    /// `push` or `fetch`.
    #[tactic(auto, unfolding(crate::specs::Directions::word_of))]
    pub fn as_str(&self) -> &'static str
        ensures { result.now ≡ word_of self.now }
    {
        match self {
            Direction::Push => "push",
            Direction::Fetch => "fetch",
        }
    }
}
