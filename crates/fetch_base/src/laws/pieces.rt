//! Laws of the pieces of a text.

ghost use Rattle.std.specs.Prelude.{List, ℕ};
ghost use Rattle.fetch_base.specs.Lines.{SplitsExactly, SplitsLastExactly};

/// Splitting at a byte tells the one way to put the text together round the first one.
pub fn splits_exactly()
    ensures { (c : ℕ) (bytes : List ℕ) → SplitsExactly c bytes }
{}

/// Splitting at the last such byte tells the one way to put the text together round it.
pub fn splits_last_exactly()
    ensures { (c : ℕ) (bytes : List ℕ) → SplitsLastExactly c bytes }
{}
