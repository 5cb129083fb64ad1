//! What values were, one after another. It takes no memory, and only proofs read it.

ghost use Rattle.std.specs.Prelude.{◌≡◌, List, [], ◌∷◌, ◌++◌};
ghost use Rattle.std.specs.Borrow.{ftrue};

use std::fmt;
use std::marker::{Model, PhantomData};

/// A clause reads the values as `values`, the first one first.
pub struct Openings<T> {
    marker: PhantomData<T>,
    pub ghost values: { List T },
}

impl<T> Model for Openings<T> {
    ghost also_owns = { λ _. ftrue };
}

// It owns nothing.
unsafe impl<T> Send for Openings<T> {}

unsafe impl<T> Sync for Openings<T> {}

impl<T> Openings<T> {
    /// No value.
    pub fn new() -> Openings<T>
        ensures { result.values ≡ [] }
    {
        Openings {
            marker: PhantomData,
        }
    }

    /// These values, and then the one that is lent.
    pub fn and(&self, x: &T) -> Openings<T>
        ensures { result.values ≡ self.now.values ++ x.now ∷ [] }
    {
        let _ = x;
        Openings {
            marker: PhantomData,
        }
    }

    /// The same values.
    pub fn again(&self) -> Openings<T>
        ensures { result.values ≡ self.now.values }
    {
        Openings {
            marker: PhantomData,
        }
    }
}

impl<T> Drop for Openings<T> {
    fn drop(self) {
        let Self { marker: _ } = self;
    }
}

impl<T> fmt::Debug for Openings<T> {
    fn fmt<W: fmt::Write>(&self, f: &mut fmt::Formatter<W>) -> fmt::Result {
        f.write_str("Openings")
    }
}
