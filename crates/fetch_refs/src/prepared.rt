//! Edits that are ready to be made.

ghost use Rattle.std.specs.Prelude.{◌≡◌};

use crate::pending::{Pending, Restore};
use crate::refs::Refs;

/// Edits of references that are ready to be made. Dropped, it changes nothing.
///
/// While it lives the references themselves are in it, so one that is forgotten rather than dropped
/// leaves none.
pub struct Prepared<'a, N: Restore = Pending> {
    pub(crate) refs: &'a mut Refs,
    pub(crate) next: N,
}

impl Prepared<'_, Pending> {
    /// Makes the edits. This takes no memory.
    pub fn commit(self)
        ensures { self.exit.0.now ≡ self.entry.next.after }
    {
        let Prepared { refs, next } = self;
        *refs = next.finish();
    }
}

impl<N: Restore> Drop for Prepared<'_, N> {
    fn drop(self)
        ensures { self.exit.0.now ≡ N.before self.entry.next }
    {
        let Prepared { refs, next } = self;
        *refs = next.restore();
    }
}
