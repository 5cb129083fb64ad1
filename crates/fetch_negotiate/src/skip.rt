//! How many commits are passed over.

ghost use Rattle.std.specs.Prelude.{◌≡◌};
ghost use Rattle.fetch_negotiate.specs.Skips as spec;

/// How far it is from a commit that is told to the next one, and how much of that is left.
#[derive(Clone, Copy, Debug)]
pub(crate) struct Skip {
    pub(crate) first: u32,
    pub(crate) left: u32,
}

impl Skip {
    /// The pair of a tip.
    pub(crate) fn none() -> Skip
        ensures { result ≡ spec.no_skip }
    {
        Skip { first: 0, left: 0 }
    }

    /// The pair for the parents of a commit.
    pub(crate) fn handed(self, offered: bool) -> Skip
        ensures { result ≡ spec.handed offered self }
    {
        if offered {
            let longer = longer(self.first);
            Skip {
                first: longer,
                left: longer,
            }
        } else {
            Skip {
                first: self.first,
                left: self.left.saturating_sub(1),
            }
        }
    }

    /// This pair, unless the other one reaches further.
    pub(crate) fn higher(self, other: Skip) -> Skip
        ensures { result ≡ spec.higher self other }
    {
        if self.first < other.first {
            other
        } else {
            self
        }
    }
}

/// Half as much again and one more.
fn longer(first: u32) -> u32
    ensures { result ≡ spec.longer first }
{
    let longer = u64::from(first) * 3 / 2 + 1;
    if longer < u64::from(u32::MAX) {
        longer as u32
    } else {
        u32::MAX
    }
}
