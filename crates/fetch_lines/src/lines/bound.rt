//! How long a reply may be.

ghost use Rattle.std.specs.Prelude.{◌≡◌, ◌≤◌, IfSome, IsSome, ◌↔◌};

use std::marker::Model;

/// How many bytes one reply may have: 1 to 1,073,741,824. Contracts see the number.
#[derive(Clone, Copy, Debug, PartialEq, Eq, PartialOrd, Ord)]
pub struct ReplyBound {
    bytes: u32,
}

impl Model for ReplyBound {
    ghost use Rattle.std.specs.Prelude.{ℕ, ◌≤◌};

    ghost Value = { ℕ };

    ghost view = { λ bound. bound.bytes };

    ghost invariant = { λ bound. (1 ≤ bound.bytes) × (bound.bytes ≤ 1073741824) };

    ghost inverse = { λ bytes. record { bytes = bytes } };
}

impl ReplyBound {
    /// The greatest bound.
    pub const GREATEST: u32 = 1 << 30;

    /// A bound of that many bytes, where it is in range. It is over the bytes of one reply, uncompressed. A longer one is
    /// refused as `ReplyTooLong`; then fetch in slices: `Shallow::DepthAtRemote`, and then `Shallow::Deepen` until the
    /// repository is shallow no more.
    pub fn new(bytes: u32) -> Option<ReplyBound>
        ensures in_range { IsSome result ↔ ((1 ≤ bytes) × (bytes ≤ 1073741824)) }
        ensures bytes { IfSome result (λ bound. bound ≡ bytes) }
    {
        if bytes >= 1 && bytes <= Self::GREATEST {
            Some(ReplyBound { bytes })
        } else {
            None
        }
    }

    /// The number of bytes.
    pub fn get(self) -> u32
        ensures bytes { result ≡ self }
        ensures least { 1 ≤ result }
        ensures greatest { result ≤ 1073741824 }
    {
        self.bytes
    }
}

impl Default for ReplyBound {
    ghost use Rattle.std.specs.Prelude.{◌≡◌};

    ghost is_default = { λ bound. bound ≡ 268435456 };

    fn default() -> ReplyBound {
        ReplyBound { bytes: 1 << 28 }
    }
}
