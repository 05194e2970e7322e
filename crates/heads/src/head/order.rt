// Heads by their bit patterns, and their order by float comparison.
ghost use Rattle.std.specs.Prelude.{◌≡◌};
ghost use Rattle.heads.specs.Patterns.{ByPattern};
ghost use Rattle.heads.specs.Orders.{zero_head, at_most, larger as larger_of, Order};

use crate::head::{Head, LARGEST};

impl Head {
    // By names and not by `TryFrom` and `From`: `Head::try_from(2)` could be read as 2 metres, and `f32::from(head)` would not name the unit.

    /// The head of a bit pattern, where it is one.
    pub fn from_pattern(pattern: u32) -> Option<Head>
        ensures { ByPattern pattern result }
    {
        if pattern > LARGEST {
            return None;
        }
        Some(Head {
            metres: f32::from_bits(pattern),
        })
    }

    /// The head in metres.
    pub fn metres(self) -> f32
        ensures { result ≡ self.metres }
    {
        self.metres
    }

    /// No head: 0 metres.
    pub fn zero() -> Head
        ensures { result ≡ zero_head }
    {
        Head { metres: 0.0 }
    }

    // The derived order, with its laws; and the larger by it, which is the other where they are equal: no derive promises that.

    /// Whether it is at most the other.
    pub fn at_most(self, other: Head) -> bool
        ensures value { result ≡ at_most self other }
        ensures order { Order }
    {
        self <= other
    }

    /// The larger of two: the other where they are equal.
    pub fn larger(self, other: Head) -> Head
        ensures { result ≡ larger_of self other }
    {
        if self.at_most(other) { other } else { self }
    }
}
