// What can be asked of sets of parts, and what can be made of them.
ghost use Rattle.std.specs.Prelude.{◌≡◌, ℕ, ◌<◌, ◌⊎◌, Decides, MatchBool, MatchOption, ◌≢◌};
ghost use Rattle.sets.specs.Width.{how_many};
ghost use Rattle.sets.specs.Members.{Has, Within, Apart, Empty, Holds, Lowest};
ghost use Rattle.sets.specs.Numbers.{set_of};
ghost use Rattle.sets.specs.Counting.{size, Counting};

use crate::parts::{Bits, PARTS, Parts};

impl Parts {
    // `from_bits` and `to_bits`, as std names those of `f32`: `Parts::from(5)` could be read as the set of part 5.

    /// The set that a number stands for. Every number stands for one.
    pub fn from_bits(bits: Bits) -> Parts
        ensures number { result.bits ≡ bits }
        ensures value { result ≡ set_of bits }
    {
        Parts { bits }
    }

    /// The number of a set, which stands for just this set.
    pub fn to_bits(self) -> Bits
        ensures number { result ≡ self.bits }
        ensures back { set_of result ≡ self }
    {
        let Parts { bits } = self;
        bits
    }

    /// The empty set.
    pub fn none() -> Parts
        ensures { Empty result }
    {
        Parts { bits: 0 }
    }

    /// Whether it has a part. No set has a part beyond those that there are.
    pub fn has(self, part: u8) -> bool
        ensures { Decides result (Has self part) }
    {
        (part as usize) < PARTS && (self.bits >> part) & 1 == 1
    }

    /// With a part more. One beyond those that there are changes nothing.
    pub fn with(self, part: u8) -> Parts
        ensures { Holds result (λ p. Has self p ⊎ ((p ≡ part) × (p < how_many))) }
    {
        if part as usize >= PARTS {
            return self;
        }
        Parts {
            bits: self.bits | 1 << part,
        }
    }

    /// Without a part.
    pub fn without(self, part: u8) -> Parts
        ensures { Holds result (λ p. Has self p × (p ≢ part)) }
    {
        self.minus(Parts::none().with(part))
    }

    // Without its lowest part: a number less one lacks the lowest digit 1 of the number. Faster than `without` where a set is gone through.
    pub(super) fn less_lowest(self) -> Parts
        requires { (p : ℕ) × Has self p }
        ensures { Holds result (λ q. Has self q × (Lowest (Has self) q → ⊥)) }
    {
        Parts {
            bits: self.bits & (self.bits - 1),
        }
    }

    // Three operators with three promises: a function over the operator would have to be told it, and to promise by it.

    /// The parts of either.
    pub fn union(self, other: Parts) -> Parts
        ensures { Holds result (λ p. Has self p ⊎ Has other p) }
    {
        Parts {
            bits: self.bits | other.bits,
        }
    }

    /// The parts of both: the intersection.
    pub fn common(self, other: Parts) -> Parts
        ensures { Holds result (λ p. Has self p × Has other p) }
    {
        Parts {
            bits: self.bits & other.bits,
        }
    }

    /// The parts that the other lacks.
    pub fn minus(self, other: Parts) -> Parts
        ensures { Holds result (λ p. Has self p × (Has other p → ⊥)) }
    {
        Parts {
            bits: self.bits & !other.bits,
        }
    }

    /// Whether it is a subset of the other.
    pub fn within(self, other: Parts) -> bool
        ensures { Decides result (Within self other) }
    {
        self.bits & other.bits == self.bits
    }

    /// Whether no part is in both.
    pub fn apart(self, other: Parts) -> bool
        ensures { Decides result (Apart self other) }
    {
        self.bits & other.bits == 0
    }

    /// Whether it has no part.
    pub fn is_none(self) -> bool
        ensures { MatchBool result (Empty self) ((p : ℕ) × Has self p) }
    {
        self.bits == 0
    }

    // The derived `==`, which promises an equation, and besides what that means for the parts.

    /// Whether two sets are equal: they are when they have the same parts.
    pub fn same(self, other: Parts) -> bool
        ensures equal { Decides result (self ≡ other) }
        ensures members { Decides result (Within self other × Within other self) }
    {
        self == other
    }

    /// How many parts it has.
    pub fn count(self) -> u32
        ensures value { result ≡ size self }
        ensures counting { Counting }
    {
        self.bits.count_ones()
    }

    /// Its lowest part.
    pub fn lowest(self) -> Option<u8>
        ensures { MatchOption result (Empty self) (λ p. Lowest (Has self) p) }
    {
        if self.is_none() {
            None
        } else {
            Some(self.bits.trailing_zeros() as u8)
        }
    }
}
