// What a card is.
ghost use Rattle.std.specs.Prelude.{◌≡◌, ℕ};
ghost use Rattle.refusals.specs.Refusals.{numbered};
ghost use Rattle.measures.specs.Writing.{UpTo};
ghost use Rattle.measures.specs.Sheets.{Joining};

use refusals::Refusal;

/// A card of a sheet: it is made from a number up to a limit, and what it shows is a value that other values are joined with. Where values
/// start, how they are joined and whether one is at most another is in its meaning, with the laws that these owe.
pub trait Card: Copy {
    type Number: Copy;

    type Value: Copy;

    ghost number_of: { Self.Number → ℕ };

    // The largest number of a card, and the number of the refusal of one above it.
    ghost limit: { ℕ };

    ghost code: { ℕ };

    // What a card shows, and the numbers of which a card shows that.
    ghost shown: { Self → Self.Value };

    ghost Shows: { Self.Value → ℕ → Type 0 };

    ghost joining: { Joining Self.Value Self.Value };

    // Holds of a value, of what a card shows, and of the two joined.
    ghost Joins: { Self.Value → Self.Value → Self.Value → Type 0 };

    // A function of its own, since `TryFrom` of a head would not say that the number is a bit pattern.

    /// The card for a number, where that is not above the limit.
    fn from_number(number: Self::Number) -> Option<Self>
        ensures { UpTo limit (λ x n. Shows (shown x) n) (number_of number) result };

    /// Why a number above the limit is refused for a part.
    fn refusal(part: u8) -> Refusal
        ensures { numbered result ≡ (code, part) };

    /// The card that shows where values start.
    fn zero() -> Self
        ensures { shown result ≡ joining.start };

    /// What the card shows.
    fn value(self) -> Self::Value
        ensures { result ≡ shown self };

    /// A value joined with what a card shows.
    fn join(value: Self::Value, card: Self::Value) -> Self::Value
        ensures joined { result ≡ joining.join value card }
        ensures joins { Joins value card result };

    // The laws are about this order; a `PartialOrd` of the values would have to be tied to it besides.

    /// Whether one value is at most another.
    fn at_most(a: Self::Value, b: Self::Value) -> bool
        ensures { result ≡ joining.at_most a b };
}
