// Kinds and their numbers.
ghost use Rattle.std.specs.Prelude.{◌≡◌, Decides};
ghost use Rattle.checking.specs.Kinds.{number_of, Suits, OfNumber};

use crate::rule::Kind;
use refusals::Refusal;
use sets::parts::Parts;

impl Kind {
    /// Whether a rule of this kind may have these heads.
    pub fn suits(self, heads: Parts) -> bool
        ensures { Decides result (Suits (number_of self) heads) }
    {
        match self {
            Kind::Plain => heads.count() <= 1,
            Kind::Choice | Kind::Exclusive => heads.count() >= 2,
        }
    }
}

/// The kind of a number; there is none above 2.
impl TryFrom<u8> for Kind {
    type Error = Refusal;

    ghost try_from_gives = { OfNumber };

    fn try_from(number: u8) -> Result<Kind, Refusal> {
        match number {
            0 => Ok(Kind::Plain),
            1 => Ok(Kind::Choice),
            2 => Ok(Kind::Exclusive),
            _ => Err(Refusal::UnfitKind),
        }
    }
}

/// The number of a kind.
impl From<Kind> for u8 {
    ghost from_gives = { λ kind number. number ≡ number_of kind };

    fn from(kind: Kind) -> u8 {
        match kind {
            Kind::Plain => 0,
            Kind::Choice => 1,
            Kind::Exclusive => 2,
        }
    }
}
