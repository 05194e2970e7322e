// A price, with its limit.
ghost use Rattle.std.specs.Prelude.{◌≡◌, ◌<◌, ◌≤◌, MatchResult};
ghost use Rattle.measures.specs.Cards.{most_pence};

/// The largest price of a card, in pence.
pub const MOST_PENCE: u64 = 1_000_000_000;

/// A price in pence, up to the limit.
#[derive(Clone, Copy)]
pub struct Pence {
    pence: u64,
    ghost low: { pence ≤ most_pence },
}

/// A number that is above the limit of a price.
#[derive(Clone, Copy, Debug, PartialEq, Eq)]
pub struct AboveLimit;

impl TryFrom<u64> for Pence {
    type Error = AboveLimit;

    ghost try_from_gives = { λ n r. MatchResult r (λ x. (n ≤ most_pence) × (x.pence ≡ n)) (λ _. most_pence < n) };

    fn try_from(number: u64) -> Result<Pence, AboveLimit> {
        if number > MOST_PENCE {
            return Err(AboveLimit);
        }
        Ok(Pence { pence: number })
    }
}

impl From<Pence> for u64 {
    ghost from_gives = { λ x n. n ≡ x.pence };

    fn from(price: Pence) -> u64 {
        price.pence
    }
}

impl Pence {
    // No price: 0 pence.
    pub(crate) fn zero() -> Pence
        ensures { result.pence ≡ 0 }
    {
        Pence { pence: 0 }
    }
}
