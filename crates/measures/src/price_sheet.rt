// Prices, as cards of a sheet.
ghost use Rattle.std.specs.Prelude.{◌≡◌, ◌+◌, min};
ghost use Rattle.measures.specs.Cards.{most_pence};
ghost use Rattle.measures.specs.Sheets.{adding, most_total};

use crate::card::Card;
use crate::pence::Pence;
use crate::sheet::Sheet;
use refusals::Refusal;

/// A price for each part: values are totals in pence.
pub type PriceSheet = Sheet<Pence>;

impl Card for Pence {
    type Number = u64;

    type Value = u64;

    ghost number_of = { λ n. n };

    ghost limit = { most_pence };

    ghost code = { 72 };

    ghost shown = { λ x. x.pence };

    ghost Shows = { λ x n. x ≡ n };

    ghost joining = { adding };

    ghost Joins = { λ v x r. r ≡ min (v + x) most_total };

    fn from_number(pence: u64) -> Option<Pence> {
        Pence::try_from(pence).ok()
    }

    fn refusal(part: u8) -> Refusal {
        Refusal::PriceLimit { part }
    }

    fn zero() -> Pence {
        Pence::zero()
    }

    fn value(self) -> u64 {
        u64::from(self)
    }

    fn join(value: u64, pence: u64) -> u64 {
        value.saturating_add(pence)
    }

    fn at_most(a: u64, b: u64) -> bool {
        a <= b
    }
}
