// Heads of water, as cards of a sheet.
ghost use Rattle.std.specs.Prelude.{◌≡◌, from_bits};
ghost use Rattle.std.specs.Float.{binary32};
ghost use Rattle.heads.specs.Range.{largest};
ghost use Rattle.heads.specs.Orders.{larger};
ghost use Rattle.measures.specs.Sheets.{raising};

use crate::card::Card;
use crate::sheet::Sheet;
use heads::head::Head;
use refusals::Refusal;

/// A head of water for each part: values are heads.
pub type HeadSheet = Sheet<Head>;

impl Card for Head {
    type Number = u32;

    type Value = Head;

    ghost number_of = { λ n. n };

    ghost limit = { largest };

    ghost code = { 71 };

    ghost shown = { λ h. h };

    ghost Shows = { λ h pattern. h.metres ≡ from_bits binary32 pattern };

    ghost joining = { raising };

    ghost Joins = { λ v h r. r ≡ larger v h };

    fn from_number(pattern: u32) -> Option<Head> {
        Head::from_pattern(pattern)
    }

    fn refusal(part: u8) -> Refusal {
        Refusal::HeadRange { part }
    }

    fn zero() -> Head {
        Head::zero()
    }

    fn value(self) -> Head {
        self
    }

    fn join(value: Head, head: Head) -> Head {
        value.larger(head)
    }

    fn at_most(a: Head, b: Head) -> bool {
        a.at_most(b)
    }
}
