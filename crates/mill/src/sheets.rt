// What the parts of the mill cost, and their heads of water.
ghost use Rattle.std.specs.Prelude.{◌≤◌, map};
ghost use Rattle.std.specs.List.{All};
ghost use Rattle.mill.specs.Sheets.{Priced, Headed, InQuarters, Filled};

use crate::fittings::FITTINGS;
use measures::card::Card;
use measures::head_sheet::HeadSheet;
use measures::price_sheet::PriceSheet;
use measures::sheet::Sheet;

/// The sheet of their prices.
pub fn prices() -> PriceSheet
    ensures { Priced result }
{
    filled(FITTINGS.map(|fitting| fitting.pence))
}

/// The sheet of their heads.
pub fn heads() -> HeadSheet
    ensures cards { Headed result }
    ensures metres { InQuarters }
{
    filled(FITTINGS.map(|fitting| fitting.pattern))
}

// The sheet of the cards for these numbers, from part 0.
fn filled<C: Card>(numbers: [C::Number; FITTINGS.len()]) -> Sheet<C>
    requires starts { C.Shows C.joining.start 0 }
    requires low { All (λ n. C.number_of n ≤ C.limit) numbers }
    ensures { Filled C.shown C.Shows (map C.number_of numbers) result }
{
    let mut sheet = Sheet::new();
    for (part, &number) in numbers.iter().enumerate() {
        sheet.set(part as u8, number).unwrap();
    }
    sheet
}
