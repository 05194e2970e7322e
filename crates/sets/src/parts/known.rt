// Parts by their numbers.
ghost use Rattle.std.specs.Prelude.{◌≡◌};
ghost use Rattle.sets.specs.Known.{PartOf};

use crate::parts::{PARTS, Part};
use refusals::Refusal;

/// The part of a number; a number is refused that no part has.
impl TryFrom<u8> for Part {
    type Error = Refusal;

    ghost try_from_gives = { PartOf };

    fn try_from(number: u8) -> Result<Part, Refusal> {
        if number as usize >= PARTS {
            return Err(Refusal::NoPart { part: number });
        }
        Ok(Part { number })
    }
}

/// The number of a part.
impl From<Part> for u8 {
    ghost from_gives = { λ part number. number ≡ part.number };

    fn from(part: Part) -> u8 {
        part.number
    }
}

/// The place of a part among all parts, which is its number.
impl From<Part> for usize {
    ghost from_gives = { λ part place. place ≡ part.number };

    fn from(part: Part) -> usize {
        usize::from(part.number)
    }
}
