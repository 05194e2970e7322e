// Going through a set, part by part.
ghost use Rattle.std.specs.Prelude.{◌≡◌};
ghost use Rattle.std.specs.Iterator.{at_most, YieldsFirst};
ghost use Rattle.sets.specs.Counting.{size};
ghost use Rattle.sets.specs.Steps.{LowestFirst, in_order};

use crate::parts::Parts;

/// Goes through the parts of a set, from the lowest.
#[derive(Drop)]
pub struct IntoIter {
    rest: Parts,
}

impl Iterator for IntoIter {
    type Item = u8;

    ghost next_gives = { λ was part is. LowestFirst was.rest part is.rest × YieldsFirst in_order was.rest part is.rest };

    ghost remaining = { λ it. at_most (size it.rest) };

    fn next(&mut self) -> Option<u8> {
        let part = self.rest.lowest()?;
        self.rest = self.rest.less_lowest();
        Some(part)
    }
}

impl IntoIterator for Parts {
    type Item = u8;

    type IntoIter = IntoIter;

    ghost into_iter_gives = { λ parts it. it.rest ≡ parts };

    fn into_iter(self) -> IntoIter {
        IntoIter { rest: self }
    }
}
