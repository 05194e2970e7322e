// The type of wishes.
ghost use Rattle.sets.specs.Members.{Apart};

use sets::parts::Parts;

mod edits;

/// Wishes: the parts that an outfit must have, and those that it must not have. No part is both wanted and barred.
#[derive(Clone, Copy)]
pub(crate) struct Wishes {
    wanted: Parts,
    barred: Parts,
    ghost apart: { Apart wanted barred },
}
