// The types of a justification.
ghost use Rattle.std.specs.Prelude.{◌≡◌, length};
ghost use Rattle.sets.specs.Counting.{size};
ghost use Rattle.lists.specs.Held.{held};

use lists::held::Held;
use sets::parts::{PARTS, Parts};

pub(crate) mod rounds;
pub(crate) mod writing;

/// Why a part is in an outfit: the round in which it is derived, and the lowest rule that brings it from parts of lower rounds.
#[derive(Clone, Copy, Default)]
pub struct Entry {
    pub part: u8,
    pub round: u8,
    pub rule: u8,
}

// The parts of one round, and for each, at its number, the lowest rule that brings it; in place, since no step may ask for memory.
#[derive(Clone, Copy)]
pub(crate) struct Layer {
    parts: Parts,
    lowest: [u8; PARTS],
}

// The parts that have a round, and an entry for each; the set tells at once whether a part has one.
#[derive(Drop)]
pub(crate) struct Derivation {
    reached: Parts,
    entries: Held<Entry, PARTS>,
    ghost counted: { length (held entries) ≡ size reached },
}
