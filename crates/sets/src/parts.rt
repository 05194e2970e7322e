// The type of a set of parts. Width, number and type stand here and in specs/Width.antt, and nowhere else.
ghost use Rattle.std.specs.Prelude.{◌^◌, ◌<◌};
ghost use Rattle.sets.specs.Width.{how_many};

pub use self::iter::IntoIter;

mod iter;
mod known;
mod sets;

/// The number that stands for a set: part p is in it where the binary digit of place p is 1.
pub type Bits = u64;

/// How many parts there are: they are numbered from 0.
pub const PARTS: usize = 64;

/// A part, by its number: there is no other.
#[derive(Clone, Copy, PartialEq, Eq)]
pub struct Part {
    number: u8,
    ghost known: { number < how_many },
}

/// A set of parts.
#[derive(Clone, Copy, PartialEq, Eq)]
pub struct Parts {
    bits: Bits,
    ghost small: { bits < 2 ^ how_many },
}
