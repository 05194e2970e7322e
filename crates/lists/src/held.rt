// A short list held in place.
ghost use Rattle.std.specs.Prelude.{◌≡◌, ◌≤◌, length};

mod edits;

/// A list of at most N items, held in place: it never asks for memory.
// An array with a count, since no step may ask for memory, and not the kit's `ArrayVec`: that fills its free places with `T::default()`, which
// would ask more of a caller. Seen as a list by `held`, and not by a `Model`: a value would no longer show that it has at most N items, on which
// books and cases rest.
#[derive(Drop)]
pub struct Held<T, const N: usize> {
    items: [T; N],
    count: usize,
    ghost room: { length items ≡ N },
    ghost few: { count ≤ N },
}

/// The error of a full list.
#[derive(Clone, Copy, PartialEq, Eq, Debug)]
pub struct Full;
