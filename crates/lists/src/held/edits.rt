// Lists held in place: one item more, one less, the item at a place, all of them.
ghost use Rattle.std.specs.Prelude.{◌≡◌, []};
ghost use Rattle.std.specs.List.{slice_get};
ghost use Rattle.lists.specs.Held.{held, Pushed, Removed};

use crate::held::{Full, Held};

impl<T: Copy, const N: usize> Held<T, N> {
    /// The empty list; `blank` fills the free places.
    pub fn none(blank: T) -> Self
        ensures { held result ≡ [] }
    {
        Held {
            items: [blank; N],
            count: 0,
        }
    }

    /// Puts an item last; or `Full`, and nothing changes.
    pub fn push(&mut self, item: T) -> Result<(), Full>
        ensures { Pushed item self.old self.new result }
    {
        if self.count >= N {
            return Err(Full);
        }
        self.items[self.count] = item;
        self.count += 1;
        Ok(())
    }

    /// Removes and gives the item at a place, counted from 0, and moves the later ones down by one; or `None`, and nothing changes.
    pub fn remove(&mut self, place: usize) -> Option<T>
        ensures { Removed place self.old self.new result }
    {
        let item = self.at(place)?;
        let items = &mut self.items[..];
        items[place..self.count].rotate_left(1);
        self.count -= 1;
        Some(item)
    }

    /// The item at a place, counted from 0.
    pub fn at(&self, place: usize) -> Option<T>
        ensures { result ≡ slice_get (held self.now) place }
    {
        self.items().get(place).copied()
    }

    /// All items.
    pub fn items(&self) -> &[T]
        ensures { result.now ≡ held self.now }
    {
        &self.items[..self.count]
    }
}
