// Books of rules: what a book is, typed books, own rules as a book, and a book's rules put in force.
ghost use Rattle.std.specs.Prelude.{◌≡◌};
ghost use Rattle.std.specs.List.{slice_get};
ghost use Rattle.checking.specs.Meanings.{Meaning};

use crate::rule::Rule;

pub mod own;
pub mod typed;
pub(crate) mod walk;

/// The most rules that a book has.
pub const MOST_RULES: usize = 240;

/// A book means a list of at most 240 rules. It is known by one question: which rule stands at a place?
pub trait Book {
    ghost meaning: { Self → Meaning };

    /// The rule at a place, counted from 0, or none where the list is no longer than that.
    fn rule(&self, place: usize) -> Option<Rule>
        ensures { result ≡ slice_get (meaning self.now).rules place };
}
