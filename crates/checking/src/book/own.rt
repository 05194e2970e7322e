// The own rules of an enquiry, as a book.
ghost use Rattle.checking.specs.Books.{own_book};

use crate::book::Book;
use crate::rule::Rule;
use lists::held::Held;

/// The most own rules that an enquiry has.
pub const MOST_OWN: usize = 16;

// At this length alone: a list of any length need not be short enough for a book.
impl Book for Held<Rule, MOST_OWN> {
    ghost meaning = { own_book };

    fn rule(&self, place: usize) -> Option<Rule> {
        self.at(place)
    }
}
