// The type of an enquiry.
use crate::book::own::MOST_OWN;
use crate::rule::Rule;
use crate::wishes::Wishes;
use lists::held::Held;

mod checks;
mod runs;
mod steps;

pub use self::runs::run;

/// An enquiry: a book and a measure of any kind, own rules (at most 16) that are in force after the book's, and wishes. Nothing but the
/// steps changes its own rules and wishes, and nothing changes its book and its measure.
#[derive(Drop)]
pub struct Enquiry<B, M> {
    book: B,
    measure: M,
    own: Held<Rule, MOST_OWN>,
    wishes: Wishes,
}
