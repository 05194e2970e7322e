// Books that are entered rule by rule.
ghost use Rattle.std.specs.Prelude.{◌≡◌, []};
ghost use Rattle.checking.specs.Books.{typed, Entered};

use crate::book::{Book, MOST_RULES};
use crate::rule::Rule;
use lists::held::Held;
use refusals::Refusal;

/// A book in memory, which has room for all its rules from the start.
#[derive(Drop)]
pub struct TypedBook {
    rules: Held<Rule, MOST_RULES>,
}

impl TypedBook {
    /// The empty book.
    pub fn open() -> TypedBook
        ensures { (typed result).rules ≡ [] }
    {
        TypedBook {
            rules: Held::none(Rule::blank()),
        }
    }

    /// Puts a rule last; refused where the book is full, and then nothing changes.
    pub fn enter(&mut self, rule: Rule) -> Result<(), Refusal>
        ensures { Entered rule self.old self.new result }
    {
        self.rules
            .push(rule)
            .map_err(|_| Refusal::BookFull { length: MOST_RULES })
    }
}

impl Book for TypedBook {
    ghost meaning = { typed };

    fn rule(&self, place: usize) -> Option<Rule> {
        self.rules.at(place)
    }
}
