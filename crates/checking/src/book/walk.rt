// The rules in force, walked out of a book and held in place.
ghost use Rattle.std.specs.Prelude.{◌≡◌, ◌+◌, ◌≤◌, ◌++◌, length};
ghost use Rattle.checking.specs.Sizes.{most_in_force};
ghost use Rattle.lists.specs.Held.{held};

use crate::book::own::MOST_OWN;
use crate::book::{Book, MOST_RULES};
use crate::rule::Rule;
use lists::held::Held;

// The most rules that are in force at once: those of a book, and the own rules of an enquiry.
pub(crate) const MOST_IN_FORCE: usize = MOST_RULES + MOST_OWN;

pub(crate) type InForce = Held<Rule, MOST_IN_FORCE>;

// Walks the book, place by place, until it answers none or has given all rules that a book may have: it is known by that question alone.
// There is room for each rule, which is proved, so it never ends for want of it. `unwrap` would put a stop of the program there, and a list with
// such a stop is not filled where it is wanted but copied there, 8 KiB at each check.
pub(crate) fn append<B: Book>(book: &B, rules: &mut InForce)
    requires { length (held rules.old) + length (B.meaning book.now).rules ≤ most_in_force }
    ensures { held rules.new ≡ held rules.old ++ (B.meaning book.now).rules }
{
    for place in 0..MOST_RULES {
        let Some(rule) = book.rule(place) else {
            return;
        };
        if rules.push(rule).is_err() {
            return;
        }
    }
}

// The rules of a book.
pub(crate) fn in_force<B: Book>(book: &B) -> InForce
    ensures { held result ≡ (B.meaning book.now).rules }
{
    let mut rules = Held::none(Rule::blank());
    append(book, &mut rules);
    rules
}

// The rules of a book, and then own rules.
pub(crate) fn both<B: Book>(book: &B, own: &Held<Rule, MOST_OWN>) -> InForce
    ensures { held result ≡ (B.meaning book.now).rules ++ held own.now }
{
    let mut rules = in_force(book);
    append(own, &mut rules);
    rules
}
