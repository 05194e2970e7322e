// The book of the mill.
ghost use Rattle.mill.specs.Rules.{HasRules};

use crate::fittings::{AXIAL, BRAKE, CROSS, FLOATGATE, GEARBOX, LIFTGATE, MILL};
use checking::book::typed::TypedBook;
use checking::rule::{Kind, Rule};
use sets::parts::{Bits, Parts};

// Its rules, by kind, heads, needs and absences:
// mill <-
// axial | cross <- mill
// floatgate + liftgate <- mill
// gearbox <- cross
// brake <- axial, not(gearbox)
// <- cross, floatgate
const RULES: [(Kind, Bits, Bits, Bits); 6] = [
    (Kind::Plain, MILL, 0, 0),
    (Kind::Choice, AXIAL | CROSS, MILL, 0),
    (Kind::Exclusive, FLOATGATE | LIFTGATE, MILL, 0),
    (Kind::Plain, GEARBOX, CROSS, 0),
    (Kind::Plain, BRAKE, AXIAL, GEARBOX),
    (Kind::Plain, 0, CROSS | FLOATGATE, 0),
];

/// The book of its rules.
pub fn book() -> TypedBook
    ensures { HasRules result }
{
    let mut book = TypedBook::open();
    for (kind, heads, needs, absences) in RULES {
        let rule = Rule::of(
            kind,
            Parts::from_bits(heads),
            Parts::from_bits(needs),
            Parts::from_bits(absences),
        )
        .unwrap();
        book.enter(rule).unwrap();
    }
    book
}
