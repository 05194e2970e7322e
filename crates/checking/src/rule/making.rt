// Rules made from their parts, and from numbers.
ghost use Rattle.sets.specs.Numbers.{set_of};
ghost use Rattle.checking.specs.Kinds.{number_of};
ghost use Rattle.checking.specs.Rules.{Made};

use crate::rule::{Kind, Rule};
use refusals::Refusal;
use sets::parts::{Bits, Parts};

impl Rule {
    // The four that go together here are what a rule is made of: a struct of them would be the rule.

    /// The rule of a kind and three sets.
    pub fn of(kind: Kind, heads: Parts, needs: Parts, absences: Parts) -> Result<Rule, Refusal>
        ensures { Made (number_of kind) heads needs absences result }
    {
        if !kind.suits(heads) {
            return Err(Refusal::UnfitKind);
        }
        Ok(Rule {
            kind,
            heads,
            needs,
            absences,
        })
    }

    // By its number, since a caller may have any byte: a narrower type would ask more of it.

    /// The same, the kind given by its number.
    pub fn new(kind: u8, heads: Parts, needs: Parts, absences: Parts) -> Result<Rule, Refusal>
        ensures { Made kind heads needs absences result }
    {
        Rule::of(Kind::try_from(kind)?, heads, needs, absences)
    }

    /// The same, the kind and each set given by its number.
    pub fn from_numbers(kind: u8, heads: Bits, needs: Bits, absences: Bits) -> Result<Rule, Refusal>
        ensures { Made kind (set_of heads) (set_of needs) (set_of absences) result }
    {
        Rule::new(
            kind,
            Parts::from_bits(heads),
            Parts::from_bits(needs),
            Parts::from_bits(absences),
        )
    }

    // A rule of no parts, for the free places of a list.
    pub(crate) fn blank() -> Rule {
        let none = Parts::none();
        Rule {
            kind: Kind::Plain,
            heads: none,
            needs: none,
            absences: none,
        }
    }
}
