// What one rule asks of an outfit, and what it derives.
ghost use Rattle.std.specs.Prelude.{Decides};
ghost use Rattle.sets.specs.Members.{Within, Holds};
ghost use Rattle.checking.specs.Validity.{Applies, ClauseFor, Kept};

use crate::rule::{Kind, Rule};
use sets::parts::Parts;

impl Rule {
    /// Whether the outfit has all needs of the rule and none of its absences.
    pub fn applies(&self, outfit: Parts) -> bool
        ensures { Decides result (Applies self.now outfit) }
    {
        self.needs.within(outfit) && self.absences.apart(outfit)
    }

    /// Whether the rule does not apply, or a head is chosen, and only one if it is an exclusive choice.
    pub fn kept(&self, outfit: Parts) -> bool
        ensures { Decides result (Kept self.now outfit) }
    {
        if !self.applies(outfit) {
            return true;
        }
        let chosen = self.heads.common(outfit);
        if chosen.is_none() {
            return false;
        }
        match self.kind {
            Kind::Exclusive => chosen.count() == 1,
            Kind::Plain | Kind::Choice => true,
        }
    }

    /// The heads of the rule's clauses for the outfit, once the parts in `reached` are there.
    pub fn given(&self, outfit: Parts, reached: Parts) -> Parts
        ensures { Holds result (λ p. ClauseFor self.now outfit p × Within self.now.needs reached) }
    {
        if self.absences.apart(outfit) && self.needs.within(reached) {
            self.heads.common(outfit)
        } else {
            Parts::none()
        }
    }
}
