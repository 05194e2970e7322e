// Checking an outfit by the rules in force and the wishes.
ghost use Rattle.std.specs.Prelude.{MatchResult};
ghost use Rattle.sets.specs.Numbers.{set_of};
ghost use Rattle.lists.specs.Held.{held};
ghost use Rattle.refusals.specs.Refusals.{numbered};
ghost use Rattle.checking.specs.Derivations.{Passed};
ghost use Rattle.checking.specs.Enquiries.{wish_of, state_of};
ghost use Rattle.checking.specs.Checks.{MeetsWishes, Objection, Check, OneCheck};
ghost use Rattle.checking.specs.Laws.{Laws};

use crate::book::Book;
use crate::book::walk::both;
use crate::case::Case;
use crate::enquiry::Enquiry;
use crate::justification::Derivation;
use crate::wishes::Wishes;
use measures::measure::Measure;
use refusals::Refusal;
use sets::parts::{Bits, Parts};

impl Case<'_> {
    // What is wrong with the outfit, by the rules and then by the wishes; or how it is derived.
    fn examine_wished(self, wishes: &Wishes, room: usize) -> Result<Derivation, Refusal>
        ensures { MatchResult result (λ d. Passed (held self.entry.rules.now) self.entry.outfit room d × MeetsWishes (wish_of wishes.now) self.entry.outfit) (λ e. Objection (held self.entry.rules.now) (wish_of wishes.now) self.entry.outfit room (numbered e)) }
    {
        match self.examine(room) {
            Err(fault) => Err(fault),
            Ok(derivation) => match wishes.met_by(self.outfit) {
                Err(unmet) => Err(unmet),
                Ok(()) => Ok(derivation),
            },
        }
    }
}

impl<B: Book, M: Measure> Enquiry<B, M> {
    // The buffer is the caller's, since no step may ask for memory, and how much of it is written is the answer.

    /// Checks an outfit, given by its number. Where it is valid by the rules in force and meets the wishes, its justification is written at
    /// the front of the buffer, and the answer is the number of its parts; on a refusal the buffer is as it was.
    pub fn check(&self, outfit: Bits, buffer: &mut [u8]) -> Result<usize, Refusal>
        ensures answer { Check (B.meaning self.now.book).rules (state_of self.now) (set_of outfit) buffer.old buffer.new result }
        ensures laws { Laws }
        ensures one_check { OneCheck }
    {
        let rules = both(&self.book, &self.own);
        let case = Case {
            rules: &rules,
            outfit: Parts::from_bits(outfit),
        };
        let derivation = case.examine_wished(&self.wishes, buffer.len())?;
        Ok(derivation.write(buffer))
    }
}
