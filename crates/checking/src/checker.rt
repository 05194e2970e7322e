// The judge: whether an outfit is valid, and why each part is in it, or what is wrong.
ghost use Rattle.std.specs.Prelude.{ℕ, ◌≤◌, length, is_ok, Decides, MatchResult};
ghost use Rattle.sets.specs.Numbers.{set_of};
ghost use Rattle.lists.specs.Held.{held};
ghost use Rattle.refusals.specs.Refusals.{numbered};
ghost use Rattle.checking.specs.Sizes.{least_room};
ghost use Rattle.checking.specs.Validity.{Kept, Keeps};
ghost use Rattle.checking.specs.Derivations.{Passed};
ghost use Rattle.checking.specs.Verdicts.{Blame, Fault, Passing, PassingByRounds, Verdict};
ghost use Rattle.checking.specs.Laws.{Laws};

use crate::book::Book;
use crate::book::walk::in_force;
use crate::case::Case;
use crate::justification::Derivation;
use crate::rule::Rule;
use refusals::Refusal;
use sets::parts::{Bits, PARTS, Parts};

/// The least room of a buffer for a justification: three bytes for each part that there is.
pub const ROOM: usize = 3 * PARTS;

impl Rule {
    // What is wrong with a rule of this number that is not kept.
    fn blame(&self, number: u8, outfit: Parts) -> Refusal
        requires { Kept self.now outfit → ⊥ }
        ensures { Blame self.now outfit number (numbered result) }
    {
        if self.heads.is_none() {
            return Refusal::Incompatible { rule: number };
        }
        if self.heads.apart(outfit) {
            return Refusal::NoneChosen { rule: number };
        }
        Refusal::SeveralChosen { rule: number }
    }
}

impl Case<'_> {
    // Whether all rules are kept, and if not, what is wrong with the lowest-numbered that is not.
    fn keeps(self) -> Result<(), Refusal>
        ensures { MatchResult result (λ _. Keeps (held self.entry.rules.now) self.entry.outfit) (λ e. (room : ℕ) → least_room ≤ room → Fault (held self.entry.rules.now) self.entry.outfit room (numbered e)) }
    {
        for (i, rule) in self.rules.items().iter().enumerate() {
            if !rule.kept(self.outfit) {
                return Err(rule.blame(i as u8, self.outfit));
            }
        }
        Ok(())
    }

    // What is wrong with the outfit, or how it is derived.
    pub(crate) fn examine(self, room: usize) -> Result<Derivation, Refusal>
        ensures { MatchResult result (λ d. Passed (held self.entry.rules.now) self.entry.outfit room d) (λ e. Fault (held self.entry.rules.now) self.entry.outfit room (numbered e)) }
    {
        if room < ROOM {
            return Err(Refusal::ShortBuffer);
        }
        self.keeps()?;
        let derivation = self.derive();
        let roundless = self.outfit.minus(derivation.reached());
        match roundless.lowest() {
            Some(part) => Err(Refusal::NoRound { part }),
            None => Ok(derivation),
        }
    }
}

// The buffer is the caller's, since no step may ask for memory, and how much of it is written is the answer.

/// Judges an outfit, given by its number, by the rules of a book. Where it is valid, its justification is written at the front of the
/// buffer, and the answer is the number of its parts; on a refusal the buffer is as it was.
pub fn judge<B: Book>(book: &B, outfit: Bits, buffer: &mut [u8]) -> Result<usize, Refusal>
    ensures verdict { Verdict (B.meaning book.now).rules (set_of outfit) buffer.old buffer.new result }
    ensures valid { Decides (is_ok result) (Passing (B.meaning book.now).rules (set_of outfit) (length buffer.old)) }
    ensures rounds { Decides (is_ok result) (PassingByRounds (B.meaning book.now).rules (set_of outfit) (length buffer.old)) }
    ensures laws { Laws }
{
    let rules = in_force(book);
    let case = Case {
        rules: &rules,
        outfit: Parts::from_bits(outfit),
    };
    let derivation = case.examine(buffer.len())?;
    Ok(derivation.write(buffer))
}
