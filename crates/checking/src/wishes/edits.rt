// Wishes: one more, one less, and whether an outfit meets them.
ghost use Rattle.std.specs.Prelude.{◌≡◌, MatchResult};
ghost use Rattle.sets.specs.Members.{Holds};
ghost use Rattle.refusals.specs.Refusals.{numbered};
ghost use Rattle.checking.specs.Calls.{free, wanted, barred};
ghost use Rattle.checking.specs.Checks.{MeetsWishes, Unmet};
ghost use Rattle.checking.specs.Enquiries.{wish_of, Joined, Rewished};

use crate::call::Step;
use crate::wishes::Wishes;
use refusals::Refusal;
use sets::parts::{Part, Parts};

// One set of wishes with a part more: refused where the other set has it.
fn joined(set: Parts, other: Parts, part: Part) -> Result<Parts, Refusal>
    ensures { Joined set other part.number result }
{
    let part = u8::from(part);
    if other.has(part) {
        return Err(Refusal::Clash { part });
    }
    Ok(set.with(part))
}

impl Wishes {
    // No wishes.
    pub(crate) fn none() -> Wishes
        ensures { wish_of result ≡ (λ p. free) }
    {
        Wishes {
            wanted: Parts::none(),
            barred: Parts::none(),
        }
    }

    pub(crate) fn wanted(&self) -> Parts
        ensures { Holds result (λ p. wish_of self.now p ≡ wanted) }
    {
        self.wanted
    }

    pub(crate) fn barred(&self) -> Parts
        ensures { Holds result (λ p. wish_of self.now p ≡ barred) }
    {
        self.barred
    }

    pub(crate) fn want(&mut self, part: u8) -> Result<(), Refusal>
        ensures { Rewished (Step.Want part) self.old self.new result }
    {
        self.wanted = joined(self.wanted, self.barred, Part::try_from(part)?)?;
        Ok(())
    }

    pub(crate) fn bar(&mut self, part: u8) -> Result<(), Refusal>
        ensures { Rewished (Step.Bar part) self.old self.new result }
    {
        self.barred = joined(self.barred, self.wanted, Part::try_from(part)?)?;
        Ok(())
    }

    pub(crate) fn release(&mut self, part: u8) -> Result<(), Refusal>
        ensures { Rewished (Step.Release part) self.old self.new result }
    {
        let part = u8::from(Part::try_from(part)?);
        self.wanted = self.wanted.without(part);
        self.barred = self.barred.without(part);
        Ok(())
    }

    // Whether an outfit meets the wishes, and if not, which is the first that it does not meet.
    pub(crate) fn met_by(&self, outfit: Parts) -> Result<(), Refusal>
        ensures { MatchResult result (λ _. MeetsWishes (wish_of self.now) outfit) (λ e. Unmet (wish_of self.now) outfit (numbered e)) }
    {
        if let Some(part) = self.wanted.minus(outfit).lowest() {
            return Err(Refusal::WantedMissing { part });
        }
        match self.barred.common(outfit).lowest() {
            Some(part) => Err(Refusal::BarredPresent { part }),
            None => Ok(()),
        }
    }
}
