// The steps of an enquiry, and what it holds.
ghost use Rattle.std.specs.Prelude.{◌≡◌};
ghost use Rattle.sets.specs.Members.{Holds};
ghost use Rattle.checking.specs.Calls.{wanted, barred, start};
ghost use Rattle.checking.specs.Enquiries.{state_of, Holding, Stepped};

use crate::book::Book;
use crate::book::own::MOST_OWN;
use crate::call::Step;
use crate::enquiry::Enquiry;
use crate::rule::Rule;
use crate::wishes::Wishes;
use lists::held::Held;
use measures::measure::Measure;
use refusals::Refusal;
use sets::parts::Parts;

impl<B: Book, M: Measure> Enquiry<B, M> {
    /// A new enquiry: no own rules and no wishes.
    pub fn open(book: B, measure: M) -> Self
        ensures { Holding book measure start result }
    {
        Enquiry {
            book,
            measure,
            own: Held::none(Rule::blank()),
            wishes: Wishes::none(),
        }
    }

    /// Puts a rule last among the own rules.
    pub fn add(&mut self, rule: Rule) -> Result<(), Refusal>
        ensures { Stepped (Step.Add rule) self.old self.new result }
    {
        self.own
            .push(rule)
            .map_err(|_| Refusal::OwnFull { length: MOST_OWN })
    }

    /// Removes the own rule at a place, counted from 0; later ones move down by one.
    pub fn strike(&mut self, place: usize) -> Result<(), Refusal>
        ensures { Stepped (Step.Strike place) self.old self.new result }
    {
        self.own.remove(place).ok_or(Refusal::NoOwnRule { place })?;
        Ok(())
    }

    // Calls that users make: each hands on to the part of the state that it is about.

    /// Puts a part among the wanted.
    pub fn want(&mut self, part: u8) -> Result<(), Refusal>
        ensures { Stepped (Step.Want part) self.old self.new result }
    {
        self.wishes.want(part)
    }

    /// Puts a part among the barred.
    pub fn bar(&mut self, part: u8) -> Result<(), Refusal>
        ensures { Stepped (Step.Bar part) self.old self.new result }
    {
        self.wishes.bar(part)
    }

    /// Takes a part out of the wanted and the barred.
    pub fn release(&mut self, part: u8) -> Result<(), Refusal>
        ensures { Stepped (Step.Release part) self.old self.new result }
    {
        self.wishes.release(part)
    }

    /// The book.
    pub fn book(&self) -> &B
        ensures { result.now ≡ self.now.book }
    {
        &self.book
    }

    /// The measure.
    pub fn measure(&self) -> &M
        ensures { result.now ≡ self.now.measure }
    {
        &self.measure
    }

    /// The own rules.
    pub fn own(&self) -> &[Rule]
        ensures { result.now ≡ (state_of self.now).own }
    {
        self.own.items()
    }

    /// The wanted parts.
    pub fn wanted(&self) -> Parts
        ensures { Holds result (λ p. (state_of self.now).wish p ≡ wanted) }
    {
        self.wishes.wanted()
    }

    /// The barred parts.
    pub fn barred(&self) -> Parts
        ensures { Holds result (λ p. (state_of self.now).wish p ≡ barred) }
    {
        self.wishes.barred()
    }
}
