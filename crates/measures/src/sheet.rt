// A sheet of cards, as a measure.
ghost use Rattle.std.specs.Prelude.{◌≡◌, length};
ghost use Rattle.std.specs.Option.{ForSome};
ghost use Rattle.sets.specs.Width.{how_many};

use crate::card::Card;
use crate::measure::Measure;
use refusals::Refusal;
use sets::parts::{PARTS, Part};

/// A sheet: a card for each part, at its number; in place, since no step may ask for memory.
#[derive(Drop)]
pub struct Sheet<C> {
    cards: [C; PARTS],
    ghost room: { length cards ≡ how_many },
}

impl<C: Copy> Sheet<C> {
    ghost use Rattle.measures.specs.Writing.{on};

    /// The card of a part, or none where there is no such part: of cards of any type.
    pub fn at(&self, part: u8) -> Option<C>
        ensures { result ≡ on self.now part }
    {
        self.cards.get(part as usize).copied()
    }
}

impl<C: Card> Sheet<C> {
    ghost use Rattle.measures.specs.Writing.{Everywhere, SetCard, shown_on};

    /// The sheet on which every card shows where values start.
    pub fn new() -> Sheet<C>
        ensures { Everywhere C.joining.start (shown_on C.shown result) }
    {
        Sheet {
            cards: [C::zero(); PARTS],
        }
    }

    /// Sets the card of a part by its number. A refused number changes nothing.
    pub fn set(&mut self, part: u8, number: C::Number) -> Result<(), Refusal>
        ensures { SetCard (shown_on C.shown) C.limit C.code C.Shows part (C.number_of number) self.old self.new result }
    {
        let place = usize::from(Part::try_from(part)?);
        self.cards[place] = C::from_number(number).ok_or(C::refusal(part))?;
        Ok(())
    }

    /// What the card of a part shows, or none where there is no such part.
    pub fn card(&self, part: u8) -> Option<C::Value>
        ensures { result ≡ shown_on C.shown self.now part }
    {
        self.at(part).map(|card| card.value())
    }
}

impl<C: Card> Measure for Sheet<C> {
    ghost use Rattle.measures.specs.Writing.{shown_on};
    ghost use Rattle.measures.specs.Sheets.{joined, scale_of};

    type Value = C::Value;

    ghost scale = { λ s. scale_of C.joining (shown_on C.shown s) };

    fn start(&self) -> C::Value {
        C::zero().value()
    }

    fn extend(&self, value: &C::Value, part: u8) -> C::Value
        ensures extended { result ≡ joined C.joining value.now (shown_on C.shown self.now part) }
        ensures joins { ForSome (shown_on C.shown self.now part) (λ card. C.Joins value.now card result) }
    {
        match self.card(part) {
            Some(card) => C::join(*value, card),
            None => *value,
        }
    }

    fn at_most(&self, a: &C::Value, b: &C::Value) -> bool {
        C::at_most(*a, *b)
    }
}
