// Why a call is refused: every case that there is, with its number and its place.
#![tactic(auto)]

ghost use Rattle.std.specs.Prelude.{◌≡◌, Some};
ghost use Rattle.refusals.specs.Refusals.{numbered, told, ToldApart};

use std::error::Error;
use std::fmt;

/// A refusal, with what it is about: a rule by its number, a part by its number, a place or a length.
#[derive(Clone, Copy, PartialEq, Eq, Debug)]
pub enum Refusal {
    /// The kind of a rule does not fit its heads.
    UnfitKind,
    /// A book is full: it has this many rules.
    BookFull { length: usize },
    /// An enquiry has this many own rules, and takes no more.
    OwnFull { length: usize },
    /// No own rule stands at this place.
    NoOwnRule { place: usize },
    /// There is no part of this number.
    NoPart { part: u8 },
    /// A barred part would be wanted, or a wanted part barred.
    Clash { part: u8 },
    /// A buffer is too short for a justification.
    ShortBuffer,
    /// A rule applies and has heads, and none of them is chosen.
    NoneChosen { rule: u8 },
    /// An exclusive choice applies, and several of its heads are chosen.
    SeveralChosen { rule: u8 },
    /// An incompatibility applies.
    Incompatible { rule: u8 },
    /// A part of the outfit has no round.
    NoRound { part: u8 },
    /// A wanted part is not in the outfit.
    WantedMissing { part: u8 },
    /// A barred part is in the outfit.
    BarredPresent { part: u8 },
    /// The head that is given for this part is out of range.
    HeadRange { part: u8 },
    /// The price that is given for this part is above the limit.
    PriceLimit { part: u8 },
}

impl Refusal {
    // Numbers, since refusals are told by them outside.

    /// Its number and its place. No two refusals have both in common.
    pub fn code(self) -> (u8, usize)
        ensures value { result ≡ numbered self }
        ensures apart { ToldApart }
    {
        match self {
            Refusal::UnfitKind => (21, 0),
            Refusal::BookFull { length } => (22, length),
            Refusal::OwnFull { length } => (23, length),
            Refusal::NoOwnRule { place } => (24, place),
            Refusal::NoPart { part } => (41, part as usize),
            Refusal::Clash { part } => (42, part as usize),
            Refusal::ShortBuffer => (51, 0),
            Refusal::NoneChosen { rule } => (52, rule as usize),
            Refusal::SeveralChosen { rule } => (53, rule as usize),
            Refusal::Incompatible { rule } => (54, rule as usize),
            Refusal::NoRound { part } => (55, part as usize),
            Refusal::WantedMissing { part } => (56, part as usize),
            Refusal::BarredPresent { part } => (57, part as usize),
            Refusal::HeadRange { part } => (71, part as usize),
            Refusal::PriceLimit { part } => (72, part as usize),
        }
    }
}

impl fmt::Display for Refusal {
    ghost output = { λ e. Some (told (numbered e)) };

    fn fmt<W: fmt::Write>(&self, f: &mut fmt::Formatter<W>) -> fmt::Result {
        let (number, place) = self.code();
        write!(f, "{number} at {place}")
    }
}

impl Error for Refusal {}
