// The type of a rule, and the kinds of rules.
ghost use Rattle.checking.specs.Kinds.{number_of, Suits};

use sets::parts::Parts;

mod kinds;
mod making;

/// The kind of a rule.
#[derive(Clone, Copy, PartialEq, Eq, Debug)]
pub enum Kind {
    /// An incompatibility, which has no head, or a requirement, which has one. Its number is 0.
    Plain,
    /// A choice, of two heads or more. Its number is 1.
    Choice,
    /// An exclusive choice, of two heads or more. Its number is 2.
    Exclusive,
}

/// A rule: its kind, and three sets of parts. A part may stand in several of them. There is no rule whose kind does not fit its heads.
#[derive(Clone, Copy)]
pub struct Rule {
    pub kind: Kind,
    pub heads: Parts,
    pub needs: Parts,
    pub absences: Parts,
    ghost suits: { Suits (number_of kind) heads },
}
