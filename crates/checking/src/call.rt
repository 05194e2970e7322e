// What can be asked of an enquiry, one call after another.
use crate::rule::Rule;
use sets::parts::Bits;

/// A call that may change own rules or wishes.
#[derive(Clone, Copy)]
pub enum Step {
    /// Put a rule last among the own rules.
    Add(Rule),
    /// Remove the own rule at a place, counted from 0.
    Strike(usize),
    /// Put a part among the wanted.
    Want(u8),
    /// Put a part among the barred.
    Bar(u8),
    /// Take a part out of both.
    Release(u8),
}

/// Any call.
#[derive(Clone, Copy)]
pub enum Call {
    /// Make a step.
    Make(Step),
    /// Check an outfit, given by its number, with a buffer of this many bytes.
    Check { outfit: Bits, room: usize },
    /// Ask for the best outfit. Offers are made by a library above this one; an offer changes nothing.
    Offer,
}
