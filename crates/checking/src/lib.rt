// Judging outfits: a library by itself, on which offering outfits can be built. Data flows through its modules in this order: rule,
// book, validity, case, justification, checker, call, wishes, enquiry.
#![tactic(auto)]

pub mod book;
pub mod call;
mod case;
pub mod checker;
pub mod enquiry;
pub mod justification;
pub mod rule;
mod validity;
mod wishes;
