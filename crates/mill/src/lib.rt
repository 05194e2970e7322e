// A small tide mill: its parts, its rules, and its prices and heads of water; and how they are printed.
#![tactic(auto)]

pub mod fittings;
pub mod printing;
pub mod rules;
pub mod sheets;
