// Sets of parts, and the one place that knows how many parts there are.
#![tactic(auto)]

pub mod parts;
