// Short lists held in place, so that no step on them asks for memory.
#![tactic(auto)]

pub mod held;
