// Heads of water: 0 to 100 metres, compared as floats.
#![tactic(auto)]

pub mod head;
