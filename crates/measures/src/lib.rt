// Measures: how outfits are valued, and how values compare.
#![tactic(auto)]

pub mod card;
pub mod head_sheet;
pub mod measure;
pub mod pence;
pub mod price_sheet;
pub mod sheet;
pub mod value;
