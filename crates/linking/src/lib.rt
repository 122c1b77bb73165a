// Linked and finalized heights: the walk back over parent heights.
#![tactic(auto)]

pub mod alone;
pub mod linking;
