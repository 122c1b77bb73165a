// The entries of a chain, and the pending entries beside those of a chain.
#![tactic(auto)]

pub mod chains;
pub mod entries;
