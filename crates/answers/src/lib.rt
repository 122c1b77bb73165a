// What the calls of a replica answer, and why they refuse.
#![tactic(auto)]

pub mod answer;
pub mod refusal;
