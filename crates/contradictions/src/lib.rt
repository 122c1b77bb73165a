// Frames that contradict what a height keeps: refusals 8 and 10, and the second proposal of a leader, which fires the
// timer.
#![tactic(auto)]

mod clash;
mod equivocation;

pub use clash::clash_refusal;
pub use equivocation::{fire_timer, leader_equivocates};
