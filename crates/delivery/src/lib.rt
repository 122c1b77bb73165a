// Deliver: a frame that no refusal stands against is kept, each kind in its way, or fires the timer.
#![tactic(auto)]

pub mod deliver;
mod keep;
mod notarize;
