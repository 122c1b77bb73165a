// Deliver of an observer: a certificate that no refusal stands against is kept, each kind in its way.
#![tactic(auto)]

pub mod deliver;
mod keep;
