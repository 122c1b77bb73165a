// The refusals that keep a frame from being read, and tests that others can be made of.
#![tactic(auto)]

mod carried;
mod first;
mod read;

pub use carried::agrees;
pub use first::first_refusal;
pub use read::read_refusal;
