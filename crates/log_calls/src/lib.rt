// The calls that walk the log, on a sound book: Submit, Register size and Read.
#![tactic(auto)]

pub mod read;
pub mod submit;
