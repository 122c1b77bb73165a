// The calls that need the book's fields alone, on a sound book: Open, Signal and Fetch.
#![tactic(auto)]

pub mod fetch;
pub mod open;
pub mod signal;
