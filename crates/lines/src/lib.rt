// What the programs print and read: `print` has words, numbers and bytes in hexadecimal, `answered` the words of an
// exchange list (docs/EXCHANGE.md) for what a call answered, and `input` what is read from standard input.
#![tactic(auto)]

pub mod answered;
pub mod input;
pub mod print;
