// The calls of an observer, on lent byte slices and numbers of any value. A refused call changes nothing.
#![tactic(auto)]

pub mod deliver;
mod log;
pub mod make_move;
pub mod open;
pub mod read;
