// The calls of the station's replica, on lent byte slices and numbers of any value. A refused call changes nothing.
#![tactic(auto)]

pub mod deliver;
pub mod fetch;
pub mod make_move;
pub mod open;
pub mod packet;
pub mod read;
pub mod signal;
pub mod submit;
