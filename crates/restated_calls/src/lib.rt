// Written by tests/restated --write: the kept contracts, each of a function that calls the one that has it.
#![tactic(auto)]

pub mod observer_deliver;
pub mod observer_make_move;
pub mod observer_open;
pub mod observer_read;
pub mod replica_c_calls;
pub mod replica_deliver;
pub mod replica_fetch;
pub mod replica_make_move;
pub mod replica_open;
pub mod replica_packet;
pub mod replica_read;
pub mod replica_signal;
pub mod replica_submit;
pub mod sha256_c_calls;
pub mod sha256_digest;
