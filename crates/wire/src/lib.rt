// Bytes as they are sent and kept: byte strings, blocks and masks, tested and written where they lie.
#![tactic(auto)]

pub mod block;
pub mod bytes;
pub mod mask;
pub mod numbered;
pub mod weights;
