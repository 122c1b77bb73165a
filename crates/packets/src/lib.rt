// Packets of frames: a reader that borrows the packet, and the call that delivers every frame of one in order.
#![tactic(auto)]

pub mod deliver;
pub mod reader;
