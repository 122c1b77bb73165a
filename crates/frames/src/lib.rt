// Frames, 224 bytes each: their parts, the test of their form, and the writing of each kind.
#![tactic(auto)]

mod kind;
mod parts;
mod well_formed;
mod write;

pub use kind::FrameKind;
pub use parts::{
    frame_block, frame_block_digest, frame_digest, frame_height, frame_kind, frame_mask,
    frame_signer, frame_signers, is_certificate, is_statement, named_kind,
};
pub use well_formed::frame_well_formed;
pub use write::{
    write_block_certificate, write_block_vote, write_dummy_vote, write_finalize, write_plain,
};
