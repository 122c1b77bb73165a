// Whether a frame is as its kind must be: tests of the 224 bytes where they lie.
ghost use Rattle.std.specs.Prelude.{◌≡◌, length};
ghost use Rattle.protocol.specs.Frame.{frame_well_formed};
ghost use Rattle.frames.specs.Parts.{frame_fields, frame_rest, frame_block_part};

use crate::kind::FrameKind;
use crate::parts::{frame_digest, frame_height, frame_mask, frame_signer, named_kind};
use wire::block::block_well_formed;
use wire::bytes::is_zero;

// Whether a frame is as its kind must be. Reads no byte more than three times, the fields first, and copies none.
#[tactic(auto, using(crate::proofs::FrameRows::frame_is))]
pub fn frame_well_formed(frame: &[u8]) -> bool
    ensures { result ≡ frame_well_formed frame.now }
{
    frame.len() == 224 && fields_fit(frame) && rest_fits(frame)
}

// Whether the kind is one of the seven, and the signer and the mask are there only for the kinds that have them. Costs
// four reads.
#[tactic(auto, unfolding(crate::specs::Parts::frame_fields, protocol::specs::Frame::is_statement, protocol::specs::Frame::is_certificate, protocol::specs::Tests::in_range, protocol::specs::Tests::all_of))]
fn fields_fit(frame: &[u8]) -> bool
    requires { length frame.now ≡ 224 }
    ensures { result ≡ frame_fields frame.now }
{
    let Some(kind) = named_kind(frame) else {
        return false;
    };
    if kind.is_statement() {
        frame_mask(frame) == 0
    } else {
        frame_signer(frame) == 0
    }
}

// Whether the digest and the block are there only for the kinds that have them, and the block is well formed.
// Costs a pass over the bytes from 6 on.
#[tactic(auto, unfolding(crate::specs::Parts::frame_rest, protocol::specs::Frame::carries_digest, protocol::specs::Bytes::part, protocol::specs::Frame::frame_digest, protocol::specs::Tests::all_of))]
fn rest_fits(frame: &[u8]) -> bool
    requires { length frame.now ≡ 224 }
    ensures { result ≡ frame_rest frame.now }
{
    let voted = matches!(named_kind(frame), Some(FrameKind::BlockVote));
    is_zero(&frame[6..16]) && (voted || is_zero(frame_digest(frame))) && block_fits(frame)
}

// Whether the last 176 bytes are a block of the frame's height, for the kinds that carry one, and zero for the others.
// Costs a pass over them, where they lie.
#[tactic(auto, using(crate::specs::Laws::PartLaws::block_lent), unfolding(crate::specs::Parts::frame_block_part, protocol::specs::Frame::carries_block, protocol::specs::Tests::implies, protocol::specs::Tests::all_of))]
fn block_fits(frame: &[u8]) -> bool
    requires { length frame.now ≡ 224 }
    ensures { result ≡ frame_block_part frame.now }
{
    if let Some(FrameKind::Proposal | FrameKind::BlockCertificate) = named_kind(frame) {
        block_well_formed(&frame[48..224], frame_height(frame))
    } else {
        is_zero(&frame[48..224])
    }
}
