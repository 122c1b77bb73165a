// The parts of a frame where they lie: its fields, its digest and its block, and who signed it.
ghost use Rattle.std.specs.Prelude.{◌≡◌, ◌<◌, ◌≤◌, ◌⊎◌, MatchOption, length};
ghost use Rattle.sha256.specs.Digest.{sha256 as sha};
ghost use Rattle.protocol.specs.Frame.{kind, signer, frame_height, signer_mask, frame_digest, frame_block, is_statement};
ghost use Rattle.protocol.specs.Frame.{is_certificate};
ghost use Rattle.protocol.specs.Mask.{mask_limit};
ghost use Rattle.protocol.specs.State.{maximum_replicas};
ghost use Rattle.frames.specs.Kind.{number_of};
ghost use Rattle.frames.specs.Parts.{signers_of};

use crate::kind::FrameKind;
use wire::bytes::{byte, word};
use wire::mask::bit;

// The kind of a frame as a number, its first byte. Costs one read.
#[tactic(auto, unfolding(protocol::specs::Frame::kind))]
pub fn frame_kind(frame: &[u8]) -> usize
    requires { length frame.now ≡ 224 }
    ensures { (result ≡ kind frame.now) × (result < 256) }
{
    byte(frame, 0)
}

// The kind of a frame by its name, if its number is that of one. Costs one read.
pub fn named_kind(frame: &[u8]) -> Option<FrameKind>
    requires { length frame.now ≡ 224 }
    ensures { MatchOption result ((kind frame.now ≡ 0) ⊎ (7 < kind frame.now))
        (λ k. number_of k ≡ kind frame.now) }
{
    match frame_kind(frame) {
        1 => Some(FrameKind::Proposal),
        2 => Some(FrameKind::BlockVote),
        3 => Some(FrameKind::DummyVote),
        4 => Some(FrameKind::Finalize),
        5 => Some(FrameKind::BlockCertificate),
        6 => Some(FrameKind::DummyCertificate),
        7 => Some(FrameKind::FinalizeCertificate),
        _ => None,
    }
}

// The signer of a frame. Costs one read.
#[tactic(auto, unfolding(protocol::specs::Frame::signer))]
pub fn frame_signer(frame: &[u8]) -> usize
    requires { length frame.now ≡ 224 }
    ensures { (result ≡ signer frame.now) × (result < 256) }
{
    byte(frame, 1)
}

// The height of a frame. Costs two reads.
#[tactic(auto, unfolding(protocol::specs::Frame::frame_height))]
pub fn frame_height(frame: &[u8]) -> usize
    requires { length frame.now ≡ 224 }
    ensures { (result ≡ frame_height frame.now) × (result < 65536) }
{
    word(frame, 2)
}

// The mask of signers of a frame. Costs two reads.
#[tactic(auto, unfolding(protocol::specs::Frame::signer_mask))]
pub fn frame_mask(frame: &[u8]) -> usize
    requires { length frame.now ≡ 224 }
    ensures { (result ≡ signer_mask frame.now) × (result < 65536) }
{
    word(frame, 4)
}

// The digest's place in a frame, 32 bytes.
#[tactic(auto, using(crate::specs::Laws::PartLaws::digest_lent), unfolding(protocol::specs::Frame::frame_digest, protocol::specs::Bytes::part))]
pub fn frame_digest(frame: &[u8]) -> &[u8]
    requires { length frame.now ≡ 224 }
    ensures { (result.now ≡ frame_digest frame.now) × (length result.now ≡ 32) }
{
    &frame[16..48]
}

// The block's place in a frame, 176 bytes.
#[tactic(auto, using(crate::specs::Laws::PartLaws::block_lent))]
pub fn frame_block(frame: &[u8]) -> &[u8]
    requires { length frame.now ≡ 224 }
    ensures { (result.now ≡ frame_block frame.now) × (length result.now ≡ 176) }
{
    &frame[48..224]
}

// The digest of a frame's block, taken over the frame's own bytes. One digest.
pub fn frame_block_digest(frame: &[u8]) -> [u8; 32]
    requires { length frame.now ≡ 224 }
    ensures { result ≡ sha (frame_block frame.now) }
{
    sha256::sha256(frame_block(frame))
}

// Whether a frame is one replica's statement, kinds 1 to 4.
#[tactic(auto, unfolding(protocol::specs::Frame::is_statement, protocol::specs::Tests::in_range))]
pub fn is_statement(frame: &[u8]) -> bool
    requires { length frame.now ≡ 224 }
    ensures { result ≡ is_statement (kind frame.now) }
{
    matches!(named_kind(frame), Some(kind) if kind.is_statement())
}

// Whether a frame is a certificate, kinds 5 to 7.
#[tactic(auto, unfolding(protocol::specs::Frame::is_certificate, protocol::specs::Tests::in_range))]
pub fn is_certificate(frame: &[u8]) -> bool
    requires { length frame.now ≡ 224 }
    ensures { result ≡ is_certificate (kind frame.now) }
{
    matches!(named_kind(frame), Some(kind) if kind.is_certificate())
}

// The mask of a frame's signers: the one of a statement, or those of a certificate.
#[tactic(auto, using(crate::specs::Laws::PartLaws::statement_high), unfolding(crate::specs::Parts::signers_of))]
pub fn frame_signers(frame: &[u8]) -> usize
    requires frame_len { length frame.now ≡ 224 }
    requires frame_bound { kind frame.now ≤ 4 → signer frame.now < maximum_replicas }
    ensures { (result ≡ signers_of frame.now) × (result < mask_limit) }
{
    if is_statement(frame) {
        bit(frame_signer(frame))
    } else {
        frame_mask(frame)
    }
}
