// The writing of each kind of frame at the front of a buffer.
ghost use Rattle.std.specs.Prelude.{◌≡◌, ◌<◌, ◌≤◌, length};
ghost use Rattle.protocol.specs.Bytes.{zeros, over_front};
ghost use Rattle.protocol.specs.Frame.{frame_of, block_vote, dummy_vote, finalize, block_certificate};
ghost use Rattle.frames.specs.Parts.{frame_head};

use crate::kind::FrameKind;
use wire::bytes::{clear, copy_to, put_byte, put_word};
use wire::numbered::Numbered;

// Writes the first 16 bytes of a frame, its kind by name or by number. Costs 16 stores.
#[tactic(auto, using(crate::proofs::Writes::head_starts))]
fn write_head<K: Numbered>(out: &mut [u8], kind: K, signer: usize, h: usize, mask: usize)
    requires in_bounds { 224 ≤ length out.old }
    requires kind_bound { K.number kind < 256 }
    requires fits { (signer < 256) × (h < 65536) × (mask < 65536) }
    ensures { out.new ≡ over_front (frame_head (K.number kind) signer h mask) out.old }
{
    put_byte(out, 0, kind.number());
    put_byte(out, 1, signer);
    put_word(out, 2, h);
    put_word(out, 4, mask);
    clear(out, 6, 10);
}

// Writes a frame that carries neither digest nor block to the first 224 bytes, its kind by name or by number. Costs one
// store for each.
#[tactic(auto, using(crate::proofs::Writes::plain_follows))]
pub fn write_plain<K: Numbered>(out: &mut [u8], kind: K, signer: usize, h: usize, mask: usize)
    requires in_bounds { 224 ≤ length out.old }
    requires kind_bound { K.number kind < 256 }
    requires fits { (signer < 256) × (h < 65536) × (mask < 65536) }
    ensures { out.new ≡
        over_front (frame_of (K.number kind) signer h mask (zeros 32) (zeros 176)) out.old }
{
    write_head(out, kind, signer, h, mask);
    clear(out, 16, 208);
}

// Writes a frame that carries a block and no digest to the first 224 bytes. Costs one store for each.
#[tactic(auto, using(crate::proofs::Writes::block_follows))]
fn write_with_block<K: Numbered>(
    out: &mut [u8],
    kind: K,
    signer: usize,
    h: usize,
    mask: usize,
    block: &[u8],
)
    requires in_bounds { 224 ≤ length out.old }
    requires kind_bound { K.number kind < 256 }
    requires fits { (signer < 256) × (h < 65536) × (mask < 65536) }
    requires block_len { length block.now ≡ 176 }
    ensures { out.new ≡
        over_front (frame_of (K.number kind) signer h mask (zeros 32) block.now) out.old }
{
    write_head(out, kind, signer, h, mask);
    clear(out, 16, 32);
    copy_to(out, 48, block);
}

// Writes a vote for the dummy block: 224 stores.
#[tactic(auto, unfolding(protocol::specs::Frame::dummy_vote))]
pub fn write_dummy_vote(out: &mut [u8], signer: usize, h: usize)
    requires in_bounds { 224 ≤ length out.old }
    requires signer_bound { (signer < 256) × (h < 65536) }
    ensures { out.new ≡ over_front (dummy_vote signer h) out.old }
{
    write_plain(out, FrameKind::DummyVote, signer, h, 0);
}

// Writes a finalize statement: 224 stores.
#[tactic(auto, unfolding(protocol::specs::Frame::finalize))]
pub fn write_finalize(out: &mut [u8], signer: usize, h: usize)
    requires in_bounds { 224 ≤ length out.old }
    requires signer_bound { (signer < 256) × (h < 65536) }
    ensures { out.new ≡ over_front (finalize signer h) out.old }
{
    write_plain(out, FrameKind::Finalize, signer, h, 0);
}

// Writes a vote for a block, which names it by its digest: 224 stores.
#[tactic(auto, using(crate::proofs::Writes::digest_follows), unfolding(protocol::specs::Frame::block_vote))]
pub fn write_block_vote(out: &mut [u8], signer: usize, h: usize, digest: &[u8])
    requires in_bounds { 224 ≤ length out.old }
    requires signer_bound { (signer < 256) × (h < 65536) }
    requires digest_len { length digest.now ≡ 32 }
    ensures { out.new ≡ over_front (block_vote signer h digest.now) out.old }
{
    write_head(out, FrameKind::BlockVote, signer, h, 0);
    copy_to(out, 16, digest);
    clear(out, 48, 176);
}

// Writes a notarization of a block: 224 stores.
#[tactic(auto, unfolding(protocol::specs::Frame::block_certificate))]
pub fn write_block_certificate(out: &mut [u8], h: usize, mask: usize, block: &[u8])
    requires in_bounds { 224 ≤ length out.old }
    requires h_bound { (h < 65536) × (mask < 65536) }
    requires block_len { length block.now ≡ 176 }
    ensures { out.new ≡ over_front (block_certificate h mask block.now) out.old }
{
    write_with_block(out, FrameKind::BlockCertificate, 0, h, mask, block);
}
