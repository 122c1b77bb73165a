// Blocks: tests of the 176 bytes where they lie, and their making in place.
ghost use Rattle.std.specs.Prelude.{◌≡◌, [], ◌∷◌, ◌+◌, ◌*◌, ◌<◌, ◌≤◌, length};
ghost use Rattle.protocol.specs.Bytes.{over_front, put};
ghost use Rattle.protocol.specs.Block.{block_height, parent_height, entry_count, block_well_formed, new_block};
ghost use Rattle.wire.specs.Parts.{block_fields, block_parent, block_rest};

use crate::bytes::{byte, clear, copy_to, is_zero, put_byte, put_word, word};

// The height of a block. Costs two reads.
pub fn block_height(block: &[u8]) -> usize
    requires { length block.now ≡ 176 }
    ensures { (result ≡ block_height block.now) × (result < 65536) }
{
    word(block, 0)
}

// The height of a block's parent. Costs two reads.
pub fn parent_height(block: &[u8]) -> usize
    requires { length block.now ≡ 176 }
    ensures { (result ≡ parent_height block.now) × (result < 65536) }
{
    word(block, 2)
}

// How many entries a block has. Costs one read.
pub fn entry_count(block: &[u8]) -> usize
    requires { length block.now ≡ 176 }
    ensures { (result ≡ entry_count block.now) × (result < 256) }
{
    byte(block, 4)
}

// Whether a block is as it must be at height `h`. Reads no byte more than three times, the fields first, and copies
// none.
#[tactic(auto, using(crate::proofs::BlockRows::block_is, crate::proofs::BlockRows::few_entries))]
pub fn block_well_formed(block: &[u8], h: usize) -> bool
    ensures { result ≡ block_well_formed h block.now }
{
    block.len() == 176 && fields_fit(block, h) && rest_fits(block)
}

// Whether the first five bytes fit height `h`. Costs five reads.
#[tactic(auto, unfolding(crate::specs::Parts::block_fields, protocol::specs::Tests::all_of))]
fn fields_fit(block: &[u8], h: usize) -> bool
    requires { length block.now ≡ 176 }
    ensures { result ≡ block_fields h block.now }
{
    block_height(block) == h && parent_height(block) < h && entry_count(block) <= 8
}

// Whether a block with no parent has no digest either. Costs two reads, or a pass over 32 bytes.
#[tactic(auto, unfolding(crate::specs::Parts::block_parent, protocol::specs::Tests::implies, protocol::specs::Block::parent_digest, protocol::specs::Bytes::part))]
fn parent_fits(block: &[u8]) -> bool
    requires { length block.now ≡ 176 }
    ensures { result ≡ block_parent block.now }
{
    parent_height(block) != 0 || is_zero(&block[16..48])
}

// Whether the bytes that the fields leave unused are zero, those past the entries too. Costs a pass over each unused
// byte.
#[tactic(auto, using(crate::proofs::Rows::part_from), unfolding(crate::specs::Parts::block_rest, protocol::specs::Tests::all_of, protocol::specs::Bytes::part))]
fn rest_fits(block: &[u8]) -> bool
    requires block_len { length block.now ≡ 176 }
    requires block_bound { entry_count block.now ≤ 8 }
    ensures { result ≡ block_rest block.now }
{
    let used = 48 + 16 * entry_count(block);
    is_zero(&block[5..16]) && parent_fits(block) && is_zero(&block[used..])
}

// Makes the first 176 bytes the block of height `h` on a parent, with no entries. Costs one store for each of them.
pub fn start_block(block: &mut [u8], h: usize, parent: usize, digest: &[u8])
    requires in_bounds { 176 ≤ length block.old }
    requires h_bound { (h < 65536) × (parent < 65536) }
    requires digest_len { length digest.now ≡ 32 }
    ensures { block.new ≡ over_front (new_block h parent digest.now []) block.old }
{
    put_word(block, 0, h);
    put_word(block, 2, parent);
    clear(block, 4, 12);
    copy_to(block, 16, digest);
    clear(block, 48, 128);
}

// Puts one more entry behind the `count` that the block has, and counts it. Costs 17 stores.
pub fn add_entry(block: &mut [u8], count: usize, entry: &[u8])
    requires in_bounds { 176 ≤ length block.old }
    requires count_bound { count < 8 }
    requires len { length entry.now ≡ 16 }
    ensures { block.new ≡
        put (put block.old (48 + 16 * count) entry.now) 4 ((count + 1) ∷ []) }
{
    copy_to(block, 48 + 16 * count, entry);
    put_byte(block, 4, count + 1);
}
