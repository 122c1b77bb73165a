// The digest of a byte slice, FIPS 180-4, section 6.2.2: the whole blocks where they lie, then the rest with the
// padding.
ghost use Rattle.std.specs.Prelude.{◌≡◌, ◌%◌, ◌++◌, length};
ghost use Rattle.sha256.specs.Digest.{initial_hash, hash_all, words_bytes, sha256};
ghost use Rattle.sha256_padding.specs.Padding.{padding};

use crate::compression::compress;
use sha256_padding::{begin, put_length};

// Section 5.3.3: the hash value before the first block.
const INITIAL_HASH: [u32; 8] = [
    0x6a09e667, 0xbb67ae85, 0x3c6ef372, 0xa54ff53a, 0x510e527f, 0x9b05688c, 0x1f83d9ab, 0x5be0cd19,
];

// The table of the initial hash value, held against the standard's.
#[tactic(auto, unfolding(crate::specs::Digest::initial_hash))]
fn initial_hash() -> [u32; 8]
    ensures { result ≡ initial_hash }
{
    INITIAL_HASH
}

// The hash value after the whole blocks of `bytes`, each read where it lies; `start` is the hash value before them.
fn hash_blocks(start: [u32; 8], bytes: &[u8]) -> [u32; 8]
    ensures { result ≡ hash_all start bytes.now }
{
    let (blocks, _) = bytes.as_chunks::<64>();
    blocks.iter().fold(start, compress)
}

// The hash value after the last bytes of a message of `size` bytes, fewer than a block, and the padding.
fn hash_rest(hash: [u32; 8], rest: &[u8], size: usize) -> [u32; 8]
    requires { length rest.now ≡ size % 64 }
    ensures { result ≡ hash_all hash (rest.now ++ padding size) }
{
    let mut block = [0u8; 64];
    begin(&mut block, rest);
    if rest.len() < 56 {
        put_length(&mut block, size);
        return hash_blocks(hash, &block);
    }
    let next = hash_blocks(hash, &block);
    let mut last = [0u8; 64];
    put_length(&mut last, size);
    hash_blocks(next, &last)
}

// The words of a hash value as bytes, the most significant of each first.
fn to_bytes(hash: [u32; 8]) -> [u8; 32]
    ensures { result ≡ words_bytes hash }
{
    let mut bytes = [0u8; 32];
    for i in 0..8 {
        bytes[4 * i..4 * i + 4].copy_from_slice(&hash[i].to_be_bytes());
    }
    bytes
}

// SHA-256 of any message.
pub fn sha256(message: &[u8]) -> [u8; 32]
    ensures { result ≡ sha256 message.now }
{
    let (_, rest) = message.as_chunks::<64>();
    to_bytes(hash_rest(hash_blocks(initial_hash(), message), rest, message.len()))
}
