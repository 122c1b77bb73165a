// The last one or two blocks of the padded message: FIPS 180-4, section 5.1.1.
#![tactic(auto)]

ghost use Rattle.std.specs.Prelude.{◌≡◌, ◌++◌, ◌*◌, ◌<◌, length, take};
ghost use Rattle.sha256_padding.specs.Padding.{big_endian, zeros};
ghost use Rattle.sha256_padding.specs.Ending.{opened};

// Writes `rest` and the byte 0x80 to the front of a block of zeros.
pub fn begin(block: &mut [u8; 64], rest: &[u8])
    requires block_value { block.old ≡ zeros 64 }
    requires rest_len_bound { length rest.now < 64 }
    ensures block_after { block.new ≡ opened rest.now }
    ensures block_len { length block.new ≡ 64 }
{
    block[..rest.len()].copy_from_slice(rest);
    block[rest.len()] = 0x80;
}

// Writes the number of bits of `size` bytes to the last 8 bytes of a block, the most significant first.
// A slice has fewer than 2 ^ 63 bytes; the standard has no digest from 2 ^ 61 bytes on, and there the lowest 64 bits
// are written.
pub fn put_length(block: &mut [u8; 64], size: usize)
    requires { length block.old ≡ 64 }
    ensures block_after { block.new ≡ take 56 block.old ++ big_endian 8 (8 * size) }
    ensures block_len { length block.new ≡ 64 }
{
    let bits = (size as u64).wrapping_mul(8);
    block[56..].copy_from_slice(&bits.to_be_bytes());
}
