// Byte strings in slices: tests over every byte, 16-bit numbers, and parts that are written.
ghost use Rattle.std.specs.Prelude.{◌≡◌, ◌+◌, ◌<◌, ◌≤◌, length, [], ◌∷◌};
ghost use Rattle.protocol.specs.Bytes.{byte_at, word16, le16, zeros, is_zero, same, put};

// Whether every byte is 0. Costs one pass, with no early end, so that it can go many bytes at a time.
pub fn is_zero(bytes: &[u8]) -> bool
    ensures { result ≡ is_zero bytes.now }
{
    bytes.iter().fold(0, |seen, byte| seen | byte) == 0
}

// Whether two byte strings are equal. Costs one pass over strings of one length, and nothing for others.
pub fn same_bytes(a: &[u8], b: &[u8]) -> bool
    ensures { result ≡ same a.now b.now }
{
    a.len() == b.len() && difference::difference(a, b, a.len()) == 0
}

// The byte at `at`, as a wide number. Costs one read.
pub fn byte(bytes: &[u8], at: usize) -> usize
    requires { at < length bytes.now }
    ensures { (result ≡ byte_at bytes.now at) × (result < 256) }
{
    usize::from(bytes[at])
}

// Writes a byte at `at`. Costs one store.
pub fn put_byte(bytes: &mut [u8], at: usize, value: usize)
    requires at_in_bounds { at < length bytes.old }
    requires value_bound { value < 256 }
    ensures { bytes.new ≡ put bytes.old at (value ∷ []) }
{
    bytes[at] = value as u8;
}

// The 16-bit number at `at`, its low byte first. Costs two reads.
pub fn word(bytes: &[u8], at: usize) -> usize
    requires { at + 1 < length bytes.now }
    ensures { (result ≡ word16 bytes.now at) × (result < 65536) }
{
    usize::from(u16::from_le_bytes([bytes[at], bytes[at + 1]]))
}

// Writes a 16-bit number to the two bytes at `at`, its low byte first. Costs two stores.
pub fn put_word(bytes: &mut [u8], at: usize, value: usize)
    requires at_in_bounds { at + 1 < length bytes.old }
    requires value_bound { value < 65536 }
    ensures { bytes.new ≡ put bytes.old at (le16 value) }
{
    bytes[at..at + 2].copy_from_slice(&(value as u16).to_le_bytes());
}

// Copies `source` into `target`, from `at` on. Costs a read and a store for each byte of the source.
pub fn copy_to(target: &mut [u8], at: usize, source: &[u8])
    requires { at + length source.now ≤ length target.old }
    ensures { target.new ≡ put target.old at source.now }
{
    for i in 0..source.len() {
        target[at + i] = source[i];
    }
}

// Makes `count` bytes zero, from `at` on. Costs a store for each.
pub fn clear(target: &mut [u8], at: usize, count: usize)
    requires { at + count ≤ length target.old }
    ensures { target.new ≡ put target.old at (zeros count) }
{
    target[at..at + count].fill(0);
}
