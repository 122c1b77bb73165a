// The filter of a call: a key of 32 bytes, then a bit for each place. An entry has a place, worked out from its bytes
// and the key, and one bit is set for each entry that was gone through. Where an entry's bit is not set, no equal entry
// came before, and nobody has to look back.
#![tactic(auto)]

ghost use Rattle.std.specs.Prelude.{◌≡◌, false, List, [], ◌∷◌, ◌++◌, ◌+◌, ◌<◌, length};
ghost use Rattle.protocol.specs.Bytes.{Bytes, holds};
ghost use Rattle.filter.specs.Filter.{word32, place_of, byte_of, Marked};

use wire::bytes::{byte, word};

// The size of a filter for up to 64 heights: 64 places for each entry that these can have.
pub const SMALL: usize = 4128;

// The size of a filter for up to 1,024 heights, likewise.
pub const LARGE: usize = 65568;

// The 32-bit number at `at`, its low byte first. Costs four reads.
fn long_word(bytes: &[u8], at: usize) -> usize
    requires { at + 3 < length bytes.now }
    ensures { (result ≡ word32 bytes.now at) × (result < 4294967296) }
{
    u32::from_le_bytes([bytes[at], bytes[at + 1], bytes[at + 2], bytes[at + 3]]) as usize
}

// The place of an entry in a filter with this key. Costs 48 reads, eight products and a division by a prime.
fn place(filter: &[u8], entry: &[u8]) -> usize
    requires in_bounds { 32 < length filter.now }
    requires len { length entry.now ≡ 16 }
    ensures { result ≡ place_of filter.now entry.now }
{
    let mut sum = 0;
    for i in 0..8 {
        sum += long_word(filter, 4 * i) * word(entry, 2 * i);
    }
    sum % 4294967291
}

// Where the byte of a place is in a filter of this size. A division by a constant for a small one.
fn byte_of(size: usize, place: usize) -> usize
    requires { 32 < size }
    ensures { (result ≡ byte_of size place) × (result < size) }
{
    if size == SMALL {
        return 32 + place / 8 % 4096;
    }
    32 + place / 8 % (size - 32)
}

// Sets the bit of an entry, and says whether it was set before: if not, no entry that was gone through equals it.
pub fn mark(filter: &mut [u8], entry: &[u8]) -> bool
    requires in_bounds { 32 < length filter.old }
    requires len { length entry.now ≡ 16 }
    ensures unset { (es : List Bytes) → Marked filter.old es → result ≡ false →
        holds entry.now es ≡ false }
    ensures marked { (es : List Bytes) → Marked filter.old es →
        Marked filter.new (es ++ (entry.now ∷ [])) }
{
    let place = place(filter, entry);
    let at = byte_of(filter.len(), place);
    let bit = place % 8;
    let before = byte(filter, at);
    if wire::mask::in_mask(before, bit) {
        return true;
    }
    filter[at] = (before + wire::mask::bit(bit)) as u8;
    false
}
