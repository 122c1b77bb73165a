// The compression of FIPS 180-4, section 6.2.2, steps 1 to 4: from a hash value and a block of 64 bytes to the next
// hash value.
// A word of the schedule is computed beside the round that is sixteen before its own, four rounds to a turn of the
// loop: one round to a turn takes 1.32 times the instructions, and the whole schedule before the rounds 1.07 times.
ghost use Rattle.std.specs.Prelude.{◌≡◌, ◌+◌, ◌<◌, slice_index, slice_set};
ghost use Rattle.sha256_schedule.specs.Schedule.{next_word};
ghost use Rattle.sha256_rounds.specs.Rounds.{round};
ghost use Rattle.sha256.specs.Compression.{add_words, compression};
ghost use Rattle.sha256.specs.Steps.{rounds_from, extended_from};

use sha256_rounds::{one_round, round_constants};
use sha256_schedule::{message_words, next_word};

// The round t, and the word of the schedule sixteen further on.
fn step(s: [u32; 8], k: &[u32; 64], w: &mut [u32; 64], t: usize) -> [u32; 8]
    requires { t < 48 }
    ensures value { result ≡ round (slice_index k.now t) (slice_index w.old t) s }
    ensures w_after { w.new ≡ slice_set w.old (16 + t) (next_word w.old (16 + t)) }
{
    let turned = one_round(s, k[t], w[t]);
    w[16 + t] = next_word(w, 16 + t);
    turned
}

// Four steps, from round t on.
fn four_steps(s: [u32; 8], k: &[u32; 64], w: &mut [u32; 64], t: usize) -> [u32; 8]
    requires { t < 45 }
    ensures value { result ≡ rounds_from k.now w.old s t 4 }
    ensures w_after { w.new ≡ extended_from w.old t 4 }
{
    let one = step(s, k, w, t);
    let two = step(one, k, w, t + 1);
    let three = step(two, k, w, t + 2);
    step(three, k, w, t + 3)
}

// Four rounds, from round t on, whose words are all there. One function with `four_steps` would take a closure that is
// lent `w`: no plainer than four calls.
fn four_rounds(s: [u32; 8], k: &[u32; 64], w: &[u32; 64], t: usize) -> [u32; 8]
    requires { t < 61 }
    ensures { result ≡ rounds_from k.now w.now s t 4 }
{
    let one = one_round(s, k[t], w[t]);
    let two = one_round(one, k[t + 1], w[t + 1]);
    let three = one_round(two, k[t + 2], w[t + 2]);
    one_round(three, k[t + 3], w[t + 3])
}

// The working variables s, added word by word to the hash value.
fn add_words(s: [u32; 8], hash: [u32; 8]) -> [u32; 8]
    ensures { result ≡ add_words s hash }
{
    [
        s[0].wrapping_add(hash[0]),
        s[1].wrapping_add(hash[1]),
        s[2].wrapping_add(hash[2]),
        s[3].wrapping_add(hash[3]),
        s[4].wrapping_add(hash[4]),
        s[5].wrapping_add(hash[5]),
        s[6].wrapping_add(hash[6]),
        s[7].wrapping_add(hash[7]),
    ]
}

// The hash value after the block: the rounds 0 to 47 with the words 16 to 63 of the schedule, and the last 16 rounds.
pub fn compress(hash: [u32; 8], block: &[u8; 64]) -> [u32; 8]
    ensures { result ≡ compression hash block.now }
{
    let mut w = message_words(block);
    let k = round_constants();
    // `turned` comes first: the borrow checker covers no call that lays its result in an array.
    let mut s = hash;
    for i in 0..12 {
        let turned = four_steps(s, &k, &mut w, 4 * i);
        s = turned;
    }
    for i in 0..4 {
        let turned = four_rounds(s, &k, &w, 48 + 4 * i);
        s = turned;
    }
    add_words(s, hash)
}
