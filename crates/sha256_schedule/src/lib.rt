// The message schedule of FIPS 180-4, section 6.2.2, step 1: the words of a block, and the words that follow from them.
#![tactic(auto)]

ghost use Rattle.std.specs.Prelude.{◌≡◌, ◌<◌, ◌≤◌, length, take};
ghost use Rattle.sha256_schedule.specs.Schedule.{message_words, next_word};

use sha256_functions::{lower_sigma_0, lower_sigma_1};

// The sixteen words of the block, at the front of the schedule.
pub fn message_words(block: &[u8]) -> [u32; 64]
    requires { length block.now ≡ 64 }
    ensures { take 16 result ≡ message_words block.now 16 }
{
    let (words, _) = block.as_chunks::<4>();
    let mut w = [0u32; 64];
    for t in 0..16 {
        w[t] = u32::from_be_bytes(words[t]);
    }
    w
}

// The word t of the schedule, by four of the sixteen words before it.
pub fn next_word(w: &[u32; 64], t: usize) -> u32
    requires { (16 ≤ t) × (t < 64) }
    ensures { result ≡ next_word w.now t }
{
    lower_sigma_1(w[t - 2])
        .wrapping_add(w[t - 7])
        .wrapping_add(lower_sigma_0(w[t - 15]))
        .wrapping_add(w[t - 16])
}
