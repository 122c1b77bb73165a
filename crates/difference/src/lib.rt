// How two byte strings differ, worked out and not decided: no byte says which way the code goes.
#![tactic(auto)]

ghost use Rattle.std.specs.Prelude.{◌≡◌, cond, ◌<◌, ◌≤◌, length};
ghost use Rattle.protocol.specs.Bytes.{same};
ghost use Rattle.difference.specs.Difference.{difference as difference_of};

// The bits in which the first `count` bytes of two strings differ, gathered into one number. Costs one pass, with no
// early end.
pub fn difference(a: &[u8], b: &[u8], count: usize) -> usize
    requires count_in_bounds { count ≤ length a.now }
    requires count_in_bounds_2 { count ≤ length b.now }
    ensures { (result ≡ difference_of a.now b.now count) × (result < 256) }
{
    let mut seen: u8 = 0;
    for i in 0..count {
        seen |= a[i] ^ b[i];
    }
    usize::from(seen)
}

// 1 if two byte strings are equal and 0 if not: 1 over a number above 1 is 0. Costs one pass over strings of one
// length, and none over others.
pub fn one_if_same(a: &[u8], b: &[u8]) -> usize
    ensures { (result ≡ cond (same a.now b.now) 1 0) × (result ≤ 1) }
{
    let of_one_length = (a.len() == b.len()) as usize;
    let differing = difference(a, b, of_one_length * a.len());
    of_one_length & (1 / (1 + differing))
}
