// Weights of replicas: two bytes each, the low byte first, as the head has them and Open gets them.
ghost use Rattle.std.specs.Prelude.{◌≡◌, ◌*◌, ◌≤◌, length};
ghost use Rattle.protocol.specs.Bytes.{all};
ghost use Rattle.protocol.specs.Tests.{in_range};
ghost use Rattle.protocol.specs.State.{words, maximum_weight};
ghost use Rattle.protocol.specs.Open.{long, weights_in_range};

use crate::bytes::word;

pub const MAXIMUM_WEIGHT: usize = 1000;

// Whether each of the first `n` weights is 1 to 1,000. One pass, with no early end.
pub fn in_range(weights: &[u8], n: usize) -> bool
    requires { 2 * n ≤ length weights.now }
    ensures { result ≡ all (λ w. in_range 1 maximum_weight w) (words n weights.now) }
{
    let mut good = true;
    for s in 0..n {
        good &= (1..=MAXIMUM_WEIGHT).contains(&word(weights, 2 * s));
    }
    good
}

// Whether there are `n` weights, each of 1 to 1,000. Nothing is multiplied by `n`, which may be any number.
#[tactic(auto, unfolding(protocol::specs::Open::weights_in_range))]
pub fn fit(weights: &[u8], n: usize) -> bool
    ensures { result ≡ weights_in_range n (long weights.now) }
{
    let many = weights.len() / 2;
    many == n && weights.len() == 2 * many && in_range(weights, n)
}
