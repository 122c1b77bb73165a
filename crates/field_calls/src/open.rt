// Open: whether its numbers, weights and leaders are in their ranges.
ghost use Rattle.std.specs.Prelude.{◌≡◌, ltb};
ghost use Rattle.protocol.specs.Bytes.{all};
ghost use Rattle.protocol.specs.Open.{long, open_in_range};

use book_fields::bounds::{MAXIMUM_HEIGHTS, MAXIMUM_REPLICAS};

// Whether every leader is one of the `n` replicas.
fn leaders_below(leaders: &[u8], n: usize) -> bool
    ensures { result ≡ all (λ leader. ltb leader n) leaders.now }
{
    leaders.iter().all(|&leader| usize::from(leader) < n)
}

// Whether the numbers are in their ranges, and weights and leaders too, as many as there are replicas and heights.
#[tactic(auto, unfolding(protocol::specs::Open::open_in_range, protocol::specs::Open::opened_edition, protocol::specs::State::most_heights, protocol::specs::Tests::all_of, protocol::specs::Tests::in_range,))]
pub fn numbers_fit(n: usize, own: usize, heights: usize, weights: &[u8], leaders: &[u8]) -> bool
    ensures { result ≡ open_in_range (long weights.now) n own heights leaders.now }
{
    (1..=MAXIMUM_REPLICAS).contains(&n)
        && own < n
        && (1..=MAXIMUM_HEIGHTS).contains(&heights)
        && leaders.len() == heights
        && leaders_below(leaders, n)
        && wire::weights::fit(weights, n)
}
