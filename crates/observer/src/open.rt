// Open: a new book for an observer of `n` replicas and their weights.
ghost use Rattle.std.specs.Prelude.{◌≡◌, [], ◌∷◌};
ghost use Rattle.protocol.specs.Tests.{all_of, in_range};
ghost use Rattle.protocol.specs.Block.{maximum_heights};
ghost use Rattle.protocol.specs.State.{maximum_replicas};
ghost use Rattle.protocol.specs.Open.{long, weights_in_range};
ghost use Rattle.protocol.specs.ObserverCalls.{observer_open_call};
ghost use Rattle.answers.specs.Answers.{done_answer};

use answers::refusal::Refusal;
use book_fields::bounds::{MAXIMUM_HEIGHTS, MAXIMUM_REPLICAS};

// Whether the numbers are in their ranges, and weights too, as many as there are replicas.
#[tactic(auto, unfolding(protocol::specs::Tests::all_of, protocol::specs::Tests::in_range))]
fn numbers_fit(n: usize, heights: usize, weights: &[u8]) -> bool
    ensures { result ≡ all_of (in_range 1 maximum_replicas n ∷ in_range 1 maximum_heights heights ∷
        weights_in_range n (long weights.now) ∷ []) }
{
    (1..=MAXIMUM_REPLICAS).contains(&n)
        && (1..=MAXIMUM_HEIGHTS).contains(&heights)
        && wire::weights::fit(weights, n)
}

// Writes a new book. Looks at the weights once and stores each byte of the book once, and those of the head twice.
pub fn open(book: &mut [u8], n: usize, heights: usize, weights: &[u8]) -> Result<(), Refusal>
    ensures answer { done_answer result ≡
        (observer_open_call (long weights.now) book.old n heights).answer }
    ensures book { book.new ≡
        (observer_open_call (long weights.now) book.old n heights).book }
{
    if !numbers_fit(n, heights, weights) {
        return Err(Refusal::OutOfRange);
    }
    if book.len() != 64 + 184 * heights {
        return Err(Refusal::Unsound);
    }
    observer_book::new_book(book, n, heights, weights);
    Ok(())
}
