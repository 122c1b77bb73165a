// Open: a new book for `n` replicas, their weights, the replica's own number, and the leader of each height.
ghost use Rattle.std.specs.Prelude.{◌≡◌};
ghost use Rattle.protocol.specs.Open.{long, open_call};
ghost use Rattle.answers.specs.Answers.{done_answer};

use answers::refusal::Refusal;

// Writes a new book. Looks at weights and leaders once and stores each byte of the book once, and a leader's twice.
pub fn open(
    book: &mut [u8],
    n: usize,
    own: usize,
    heights: usize,
    weights: &[u8],
    leaders: &[u8],
) -> Result<(), Refusal>
    ensures answer { done_answer result ≡
        (open_call (long weights.now) book.old n own heights leaders.now).answer }
    ensures book { book.new ≡
        (open_call (long weights.now) book.old n own heights leaders.now).book }
{
    if !field_calls::open::numbers_fit(n, own, heights, weights, leaders) {
        return Err(Refusal::OutOfRange);
    }
    if book.len() != 576 + 880 * heights {
        return Err(Refusal::Unsound);
    }
    book_changes::fresh::new_book(book, n, own, weights, leaders);
    Ok(())
}
