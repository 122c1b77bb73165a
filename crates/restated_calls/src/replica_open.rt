// Written by tests/restated --write: what docs/statements has of
// crates/replica/src/open.rt.
ghost use Rattle.std.specs.Prelude.{◌≡◌};
ghost use package.Rattle.protocol.specs.Open.{long, open_call};
ghost use package.Rattle.answers.specs.Answers.{done_answer};

use answers::refusal::Refusal;

// Writes a new book. Looks at weights and leaders once and stores each byte of the book once, and a leader's twice.
pub fn open(
    book: &mut [u8],
    n: usize,
    own: usize,
    heights: usize,
    weights: &[u8],
    leaders: &[u8],
) -> Result<(), Refusal>
    ensures answer { done_answer result ≡
        (open_call (long weights.now) book.old n own heights leaders.now).answer }
    ensures book { book.new ≡
        (open_call (long weights.now) book.old n own heights leaders.now).book }
{
    replica::open::open(book, n, own, heights, weights, leaders)
}
