// Written by tests/restated --write: what docs/statements has of
// crates/observer/src/open.rt.
ghost use Rattle.std.specs.Prelude.{◌≡◌};
ghost use package.Rattle.protocol.specs.Open.{long};
ghost use package.Rattle.protocol.specs.ObserverCalls.{observer_open_call};
ghost use package.Rattle.answers.specs.Answers.{done_answer};

use answers::refusal::Refusal;

// Writes a new book. Looks at the weights once and stores each byte of the book once, and those of the head twice.
pub fn open(book: &mut [u8], n: usize, heights: usize, weights: &[u8]) -> Result<(), Refusal>
    ensures answer { done_answer result ≡
        (observer_open_call (long weights.now) book.old n heights).answer }
    ensures book { book.new ≡
        (observer_open_call (long weights.now) book.old n heights).book }
{
    observer::open::open(book, n, heights, weights)
}
