// Written by tests/restated --write: what docs/statements has of
// crates/observer/src/make_move.rt.
ghost use Rattle.std.specs.Prelude.{◌≡◌};
ghost use package.Rattle.sha256.specs.Digest.{sha256 as sha};
ghost use package.Rattle.protocol.specs.ObserverCalls.{observer_move_call};
ghost use package.Rattle.answers.specs.Answers.{moved_answer};
ghost use package.Rattle.answers.specs.MoveNumbers.{moved_numbers, answer_numbers};

use answers::answer::Moved;
use answers::refusal::Refusal;

// Makes move 2, if it applies; a refused call changes nothing. Costs one pass over the book, and at most one digest for
// each height. A book of few heights does not pay for the memory of a longer one.
pub fn make_move(book: &mut [u8]) -> Result<Moved, Refusal>
    ensures answer { moved_answer result ≡ (observer_move_call sha book.old).answer }
    ensures book { book.new ≡ (observer_move_call sha book.old).book }
    ensures numbers { moved_numbers result ≡ answer_numbers (observer_move_call sha book.old).answer }
{
    observer::make_move::make_move(book)
}
