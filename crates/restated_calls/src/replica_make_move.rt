// Written by tests/restated --write: what docs/statements has of
// crates/replica/src/make_move.rt.
ghost use Rattle.std.specs.Prelude.{◌≡◌};
ghost use package.Rattle.sha256.specs.Digest.{sha256};
ghost use package.Rattle.protocol.specs.Move.{move_call};
ghost use package.Rattle.answers.specs.Answers.{moved_answer};
ghost use package.Rattle.answers.specs.MoveNumbers.{moved_numbers, answer_numbers};

use answers::answer::Moved;
use answers::refusal::Refusal;

// Makes the first move that applies and writes its frames to the front of the reply; a refused call changes nothing.
pub fn make_move(book: &mut [u8], reply: &mut [u8]) -> Result<Moved, Refusal>
    ensures answer { moved_answer result ≡ (move_call sha256 book.old reply.old).answer }
    ensures book { book.new ≡ (move_call sha256 book.old reply.old).book }
    ensures reply { reply.new ≡ (move_call sha256 book.old reply.old).reply }
    ensures numbers { moved_numbers result ≡
        answer_numbers (move_call sha256 book.old reply.old).answer }
{
    replica::make_move::make_move(book, reply)
}
