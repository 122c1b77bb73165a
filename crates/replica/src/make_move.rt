// Move: makes the first of the five moves that applies.
ghost use Rattle.std.specs.Prelude.{◌≡◌};
ghost use Rattle.sha256.specs.Digest.{sha256};
ghost use Rattle.protocol.specs.Move.{move_call};
ghost use Rattle.answers.specs.Answers.{moved_answer};
ghost use Rattle.answers.specs.MoveNumbers.{moved_numbers, answer_numbers};

use answers::answer::Moved;
use answers::refusal::Refusal;

// Makes the first move that applies and writes its frames to the front of the reply; a refused call changes nothing.
pub fn make_move(book: &mut [u8], reply: &mut [u8]) -> Result<Moved, Refusal>
    ensures answer { moved_answer result ≡ (move_call sha256 book.old reply.old).answer }
    ensures book { book.new ≡ (move_call sha256 book.old reply.old).book }
    ensures reply { reply.new ≡ (move_call sha256 book.old reply.old).reply }
    ensures numbers { moved_numbers result ≡
        answer_numbers (move_call sha256 book.old reply.old).answer }
{
    moves::make_move::make_move(book, reply)
}
