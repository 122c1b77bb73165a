// Deliver: keeps what a frame states; a leader's second proposal for the current height fires the timer instead.
ghost use Rattle.std.specs.Prelude.{◌≡◌};
ghost use Rattle.sha256.specs.Digest.{sha256};
ghost use Rattle.protocol.specs.Deliver.{deliver_call};
ghost use Rattle.answers.specs.Answers.{delivered_answer};

use answers::answer::Delivered;
use answers::refusal::Refusal;

// Reads a frame and keeps what it states, or fires the timer by it; a refused call changes nothing.
pub fn deliver(book: &mut [u8], frame: &[u8]) -> Result<Delivered, Refusal>
    ensures answer { delivered_answer result ≡ (deliver_call sha256 book.old frame.now).answer }
    ensures book { book.new ≡ (deliver_call sha256 book.old frame.now).book }
{
    delivery::deliver::deliver(book, frame)
}
