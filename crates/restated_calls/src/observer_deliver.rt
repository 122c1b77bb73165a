// Written by tests/restated --write: what docs/statements has of
// crates/observer/src/deliver.rt.
ghost use Rattle.std.specs.Prelude.{◌≡◌};
ghost use package.Rattle.sha256.specs.Digest.{sha256};
ghost use package.Rattle.protocol.specs.ObserverCalls.{observer_deliver_call};
ghost use package.Rattle.answers.specs.Answers.{delivered_answer};

use answers::answer::Delivered;
use answers::refusal::Refusal;

// Reads a certificate and keeps what it states; a refused call changes nothing.
pub fn deliver(book: &mut [u8], frame: &[u8]) -> Result<Delivered, Refusal>
    ensures answer { delivered_answer result ≡
        (observer_deliver_call sha256 book.old frame.now).answer }
    ensures book { book.new ≡
        (observer_deliver_call sha256 book.old frame.now).book }
{
    observer::deliver::deliver(book, frame)
}
