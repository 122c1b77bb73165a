// Written by tests/restated --write: what docs/statements has of
// crates/replica/src/signal.rt.
ghost use Rattle.std.specs.Prelude.{◌≡◌};
ghost use package.Rattle.sha256.specs.Digest.{sha256 as sha};
ghost use package.Rattle.protocol.specs.Signal.{signal_call};
ghost use package.Rattle.answers.specs.Answers.{done_answer};

use answers::refusal::Refusal;

// The timer of the current height has fired. Reads the book once to see that it is sound, and stores one byte.
pub fn signal(book: &mut [u8], height: usize) -> Result<(), Refusal>
    ensures answer { done_answer result ≡ (signal_call sha book.old height).answer }
    ensures book { book.new ≡ (signal_call sha book.old height).book }
{
    replica::signal::signal(book, height)
}
