// Signal: the timer of the current height has fired.
ghost use Rattle.std.specs.Prelude.{◌≡◌};
ghost use Rattle.sha256.specs.Digest.{sha256 as sha};
ghost use Rattle.protocol.specs.Signal.{signal_call};
ghost use Rattle.answers.specs.Answers.{done_answer};

use answers::refusal::Refusal;
use soundness::OfReplica;

// The timer of the current height has fired. Reads the book once to see that it is sound, and stores one byte.
pub fn signal(book: &mut [u8], height: usize) -> Result<(), Refusal>
    ensures answer { done_answer result ≡ (signal_call sha book.old height).answer }
    ensures book { book.new ≡ (signal_call sha book.old height).book }
{
    if !soundness::is_sound::<OfReplica>(book) {
        return Err(Refusal::Unsound);
    }
    field_calls::signal::signal_sound(book, height)
}
