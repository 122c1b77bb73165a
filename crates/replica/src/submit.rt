// Submit: one more pending entry, after those that the log holds are dropped.
ghost use Rattle.std.specs.Prelude.{◌≡◌};
ghost use Rattle.sha256.specs.Digest.{sha256 as sha};
ghost use Rattle.protocol.specs.Submit.{submit_call};
ghost use Rattle.answers.specs.Answers.{done_answer};

use answers::refusal::Refusal;
use soundness::OfReplica;

// One more pending entry. Reads the book once to see that it is sound, and walks the log once for each pending entry,
// twice where 32 are pending.
pub fn submit(book: &mut [u8], entry: &[u8]) -> Result<(), Refusal>
    ensures answer { done_answer result ≡ (submit_call sha book.old entry.now).answer }
    ensures book { book.new ≡ (submit_call sha book.old entry.now).book }
{
    if !soundness::is_sound::<OfReplica>(book) {
        return Err(Refusal::Unsound);
    }
    log_calls::submit::submit_sound(book, entry)
}
