// Written by tests/restated --write: what docs/statements has of
// crates/replica/src/submit.rt.
ghost use Rattle.std.specs.Prelude.{◌≡◌};
ghost use package.Rattle.sha256.specs.Digest.{sha256 as sha};
ghost use package.Rattle.protocol.specs.Submit.{submit_call};
ghost use package.Rattle.answers.specs.Answers.{done_answer};

use answers::refusal::Refusal;

// One more pending entry. Reads the book once to see that it is sound, and walks the log once for each pending entry,
// twice where 32 are pending.
pub fn submit(book: &mut [u8], entry: &[u8]) -> Result<(), Refusal>
    ensures answer { done_answer result ≡ (submit_call sha book.old entry.now).answer }
    ensures book { book.new ≡ (submit_call sha book.old entry.now).book }
{
    replica::submit::submit(book, entry)
}
