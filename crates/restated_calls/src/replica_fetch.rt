// Written by tests/restated --write: what docs/statements has of
// crates/replica/src/fetch.rt.
ghost use Rattle.std.specs.Prelude.{◌≡◌};
ghost use package.Rattle.sha256.specs.Digest.{sha256 as sha};
ghost use package.Rattle.protocol.specs.Fetch.{fetch_call};
ghost use package.Rattle.answers.specs.Answers.{done_answer};

use answers::refusal::Refusal;

// Writes a certificate that the book has. Reads the book once to see that it is sound, and stores 224 bytes.
pub fn fetch(book: &[u8], kind: usize, height: usize, reply: &mut [u8]) -> Result<(), Refusal>
    ensures answer { done_answer result ≡
        (fetch_call sha book.now kind height reply.old).answer }
    ensures reply { reply.new ≡
        (fetch_call sha book.now kind height reply.old).reply }
{
    replica::fetch::fetch(book, kind, height, reply)
}
