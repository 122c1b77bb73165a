// Fetch: the certificate of a kind and a height, for sending.
ghost use Rattle.std.specs.Prelude.{◌≡◌};
ghost use Rattle.sha256.specs.Digest.{sha256 as sha};
ghost use Rattle.protocol.specs.Fetch.{fetch_call};
ghost use Rattle.answers.specs.Answers.{done_answer};

use answers::refusal::Refusal;
use soundness::OfReplica;

// Writes a certificate that the book has. Reads the book once to see that it is sound, and stores 224 bytes.
pub fn fetch(book: &[u8], kind: usize, height: usize, reply: &mut [u8]) -> Result<(), Refusal>
    ensures answer { done_answer result ≡
        (fetch_call sha book.now kind height reply.old).answer }
    ensures reply { reply.new ≡
        (fetch_call sha book.now kind height reply.old).reply }
{
    if !soundness::is_sound::<OfReplica>(book) {
        return Err(Refusal::Unsound);
    }
    field_calls::fetch::fetch_sound(book, kind, height, reply)
}
