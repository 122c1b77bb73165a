// Fetch: the certificate of a kind and a height, for sending.
ghost use Rattle.std.specs.Prelude.{◌≡◌};
ghost use Rattle.sha256.specs.Digest.{sha256 as sha};
ghost use Rattle.protocol.specs.Fetch.{fetch_call};
ghost use Rattle.book_fields.specs.Book.{SoundBook};
ghost use Rattle.answers.specs.Answers.{done_answer};

use answers::refusal::Refusal;
use book_fields::head::in_book;
use certificates::{CertificateKind, has_certificate, write_certificate};

// The certificate of a sound book.
#[tactic(auto, using(soundness::specs::Laws::WithinLaws::within, crate::proofs::Tests::number_of_kind,), unfolding(protocol::specs::Fetch::fetch_call, protocol::specs::Fetch::fetch_rows, protocol::specs::Tests::first_refusal, protocol::specs::Fetch::unless_fetch_refused,))]
pub fn fetch_sound(book: &[u8], kind: usize, height: usize, reply: &mut [u8]) -> Result<(), Refusal>
    requires { SoundBook sha book.now }
    ensures answer { done_answer result ≡
        (fetch_call sha book.now kind height reply.old).answer }
    ensures reply { reply.new ≡
        (fetch_call sha book.now kind height reply.old).reply }
{
    let kind = CertificateKind::try_from(kind)?;
    if !in_book(book, height) {
        return Err(Refusal::NoSuchHeight);
    }
    if reply.len() < 224 {
        return Err(Refusal::ShortReply);
    }
    if !has_certificate(book, kind, height) {
        return Err(Refusal::NoCertificate);
    }
    write_certificate(book, kind, height, reply);
    Ok(())
}
