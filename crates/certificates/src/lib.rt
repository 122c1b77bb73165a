// Certificates of a replica's book: whether it has the one of a kind and a height, and writing it as a frame.
#![tactic(auto)]

mod kind;

ghost use Rattle.std.specs.Prelude.{◌≡◌, ◌≤◌, length};
ghost use Rattle.protocol.specs.Bytes.{over_front};
ghost use Rattle.protocol.specs.State.{decode};
ghost use Rattle.protocol.specs.Fetch.{has_certificate};
ghost use Rattle.protocol.specs.Certificates.{certificate_frame};
ghost use Rattle.book_fields.specs.Book.{Within, Readable};
ghost use Rattle.certificates.specs.Kind.{kind_number};

use book_fields::height::{is_notarized, mask_at, notarized};
use book_fields::kind::{Replica, quorum};
use book_fields::names::MaskKind;
use frames::FrameKind;
pub use kind::CertificateKind;

// Whether the book has the certificate of that kind and height.
#[tactic(auto, unfolding(protocol::specs::Fetch::has_certificate))]
pub fn has_certificate(book: &[u8], kind: CertificateKind, height: usize) -> bool
    requires readable { Readable book.now }
    requires within { Within book.now height }
    ensures { result ≡ has_certificate (decode book.now) (kind_number kind) height }
{
    match kind {
        CertificateKind::Block => is_notarized(book, height),
        CertificateKind::Dummy => quorum::<Replica>(book, mask_at(book, height, MaskKind::Dummy)),
        CertificateKind::Finalize => quorum::<Replica>(
            book,
            mask_at(book, height, MaskKind::Finalize),
        ),
    }
}

// Writes the certificate of that kind and height to the front of the reply. Stores 224 bytes.
#[tactic(auto, using(book_fields::proofs::Places::notarized_size))]
pub fn write_certificate(book: &[u8], kind: CertificateKind, height: usize, reply: &mut [u8])
    requires readable { Readable book.now }
    requires within { Within book.now height }
    requires in_bounds { 224 ≤ length reply.old }
    ensures { reply.new ≡
        over_front (certificate_frame (decode book.now) (kind_number kind) height) reply.old }
{
    match kind {
        CertificateKind::Block => {
            let mask = mask_at(book, height, MaskKind::Certificate);
            frames::write_block_certificate(reply, height, mask, notarized(book, height));
        }
        CertificateKind::Dummy => {
            let mask = mask_at(book, height, MaskKind::Dummy);
            frames::write_plain(reply, FrameKind::DummyCertificate, 0, height, mask);
        }
        CertificateKind::Finalize => {
            let mask = mask_at(book, height, MaskKind::Finalize);
            frames::write_plain(reply, FrameKind::FinalizeCertificate, 0, height, mask);
        }
    }
}
