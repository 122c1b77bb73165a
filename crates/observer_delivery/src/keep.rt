// What each kind of certificate changes at its height. What changes the book is fresh.
ghost use Rattle.std.specs.Prelude.{◌≡◌, ◌<◌, ◌≤◌};
ghost use Rattle.sha256.specs.Digest.{sha256 as sha};
ghost use Rattle.protocol.specs.Mask.{mask_limit};
ghost use Rattle.protocol.specs.Deliver.{keep_block_certificate, keep as keeps};
ghost use Rattle.protocol.specs.Observer.{observer_state};
ghost use Rattle.book_fields.specs.Book.{ObserverReady, Within, observed_in};
ghost use Rattle.book_fields.specs.Numbered.{place_of};
ghost use Rattle.contradictions.specs.Accepted.{accepted_book};
ghost use Rattle.delivery.specs.Kept.{join_signers};
ghost use Rattle.observer_delivery.specs.Certificate.{kept_at, CertificateRead};

use answers::answer::Delivered;
use book_fields::names::MaskKind;
use book_fields::observed::{is_notarized, mask_at};
use frames::{FrameKind, frame_block, frame_mask, named_kind};
use observer_book::{set_mask, set_notarized};

// Keeps a certified block with its signers where none is notarized.
#[tactic(auto, unfolding(protocol::specs::Deliver::keep_block_certificate, crate::specs::Certificate::kept_at))]
fn keep_block(book: &mut [u8], h: usize, frame: &[u8]) -> Delivered
    requires { CertificateRead book.old h frame.now }
    ensures { accepted_book result book.new ≡
        kept_at book.old h (keep_block_certificate (observed_in book.old h) frame.now) }
{
    if is_notarized(book, h) {
        return Delivered::Known;
    }
    set_notarized(book, h, frame_mask(frame), frame_block(frame));
    Delivered::Fresh
}

// Joins signers to a mask of height `h`, that of the dummy votes or that of the finalize statements.
#[tactic(auto, unfolding(delivery::specs::Kept::join_signers, crate::specs::Certificate::kept_at))]
fn join_signers(book: &mut [u8], h: usize, which: MaskKind, signers: usize) -> Delivered
    requires observer_ready { ObserverReady book.old }
    requires within { Within book.old h }
    requires le_k { (1 ≤ place_of which) × (place_of which ≤ 2) }
    requires signers_lt_mask_limit { signers < mask_limit }
    ensures { accepted_book result book.new ≡
        kept_at book.old h (join_signers (place_of which) (observed_in book.old h) signers) }
{
    let held = mask_at(book, h, which);
    let joined = held | signers;
    if joined == held {
        return Delivered::Known;
    }
    set_mask(book, h, which, joined);
    Delivered::Fresh
}

// Keeps what a certificate that is read states, by its kind.
#[tactic(auto, using(crate::specs::Laws::KeptLaws::keeps_block, crate::specs::Laws::KeptLaws::dummies_join, crate::specs::Laws::KeptLaws::finalizations_join))]
pub fn keep(book: &mut [u8], h: usize, frame: &[u8]) -> Delivered
    requires { CertificateRead book.old h frame.now }
    ensures { accepted_book result book.new ≡
        kept_at book.old h (keeps sha (observer_state book.old) frame.now) }
{
    match named_kind(frame) {
        Some(FrameKind::BlockCertificate) => keep_block(book, h, frame),
        Some(FrameKind::DummyCertificate) => join_signers(
            book,
            h,
            MaskKind::Dummy,
            frame_mask(frame),
        ),
        Some(FrameKind::FinalizeCertificate) => join_signers(
            book,
            h,
            MaskKind::Finalize,
            frame_mask(frame),
        ),
        _ => unreachable!(),
    }
}
