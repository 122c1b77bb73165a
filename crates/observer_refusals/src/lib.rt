// The refusals of a frame that an observer is given: 4, 16, 6, 5, 9 and 10, in this order.
#![tactic(auto)]

ghost use Rattle.std.specs.Prelude.{◌≡◌, ◌&&◌, length};
ghost use Rattle.protocol.specs.Bytes.{same};
ghost use Rattle.protocol.specs.Frame.{kind, frame_block, is_block_certificate};
ghost use Rattle.protocol.specs.Tests.{implies, first_refusal};
ghost use Rattle.protocol.specs.State.{is_notarized};
ghost use Rattle.protocol.specs.Observer.{observer_state};
ghost use Rattle.answers.specs.Refusal.{refusal_of};
ghost use Rattle.book_fields.specs.Book.{Within, ObserverReadable, observed_in};
ghost use Rattle.observer_refusals.specs.Rows.{certificate_rows, frame_rows};

use answers::refusal::Refusal;
use book_fields::kind::{Observer, heights, quorum, replicas};
use book_fields::observed::{is_notarized, notarized};
use frames::{
    FrameKind, frame_block, frame_height, frame_mask, frame_well_formed, is_certificate, named_kind,
};
use wire::bytes::same_bytes;
use wire::mask::below;

// Whether a certified block is the height's notarized one, if there is one. Other kinds pass.
#[tactic(auto, unfolding(protocol::specs::Tests::implies))]
fn certificate_agrees(book: &[u8], h: usize, frame: &[u8]) -> bool
    requires observer_readable { ObserverReadable book.now }
    requires within { Within book.now h }
    requires frame_len { length frame.now ≡ 224 }
    ensures { result ≡ implies (is_block_certificate (kind frame.now) && is_notarized (observed_in book.now h))
        (same (observed_in book.now h).notarized (frame_block frame.now)) }
{
    !matches!(named_kind(frame), Some(FrameKind::BlockCertificate))
        || !is_notarized(book, h)
        || same_bytes(notarized(book, h), frame_block(frame))
}

// The first of refusals 5, 9 and 10 that stands against a certificate of height `h`, if one does.
#[tactic(auto, unfolding(crate::specs::Rows::certificate_rows, protocol::specs::Sound::view, protocol::specs::Tests::first_refusal))]
fn certificate_refusal(book: &[u8], h: usize, frame: &[u8]) -> Result<(), Refusal>
    requires observer_readable { ObserverReadable book.now }
    requires within { Within book.now h }
    requires frame_len { length frame.now ≡ 224 }
    ensures { refusal_of result ≡
        first_refusal (certificate_rows (observer_state book.now) h frame.now) }
{
    let mask = frame_mask(frame);
    if !below(replicas::<Observer>(book), mask) {
        return Err(Refusal::NoSuchSigner);
    }
    if !quorum::<Observer>(book, mask) {
        return Err(Refusal::NoQuorum);
    }
    if !certificate_agrees(book, h, frame) {
        return Err(Refusal::OtherNotarized);
    }
    Ok(())
}

// The first refusal that stands against a frame, if one does.
#[tactic(auto, using(crate::proofs::Reading::reading), unfolding(protocol::specs::Tests::in_range))]
pub fn frame_refusal(book: &[u8], frame: &[u8]) -> Result<(), Refusal>
    requires { ObserverReadable book.now }
    ensures { refusal_of result ≡ first_refusal (frame_rows (observer_state book.now) frame.now) }
{
    if !frame_well_formed(frame) {
        return Err(Refusal::Malformed);
    }
    if !is_certificate(frame) {
        return Err(Refusal::NotACertificate);
    }
    let h = frame_height(frame);
    if !(1..=heights::<Observer>(book)).contains(&h) {
        return Err(Refusal::NoSuchHeight);
    }
    certificate_refusal(book, h, frame)
}
