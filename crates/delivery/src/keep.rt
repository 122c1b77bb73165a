// What each kind of frame changes at its height. What changes the book is fresh.
ghost use Rattle.std.specs.Prelude.{◌≡◌, ◌<◌, ◌≤◌};
ghost use Rattle.sha256.specs.Digest.{sha256 as sha};
ghost use Rattle.protocol.specs.Frame.{signer};
ghost use Rattle.protocol.specs.State.{decode, at};
ghost use Rattle.protocol.specs.Deliver.{keep_proposal, keep_block_vote, keep_block_certificate, keep as keeps};
ghost use Rattle.protocol.specs.Mask.{mask_limit};
ghost use Rattle.contradictions.specs.Accepted.{accepted_book};
ghost use Rattle.delivery.specs.Kept.{kept_at, join_signers};
ghost use Rattle.frame_refusals.specs.Given.{Spot, Read};
ghost use Rattle.book_fields.specs.Book.{height_in, book_view};
ghost use Rattle.book_fields.specs.Numbered.{place_of};

use crate::notarize::{notarize, notarize_with};
use answers::answer::Delivered;
use book_changes::height::{set_mask, set_notarized, set_proposal, set_vote};
use book_fields::height::{holds_proposal, is_notarized, mask_at, voter_mask};
use book_fields::names::MaskKind;
use frames::{
    FrameKind, frame_block, frame_block_digest, frame_digest, frame_mask, frame_signer,
    frame_signers, named_kind,
};
use wire::mask::in_mask;

// Keeps a proposal where none is held, and notarizes it if its votes are a quorum.
fn keep_proposal(book: &mut [u8], h: usize, frame: &[u8]) -> Delivered
    requires { Read book.old h frame.now }
    ensures { accepted_book result book.new ≡ kept_at book.old h
        (keep_proposal sha (book_view book.old) (height_in book.old h) frame.now) }
{
    if holds_proposal(book, h) {
        return Delivered::Known;
    }
    let digest = frame_block_digest(frame);
    set_proposal(book, h, frame_block(frame));
    notarize_with(book, h, &digest);
    Delivered::Fresh
}

// Keeps a replica's first vote for a block, and notarizes the held proposal if its votes are now a quorum.
fn keep_block_vote(book: &mut [u8], h: usize, frame: &[u8]) -> Delivered
    requires read { Read book.old h frame.now }
    requires frame_bound { signer frame.now < (decode book.old).n }
    ensures { accepted_book result book.new ≡ kept_at book.old h
        (keep_block_vote sha (book_view book.old) (height_in book.old h) frame.now) }
{
    let s = frame_signer(frame);
    if in_mask(voter_mask(book, h), s) {
        return Delivered::Known;
    }
    set_vote(book, h, s, frame_digest(frame));
    notarize(book, h);
    Delivered::Fresh
}

// Keeps a certified block with its signers where none is notarized.
#[tactic(auto, unfolding(protocol::specs::Deliver::keep_block_certificate, crate::specs::Kept::kept_at))]
fn keep_block_certificate(book: &mut [u8], h: usize, frame: &[u8]) -> Delivered
    requires { Read book.old h frame.now }
    ensures { accepted_book result book.new ≡ kept_at book.old h
        (keep_block_certificate (height_in book.old h) frame.now) }
{
    if is_notarized(book, h) {
        return Delivered::Known;
    }
    set_notarized(book, h, frame_mask(frame), frame_block(frame));
    Delivered::Fresh
}

// Joins signers to a mask of height `h`, that of the dummy votes or that of the finalize statements.
#[tactic(auto, unfolding(crate::specs::Kept::join_signers, crate::specs::Kept::kept_at))]
fn join_signers(book: &mut [u8], h: usize, which: MaskKind, signers: usize) -> Delivered
    requires spot { Spot book.old h }
    requires le_k { (1 ≤ place_of which) × (place_of which ≤ 2) }
    requires signers_lt_mask_limit { signers < mask_limit }
    ensures { accepted_book result book.new ≡ kept_at book.old h
        (join_signers (place_of which) (height_in book.old h) signers) }
{
    let held = mask_at(book, h, which);
    let joined = held | signers;
    if joined == held {
        return Delivered::Known;
    }
    set_mask(book, h, which, joined);
    Delivered::Fresh
}

// Keeps what a frame that is read states, by its kind.
#[tactic(auto, using(crate::specs::Laws::KindLaws::kind_one, crate::specs::Laws::KindLaws::kind_two, crate::specs::Laws::KindLaws::kind_five, crate::specs::Laws::KindLaws::dummy_joins, crate::specs::Laws::KindLaws::finalize_joins))]
pub fn keep(book: &mut [u8], h: usize, frame: &[u8]) -> Delivered
    requires { Read book.old h frame.now }
    ensures { accepted_book result book.new ≡ kept_at book.old h (keeps sha (decode book.old) frame.now) }
{
    match named_kind(frame) {
        Some(FrameKind::Proposal) => keep_proposal(book, h, frame),
        Some(FrameKind::BlockVote) => keep_block_vote(book, h, frame),
        Some(FrameKind::BlockCertificate) => keep_block_certificate(book, h, frame),
        Some(FrameKind::DummyVote | FrameKind::DummyCertificate) => {
            join_signers(book, h, MaskKind::Dummy, frame_signers(frame))
        }
        Some(FrameKind::Finalize | FrameKind::FinalizeCertificate) => {
            join_signers(book, h, MaskKind::Finalize, frame_signers(frame))
        }
        None => unreachable!(),
    }
}
