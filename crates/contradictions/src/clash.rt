// Whether a frame that is read contradicts what its height keeps: refusals 8 and 10.
ghost use Rattle.std.specs.Prelude.{◌≡◌, ◌&&◌, eqb};
ghost use Rattle.protocol.specs.Bytes.{same};
ghost use Rattle.protocol.specs.Tests.{implies, first_refusal};
ghost use Rattle.protocol.specs.Frame.{kind, frame_block, is_block_certificate};
ghost use Rattle.protocol.specs.State.{decode, is_notarized};
ghost use Rattle.protocol.specs.Deliver.{second_proposal, clash_rows};
ghost use Rattle.frame_refusals.specs.Refusal.{vote_agrees};
ghost use Rattle.answers.specs.Refusal.{refusal_of};
ghost use Rattle.frame_refusals.specs.Given.{Read};
ghost use Rattle.book_fields.specs.Book.{height_in};

use answers::refusal::Refusal;
use book_fields::head::current;
use book_fields::height::{
    holds_proposal, is_notarized, mask_at, notarized, proposal, vote_digest,
};
use book_fields::names::MaskKind;
use frames::{FrameKind, frame_block, frame_digest, frame_signer, named_kind};
use wire::bytes::same_bytes;
use wire::mask::in_mask;

// Whether a vote for a block is the signer's kept one, if there is one. Other kinds pass.
#[tactic(auto, unfolding(frame_refusals::specs::Refusal::vote_agrees, protocol::specs::Tests::implies))]
fn vote_agrees(book: &[u8], h: usize, frame: &[u8]) -> bool
    requires { Read book.now h frame.now }
    ensures { result ≡ vote_agrees (height_in book.now h) frame.now }
{
    let Some(FrameKind::BlockVote) = named_kind(frame) else {
        return true;
    };
    let s = frame_signer(frame);
    !in_mask(mask_at(book, h, MaskKind::Voters), s)
        || same_bytes(vote_digest(book, h, s), frame_digest(frame))
}

// Whether a proposal is the height's held one, if there is one. At the current height a second proposal passes, so there
// the held one is not compared. Other kinds pass.
#[tactic(auto, unfolding(protocol::specs::Deliver::second_proposal, protocol::specs::Tests::implies, protocol::specs::Tests::all_of))]
fn proposal_agrees(book: &[u8], h: usize, frame: &[u8]) -> bool
    requires { Read book.now h frame.now }
    ensures { result ≡ implies (second_proposal (decode book.now) frame.now) (eqb h (decode book.now).current) }
{
    let Some(FrameKind::Proposal) = named_kind(frame) else {
        return true;
    };
    let here = h == current(book);
    here || !holds_proposal(book, h) || same_bytes(proposal(book, h), frame_block(frame))
}

// Whether a certified block is the height's notarized one, if there is one. Other kinds pass.
#[tactic(auto, unfolding(protocol::specs::Tests::implies))]
fn certificate_agrees(book: &[u8], h: usize, frame: &[u8]) -> bool
    requires { Read book.now h frame.now }
    ensures { result ≡ implies (is_block_certificate (kind frame.now) && is_notarized (height_in book.now h))
        (same (height_in book.now h).notarized (frame_block frame.now)) }
{
    !matches!(named_kind(frame), Some(FrameKind::BlockCertificate))
        || !is_notarized(book, h)
        || same_bytes(notarized(book, h), frame_block(frame))
}

// The first of refusals 8 and 10 that stands against a frame that is read, if one does.
#[tactic(auto, unfolding(protocol::specs::Tests::first_refusal, protocol::specs::Deliver::clash_rows, frame_refusals::specs::Refusal::vote_agrees))]
pub fn clash_refusal(book: &[u8], h: usize, frame: &[u8]) -> Result<(), Refusal>
    requires { Read book.now h frame.now }
    ensures { refusal_of result ≡ first_refusal (clash_rows (decode book.now) frame.now) }
{
    if !proposal_agrees(book, h, frame) {
        return Err(Refusal::OtherKept);
    }
    if !vote_agrees(book, h, frame) {
        return Err(Refusal::OtherKept);
    }
    if !certificate_agrees(book, h, frame) {
        return Err(Refusal::OtherNotarized);
    }
    Ok(())
}
