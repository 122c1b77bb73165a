// Whether a frame can be read over a book: refusals 4, 6, 5, 7 and 9, in document 01's order.
ghost use Rattle.std.specs.Prelude.{◌≡◌, length};
ghost use Rattle.protocol.specs.Tests.{first_refusal};
ghost use Rattle.protocol.specs.State.{decode};
ghost use Rattle.protocol.specs.Deliver.{read_rows};
ghost use Rattle.answers.specs.Refusal.{refusal_of};
ghost use Rattle.book_fields.specs.Book.{Within, Readable};
ghost use Rattle.frame_refusals.specs.Refusal.{members_fit, leader_signed, signers_enough, member_rows};

use answers::refusal::Refusal;
use book_fields::head::{heights, replicas};
use book_fields::height::leader;
use book_fields::kind::{Replica, quorum};
use frames::{
    FrameKind, frame_height, frame_mask, frame_signer, frame_well_formed, is_statement, named_kind,
};
use wire::mask::below;

// Whether the signer, or each signer of a certificate, is one of the book's replicas.
#[tactic(auto, unfolding(crate::specs::Refusal::members_fit))]
fn members_fit(book: &[u8], frame: &[u8]) -> bool
    requires readable { Readable book.now }
    requires frame_len { length frame.now ≡ 224 }
    ensures { result ≡ members_fit (decode book.now) frame.now }
{
    let n = replicas(book);
    if is_statement(frame) {
        frame_signer(frame) < n
    } else {
        below(n, frame_mask(frame))
    }
}

// Whether a proposal is signed by the leader of its height. Other kinds pass.
#[tactic(auto, unfolding(crate::specs::Refusal::leader_signed, protocol::specs::Tests::implies))]
fn leader_signed(book: &[u8], h: usize, frame: &[u8]) -> bool
    requires readable { Readable book.now }
    requires within { Within book.now h }
    requires frame_len { length frame.now ≡ 224 }
    ensures { result ≡ leader_signed (decode book.now) h frame.now }
{
    !matches!(named_kind(frame), Some(FrameKind::Proposal))
        || frame_signer(frame) == leader(book, h)
}

// Whether the signers of a certificate are a quorum. Statements pass.
#[tactic(auto, unfolding(crate::specs::Refusal::signers_enough))]
fn signers_enough(book: &[u8], frame: &[u8]) -> bool
    requires readable { Readable book.now }
    requires frame_len { length frame.now ≡ 224 }
    ensures { result ≡ signers_enough (decode book.now) frame.now }
{
    is_statement(frame) || quorum::<Replica>(book, frame_mask(frame))
}

// The first of refusals 5, 7 and 9 that stands against a frame of height `h`, if one does.
#[tactic(auto, unfolding(crate::specs::Refusal::member_rows, protocol::specs::Tests::first_refusal))]
fn member_refusal(book: &[u8], h: usize, frame: &[u8]) -> Result<(), Refusal>
    requires readable { Readable book.now }
    requires within { Within book.now h }
    requires frame_len { length frame.now ≡ 224 }
    ensures { refusal_of result ≡ first_refusal (member_rows (decode book.now) h frame.now) }
{
    if !members_fit(book, frame) {
        return Err(Refusal::NoSuchSigner);
    }
    if !leader_signed(book, h, frame) {
        return Err(Refusal::NotLeader);
    }
    if !signers_enough(book, frame) {
        return Err(Refusal::NoQuorum);
    }
    Ok(())
}

// The first refusal that keeps a frame from being read, if one does.
#[tactic(auto, using(crate::proofs::Reading::reading), unfolding(protocol::specs::Tests::in_range))]
pub fn read_refusal(book: &[u8], frame: &[u8]) -> Result<(), Refusal>
    requires { Readable book.now }
    ensures { refusal_of result ≡ first_refusal (read_rows (decode book.now) frame.now) }
{
    if !frame_well_formed(frame) {
        return Err(Refusal::Malformed);
    }
    let h = frame_height(frame);
    if !(1..=heights(book)).contains(&h) {
        return Err(Refusal::NoSuchHeight);
    }
    member_refusal(book, h, frame)
}
