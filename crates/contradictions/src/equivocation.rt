// A leader of the current height who proposes two blocks: the second one fires the timer.
ghost use Rattle.std.specs.Prelude.{◌≡◌, ◌<◌};
ghost use Rattle.protocol.specs.State.{decode};
ghost use Rattle.protocol.specs.Deliver.{leader_equivocates, timer_fires};
ghost use Rattle.book_fields.specs.Book.{Ready};
ghost use Rattle.frame_refusals.specs.Given.{Read};
ghost use Rattle.contradictions.specs.Accepted.{accepted_book};

use answers::answer::Delivered;
use book_fields::head::{current, flag, set_flag};
use book_fields::height::{holds_proposal, proposal};
use book_fields::names::Flag;
use frames::{FrameKind, frame_block, named_kind};
use wire::bytes::same_bytes;

// Whether a frame that is read is a second proposal for the current height. Frames of other kinds cost one test.
#[tactic(auto, unfolding(protocol::specs::Deliver::leader_equivocates, protocol::specs::Deliver::second_proposal, protocol::specs::Tests::all_of))]
pub fn leader_equivocates(book: &[u8], h: usize, frame: &[u8]) -> bool
    requires { Read book.now h frame.now }
    ensures { result ≡ leader_equivocates (decode book.now) frame.now }
{
    matches!(named_kind(frame), Some(FrameKind::Proposal))
        && h == current(book)
        && holds_proposal(book, h)
        && !same_bytes(proposal(book, h), frame_block(frame))
}

// Sets the timer's flag where it is not set: fresh if that changed the book.
#[tactic(auto, unfolding(protocol::specs::Deliver::timer_fires, protocol::specs::State::with_timer_fired))]
pub fn fire_timer(book: &mut [u8]) -> Delivered
    requires ready { Ready book.old }
    requires book_bound { (decode book.old).flags < 16 }
    ensures { accepted_book result book.new ≡ timer_fires book.old }
{
    if flag(book, Flag::TimerFired) {
        return Delivered::Known;
    }
    set_flag(book, Flag::TimerFired);
    Delivered::Fresh
}
