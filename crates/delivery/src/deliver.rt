// Deliver: reads a frame over the book, and keeps what it states; a leader's second proposal for the current height
// fires the timer instead.
ghost use Rattle.std.specs.Prelude.{◌≡◌, true, ◌<◌};
ghost use Rattle.sha256.specs.Digest.{sha256};
ghost use Rattle.protocol.specs.Sound.{sound};
ghost use Rattle.protocol.specs.State.{decode};
ghost use Rattle.protocol.specs.Deliver.{heard, deliver_call};
ghost use Rattle.answers.specs.Answers.{delivered_answer};
ghost use Rattle.contradictions.specs.Accepted.{accepted_book};
ghost use Rattle.delivery.specs.Kept.{read_outcome};
ghost use Rattle.frame_refusals.specs.Given.{Read};

use crate::keep::keep;
use answers::answer::Delivered;
use answers::refusal::Refusal;
use contradictions::{clash_refusal, fire_timer, leader_equivocates};
use frame_refusals::read_refusal;
use frames::frame_height;
use soundness::OfReplica;

// Fires the timer where the leader of the current height equivocates by a frame that passes all rows, and else keeps
// what the frame states.
#[tactic(auto, using(protocol::proofs::Laws::DeliverLaws::heard_single, crate::specs::Laws::OutcomeLaws::kept_accepted), unfolding(protocol::specs::Deliver::heard))]
fn hear(book: &mut [u8], h: usize, frame: &[u8]) -> Delivered
    requires read { Read book.old h frame.now }
    requires book_bound { (decode book.old).flags < 16 }
    ensures { accepted_book result book.new ≡ heard sha256 book.old frame.now }
{
    if leader_equivocates(book, h, frame) {
        return fire_timer(book);
    }
    keep(book, h, frame)
}

// Hears a frame that is read, if neither 8 nor 10 stands against it.
#[tactic(auto, unfolding(crate::specs::Kept::read_outcome, protocol::specs::Answer::unless_refused))]
fn deliver_read(book: &mut [u8], h: usize, frame: &[u8]) -> Result<Delivered, Refusal>
    requires read { Read book.old h frame.now }
    requires book_bound { (decode book.old).flags < 16 }
    ensures answer { delivered_answer result ≡ (read_outcome sha256 book.old frame.now).answer }
    ensures book { book.new ≡ (read_outcome sha256 book.old frame.now).book }
{
    clash_refusal(book, h, frame)?;
    Ok(hear(book, h, frame))
}

// Delivers a frame to a sound book.
#[tactic(auto, using(crate::specs::Laws::FrameReadLaws::sound_readable, crate::specs::Laws::FrameReadLaws::sound_flags, crate::specs::Laws::FrameReadLaws::frame_read, crate::specs::Laws::FrameReadLaws::frame_size_lem, crate::specs::Laws::OutcomeLaws::call_refused, crate::specs::Laws::OutcomeLaws::call_read))]
pub fn deliver_sound(book: &mut [u8], frame: &[u8]) -> Result<Delivered, Refusal>
    requires { sound sha256 book.old ≡ true }
    ensures answer { delivered_answer result ≡ (deliver_call sha256 book.old frame.now).answer }
    ensures book { book.new ≡ (deliver_call sha256 book.old frame.now).book }
{
    read_refusal(book, frame)?;
    deliver_read(book, frame_height(frame), frame)
}

// Reads a frame and keeps what it states, or fires the timer by it. The book is first tested for soundness; a refused
// call changes nothing.
#[tactic(auto, using(crate::specs::Laws::OutcomeLaws::call_unsound))]
pub fn deliver(book: &mut [u8], frame: &[u8]) -> Result<Delivered, Refusal>
    ensures answer { delivered_answer result ≡ (deliver_call sha256 book.old frame.now).answer }
    ensures book { book.new ≡ (deliver_call sha256 book.old frame.now).book }
{
    if !soundness::is_sound::<OfReplica>(book) {
        return Err(Refusal::Unsound);
    }
    deliver_sound(book, frame)
}
