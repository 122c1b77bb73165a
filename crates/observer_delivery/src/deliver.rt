// Deliver of an observer: reads a certificate over the book, and keeps what it states.
ghost use Rattle.std.specs.Prelude.{◌≡◌};
ghost use Rattle.sha256.specs.Digest.{sha256 as sha};
ghost use Rattle.protocol.specs.ObserverCalls.{observer_deliver_call};
ghost use Rattle.answers.specs.Answers.{delivered_answer};
ghost use Rattle.book_fields.specs.Book.{SoundObserverBook};

use crate::keep::keep;
use answers::answer::Delivered;
use answers::refusal::Refusal;
use frames::frame_height;
use observer_refusals::frame_refusal;
use observer_soundness::OfObserver;

// Delivers a frame to a sound book.
#[tactic(auto, using(crate::specs::Laws::KeptLaws::deliver_refused))]
fn deliver_sound(book: &mut [u8], frame: &[u8]) -> Result<Delivered, Refusal>
    requires { SoundObserverBook sha book.old }
    ensures answer { delivered_answer result ≡
        (observer_deliver_call sha book.old frame.now).answer }
    ensures book { book.new ≡ (observer_deliver_call sha book.old frame.now).book }
{
    frame_refusal(book, frame)?;
    Ok(keep(book, frame_height(frame), frame))
}

// Reads a certificate and keeps what it states. The book is first tested for soundness; a refused call changes nothing.
#[tactic(auto, using(book_fields::specs::Laws::ObserverBookLaws::sound_observer_book, crate::specs::Laws::KeptLaws::deliver_unsound))]
pub fn deliver(book: &mut [u8], frame: &[u8]) -> Result<Delivered, Refusal>
    ensures answer { delivered_answer result ≡
        (observer_deliver_call sha book.old frame.now).answer }
    ensures book { book.new ≡ (observer_deliver_call sha book.old frame.now).book }
{
    if !soundness::is_sound::<OfObserver>(book) {
        return Err(Refusal::Unsound);
    }
    deliver_sound(book, frame)
}
