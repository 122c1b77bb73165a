// Signal: the timer of the current height has fired.
ghost use Rattle.std.specs.Prelude.{◌≡◌, ◌&&◌, not, eqb};
ghost use Rattle.sha256.specs.Digest.{sha256 as sha};
ghost use Rattle.protocol.specs.State.{decode, flag as is_flagged, with_timer_fired};
ghost use Rattle.protocol.specs.Signal.{signal_call};
ghost use Rattle.book_fields.specs.Book.{Readable, SoundBook, recoded};
ghost use Rattle.answers.specs.Answers.{done_answer};

use answers::refusal::Refusal;
use book_fields::head::{current, flag, in_book, set_flag};
use book_fields::names::Flag;

// Whether the height is the current one and its timer has not fired yet.
fn timer_runs(book: &[u8], height: usize) -> bool
    requires { Readable book.now }
    ensures { result ≡
        (eqb height (decode book.now).current && not (is_flagged 1 (decode book.now))) }
{
    height == current(book) && !flag(book, Flag::TimerFired)
}

// The signal to a sound book.
#[tactic(auto, unfolding(protocol::specs::Signal::signal_call, protocol::specs::Signal::signal_rows, protocol::specs::State::with_timer_fired, protocol::specs::Tests::first_refusal, protocol::specs::Answer::unless_refused,))]
pub fn signal_sound(book: &mut [u8], height: usize) -> Result<(), Refusal>
    requires { SoundBook sha book.old }
    ensures answer { done_answer result ≡ (signal_call sha book.old height).answer }
    ensures book { book.new ≡ (signal_call sha book.old height).book }
{
    if !in_book(book, height) {
        return Err(Refusal::NoSuchHeight);
    }
    if !timer_runs(book, height) {
        return Err(Refusal::NotDue);
    }
    set_flag(book, Flag::TimerFired);
    Ok(())
}
