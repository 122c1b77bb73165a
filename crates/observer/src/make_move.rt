// Move: of the five moves the second alone, which outputs.
ghost use Rattle.std.specs.Prelude.{◌≡◌, ◌+◌, ◌*◌, ◌≤◌, true};
ghost use Rattle.sha256.specs.Digest.{sha256 as sha};
ghost use Rattle.protocol.specs.State.{book_heights};
ghost use Rattle.protocol.specs.Tests.{all_of};
ghost use Rattle.protocol.specs.Answer.{accepted};
ghost use Rattle.protocol.specs.Observer.{observer_state};
ghost use Rattle.protocol.specs.ObserverCalls.{observer_step, observer_moved, observer_move_call};
ghost use Rattle.answers.specs.Answers.{moved_answer, move_of};
ghost use Rattle.answers.specs.MoveNumbers.{moved_numbers, answer_numbers};
ghost use Rattle.book_fields.specs.Book.{ObserverReadable, SoundObserverBook};
ghost use Rattle.book_fields.specs.Kinds.{ObserverBook};
ghost use Rattle.memory.specs.Memo.{MemoAs};
ghost use Rattle.observer_soundness.specs.ObserverRows.{book_rows};

use answers::answer::Moved;
use answers::refusal::Refusal;
use book_fields::kind::Observer;
use memory::{LARGE, SMALL, has_room};
use observer_soundness::OfObserver;

// Makes the largest finalized height the finalized one, where it is larger. Costs one store.
fn step(book: &mut [u8], known: &mut [u8]) -> Moved
    requires sound_observer_book { SoundObserverBook sha book.old }
    requires memo_as { MemoAs ObserverBook book.old known.old }
    ensures answer { accepted (move_of result) ≡
        (observer_moved sha (observer_step sha (observer_state book.old))).answer }
    ensures book { book.new ≡
        (observer_moved sha (observer_step sha (observer_state book.old))).book }
{
    let top = book_fields::kind::heights::<Observer>(book);
    let g = linking::linking::largest_finalized::<Observer>(book, top, known);
    if g <= book_fields::observed::finalized(book) {
        return Moved::Idle;
    }
    observer_book::set_finalized(book, g);
    Moved::Final(g)
}

// The call on a book that is sound but for its finalized height, with a memory of zeros of its own of `N` bytes, which
// has room for the book's heights. Never inlined, so that a book of few heights does not pay for a longer one's memory.
#[inline(never)]
fn move_in<const N: usize>(book: &mut [u8]) -> Result<Moved, Refusal>
    requires book_value { all_of (book_rows book.old) ≡ true }
    requires observer_readable { ObserverReadable book.old }
    requires room { (36 * (book_heights book.old + 1) ≤ N) × (N ≤ LARGE) }
    ensures answer { moved_answer result ≡ (observer_move_call sha book.old).answer }
    ensures book { book.new ≡ (observer_move_call sha book.old).book }
    ensures numbers { moved_numbers result ≡ answer_numbers (observer_move_call sha book.old).answer }
{
    let mut known = [0u8; N];
    if !soundness::finalized_sound::<OfObserver>(book, &mut known) {
        return Err(Refusal::Unsound);
    }
    Ok(step(book, &mut known))
}

// Makes move 2, if it applies; a refused call changes nothing. Costs one pass over the book, and at most one digest for
// each height. A book of few heights does not pay for the memory of a longer one.
pub fn make_move(book: &mut [u8]) -> Result<Moved, Refusal>
    ensures answer { moved_answer result ≡ (observer_move_call sha book.old).answer }
    ensures book { book.new ≡ (observer_move_call sha book.old).book }
    ensures numbers { moved_numbers result ≡ answer_numbers (observer_move_call sha book.old).answer }
{
    if !soundness::rows_sound::<OfObserver>(book) {
        return Err(Refusal::Unsound);
    }
    if has_room::<Observer>(book, SMALL) {
        move_in::<SMALL>(book)
    } else {
        move_in::<LARGE>(book)
    }
}
