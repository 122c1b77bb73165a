// Submit: one more pending entry, after those that the log holds are dropped.
ghost use Rattle.std.specs.Prelude.{◌≡◌, length, ltb};
ghost use Rattle.log_calls.specs.EntryKnown.{is_entry_known};
ghost use Rattle.sha256.specs.Digest.{sha256 as sha};
ghost use Rattle.protocol.specs.State.{decode, maximum_pending};
ghost use Rattle.protocol.specs.Submit.{still_pending, submit_call};
ghost use Rattle.answers.specs.Answers.{done_answer};
ghost use Rattle.book_fields.specs.Book.{SoundBook};

use answers::refusal::Refusal;
use book_fields::bounds::MAXIMUM_PENDING;
use book_fields::kind::Replica;

// Whether an entry is pending or in the log. Compares it with those pending, 32 at most, and with the log.
fn is_known(book: &[u8], entry: &[u8]) -> bool
    requires { SoundBook sha book.now }
    ensures { result ≡ is_entry_known (decode book.now) entry.now }
{
    chains::entries::is_pending(book, entry)
        || chains::chains::chain_holds::<Replica>(book, book_fields::head::finalized(book), entry)
}

// Whether a place is left once the entries that the log holds are dropped. Walks the log for each of them only where
// all 32 places are taken.
fn leaves_room(book: &[u8]) -> bool
    requires { SoundBook sha book.now }
    ensures { result ≡ ltb (length (still_pending (decode book.now))) maximum_pending }
{
    let count = book_fields::head::pending_count(book);
    count < MAXIMUM_PENDING || chains::entries::unlogged_count(book) < MAXIMUM_PENDING
}

// Keeps an entry for a sound book, if it is new and there is a place for it.
pub fn submit_sound(book: &mut [u8], entry: &[u8]) -> Result<(), Refusal>
    requires { SoundBook sha book.old }
    ensures answer { done_answer result ≡ (submit_call sha book.old entry.now).answer }
    ensures book { book.new ≡ (submit_call sha book.old entry.now).book }
{
    if entry.len() != 16 {
        return Err(Refusal::Malformed);
    }
    if is_known(book, entry) {
        return Err(Refusal::EntryKnown);
    }
    if !leaves_room(book) {
        return Err(Refusal::PendingFull);
    }
    chains::entries::add_pending(book, entry);
    Ok(())
}
