// The log of a sound observer's book, by length and by bytes.
ghost use Rattle.std.specs.Prelude.{◌≡◌, ◌≤◌, length};
ghost use Rattle.sha256.specs.Digest.{sha256 as sha};
ghost use Rattle.protocol.specs.State.{maximum_entries};
ghost use Rattle.protocol.specs.Sound.{log};
ghost use Rattle.protocol.specs.Observer.{observer_state};
ghost use Rattle.protocol.specs.ObserverCalls.{observer_read_part, observer_read_buffer};
ghost use Rattle.book_fields.specs.Book.{SoundObserverBook};

use book_fields::kind::Observer;
use book_fields::observed::finalized;

// How many entries the log of a sound book has. Goes through the entries of its chain once, and looks back at those
// before an entry for which the filter says perhaps, 8,000 times at most.
pub fn log_count(book: &[u8]) -> usize
    requires { SoundObserverBook sha book.now }
    ensures { (result ≡ length (log (observer_state book.now))) × (result ≤ maximum_entries) }
{
    let g = finalized(book);
    distinct_entries::distinct::count_distinct::<Observer>(book, g)
}

// Copies the log of a sound book to the front of the buffer, if the buffer is long enough, and says how many bytes it
// wrote.
pub fn read_sound(book: &[u8], buffer: &mut [u8]) -> usize
    requires { SoundObserverBook sha book.now }
    ensures length { result ≡ length (observer_read_part sha book.now buffer.old) }
    ensures buffer { buffer.new ≡ observer_read_buffer sha book.now buffer.old }
{
    let g = finalized(book);
    distinct_entries::distinct::read_distinct::<Observer>(book, g, buffer)
}
