// Register size and Read: the log of a sound book, by length and by bytes.
ghost use Rattle.std.specs.Prelude.{◌≡◌, ◌≤◌, length};
ghost use Rattle.sha256.specs.Digest.{sha256 as sha};
ghost use Rattle.protocol.specs.State.{decode, maximum_entries};
ghost use Rattle.protocol.specs.Sound.{log};
ghost use Rattle.protocol.specs.Read.{read_part, read_buffer};
ghost use Rattle.book_fields.specs.Book.{SoundBook};

use book_fields::kind::Replica;

// How many entries the log of a sound book has. Goes through the entries of its chain once, and looks back at those
// before an entry for which the filter says perhaps, 8,000 times at most.
pub fn log_count(book: &[u8]) -> usize
    requires { SoundBook sha book.now }
    ensures { (result ≡ length (log (decode book.now))) × (result ≤ maximum_entries) }
{
    let finalized = book_fields::head::finalized(book);
    distinct_entries::distinct::count_distinct::<Replica>(book, finalized)
}

// Copies the log of a sound book to the front of the buffer, if the buffer is long enough, and says how many bytes it
// wrote.
pub fn read_sound(book: &[u8], buffer: &mut [u8]) -> usize
    requires { SoundBook sha book.now }
    ensures length { result ≡ length (read_part sha book.now buffer.old) }
    ensures buffer { buffer.new ≡ read_buffer sha book.now buffer.old }
{
    let finalized = book_fields::head::finalized(book);
    distinct_entries::distinct::read_distinct::<Replica>(book, finalized, buffer)
}
