// Register size and Read: the log of a sound book, by length and by bytes.
ghost use Rattle.std.specs.Prelude.{◌≡◌, length};
ghost use Rattle.sha256.specs.Digest.{sha256 as sha};
ghost use Rattle.protocol.specs.Read.{size_call, read_part, read_buffer};
ghost use Rattle.answers.specs.Answers.{size_answer};

use answers::refusal::Refusal;
use soundness::OfReplica;

// The length of the log in bytes. Reads the book once to see that it is sound.
pub fn size(book: &[u8]) -> Result<usize, Refusal>
    ensures { size_answer result ≡ size_call sha book.now }
{
    if !soundness::is_sound::<OfReplica>(book) {
        return Err(Refusal::Unsound);
    }
    Ok(16 * log_calls::read::log_count(book))
}

// Copies the log to the front of the buffer and says how many bytes it wrote: none where the book is not sound or the
// buffer is too short. Reads the book once to see that it is sound.
pub fn read_into(book: &[u8], buffer: &mut [u8]) -> usize
    ensures length { result ≡ length (read_part sha book.now buffer.old) }
    ensures buffer { buffer.new ≡ read_buffer sha book.now buffer.old }
{
    if soundness::is_sound::<OfReplica>(book) {
        log_calls::read::read_sound(book, buffer)
    } else {
        0
    }
}

// The log in the front part of the lent buffer, or an empty part where the book is not sound or the buffer is too
// short.
// Of the bytes past the part no contract can speak here, since the part is lent on: `read_into` has them.
pub fn read<'a>(book: &[u8], buffer: &'a mut [u8]) -> &'a mut [u8]
    ensures result_value { result.now ≡ read_part sha book.now buffer.old }
    ensures front { result.ref_ptr ≡ buffer.entry.ref_ptr }
{
    let count = read_into(book, buffer);
    &mut buffer[..count]
}
