// Written by tests/restated --write: what docs/statements has of
// crates/observer/src/read.rt.
ghost use Rattle.std.specs.Prelude.{◌≡◌, length};
ghost use package.Rattle.sha256.specs.Digest.{sha256 as sha};
ghost use package.Rattle.protocol.specs.ObserverCalls.{observer_size_call, observer_read_part, observer_read_buffer};
ghost use package.Rattle.answers.specs.Answers.{size_answer};

use answers::refusal::Refusal;

// The length of the log in bytes. Reads the book once to see that it is sound.
pub fn size(book: &[u8]) -> Result<usize, Refusal>
    ensures { size_answer result ≡ observer_size_call sha book.now }
{
    observer::read::size(book)
}

// Copies the log to the front of the buffer and says how many bytes it wrote: none where the book is not sound or the
// buffer is too short. Reads the book once to see that it is sound.
pub fn read_into(book: &[u8], buffer: &mut [u8]) -> usize
    ensures length { result ≡ length (observer_read_part sha book.now buffer.old) }
    ensures buffer { buffer.new ≡ observer_read_buffer sha book.now buffer.old }
{
    observer::read::read_into(book, buffer)
}

// The log in the front part of the lent buffer, or an empty part where the book is not sound or the buffer is too
// short.
// Of the bytes past the part no contract can speak here, since the part is lent on: `read_into` has them.
pub fn read<'a>(book: &[u8], buffer: &'a mut [u8]) -> &'a mut [u8]
    ensures result_value { result.now ≡ observer_read_part sha book.now buffer.old }
    ensures front { result.ref_ptr ≡ buffer.entry.ref_ptr }
{
    observer::read::read(book, buffer)
}
