// The head of a book: its numbers, what they say of the current height, and the three that a move changes.
ghost use Rattle.std.specs.Prelude.{◌≡◌, ◌+◌, ◌<◌, ◌≤◌, false, length, eqb};
ghost use Rattle.protocol.specs.Bytes.{byte_at, word16};
ghost use Rattle.protocol.specs.Tests.{in_range};
ghost use Rattle.protocol.specs.State.{decode, last, flag as is_flagged, with_head, with_flag, book_heights};
ghost use Rattle.protocol.specs.State.{head_number, head_put, most_heights};
ghost use Rattle.protocol.specs.Move.{is_running};
ghost use Rattle.protocol.specs.Block.{maximum_heights};
ghost use Rattle.book_fields.specs.Book.{Readable, Ready, recoded};

use wire::numbered::Numbered;

// A number of any head: in a byte, and in edition 3 in two bytes elsewhere. Costs two or three reads.
pub fn number(book: &[u8], short: usize, long: usize) -> usize
    requires in_bounds { 64 ≤ length book.now }
    requires short_bound { (short < 64) × (long + 1 < 64) }
    ensures { (result ≡ head_number short long book.now) × (result < 65536) }
{
    if wire::bytes::byte(book, 7) == 3 {
        wire::bytes::word(book, long)
    } else {
        wire::bytes::byte(book, short)
    }
}

// The same where the head is known to be good: of the byte and the two bytes one place is zero. Costs three reads and no
// branch, since the tally finds votes by H.
pub fn good_number(book: &[u8], short: usize, long: usize) -> usize
    requires in_bounds { 64 ≤ length book.now }
    requires short_bound { (short < 64) × (long + 1 < 64) }
    ensures { (result ≡ byte_at book.now short + word16 book.now long) × (result < 65792) }
{
    wire::bytes::byte(book, short) + wire::bytes::word(book, long)
}

// Writes such a number. Costs one or two stores.
pub fn put_number(book: &mut [u8], short: usize, long: usize, x: usize)
    requires in_bounds { 64 ≤ length book.old }
    requires short_bound { (short < 64) × (long + 1 < 64) }
    requires x_bound { (x < 65536) × (eqb (byte_at book.old 7) 3 ≡ false → x < 256) }
    ensures { book.new ≡ head_put short long x book.old }
{
    if wire::bytes::byte(book, 7) == 3 {
        wire::bytes::put_word(book, long, x);
    } else {
        book[short] = x as u8;
    }
}

// The number of replicas.
pub fn replicas(book: &[u8]) -> usize
    requires { Readable book.now }
    ensures { (result ≡ (decode book.now).n) × (result < 256) }
{
    wire::bytes::byte(book, 0)
}

// The replica's own number.
pub fn own(book: &[u8]) -> usize
    requires { Readable book.now }
    ensures { (result ≡ (decode book.now).own) × (result < 256) }
{
    wire::bytes::byte(book, 1)
}

// The number of heights.
pub fn heights(book: &[u8]) -> usize
    requires { Readable book.now }
    ensures { (result ≡ book_heights book.now) × (result ≤ maximum_heights) }
{
    good_number(book, 2, 40)
}

// The flags of the current height.
pub fn flags(book: &[u8]) -> usize
    requires { Readable book.now }
    ensures { (result ≡ (decode book.now).flags) × (result < 256) }
{
    wire::bytes::byte(book, 3)
}

// The current height.
pub fn current(book: &[u8]) -> usize
    requires { Readable book.now }
    ensures { (result ≡ (decode book.now).current) × (result < 65792) }
{
    good_number(book, 4, 42)
}

// The finalized height.
pub fn finalized(book: &[u8]) -> usize
    requires { Readable book.now }
    ensures { (result ≡ (decode book.now).finalized) × (result < 65792) }
{
    good_number(book, 5, 44)
}

// The number of pending entries.
pub fn pending_count(book: &[u8]) -> usize
    requires { Readable book.now }
    ensures { (result ≡ (decode book.now).pending_count) × (result < 256) }
{
    wire::bytes::byte(book, 6)
}

// Whether the book has height `h`.
pub fn in_book(book: &[u8], h: usize) -> bool
    requires { Readable book.now }
    ensures { result ≡ in_range 1 (last (decode book.now)) h }
{
    let top = heights(book);
    (1 <= h) & (h <= top)
}

// Whether the current height is one of the book's.
pub fn is_running(book: &[u8]) -> bool
    requires { Readable book.now }
    ensures { result ≡ is_running (decode book.now) }
{
    current(book) <= heights(book)
}

// Whether a flag of the current height is set, by its name or by its number from 1 up.
#[tactic(auto, unfolding(protocol::specs::State::flag))]
pub fn flag<F: Numbered>(book: &[u8], which: F) -> bool
    requires readable { Readable book.now }
    requires le_k { 1 ≤ F.number which }
    ensures { result ≡ is_flagged (F.number which) (decode book.now) }
{
    let bit = which.number();
    flags(book) / bit % 2 == 1
}

// Sets a flag of the current height, which is not set, by its name or by its number up to 8. Costs one store.
#[tactic(auto, using(crate::specs::Laws::HeadLaws::flag_set))]
pub fn set_flag<F: Numbered>(book: &mut [u8], which: F)
    requires ready { Ready book.old }
    requires book_bound { ((decode book.old).flags < 16) × (F.number which ≤ 8) }
    ensures { book.new ≡ recoded book.old (with_flag (F.number which)) }
{
    let set = flags(book) + which.number();
    book[3] = set as u8;
}

// Enters height `h`, of which no flag is set. Costs two stores.
pub fn enter(book: &mut [u8], h: usize)
    requires ready { Ready book.old }
    requires h_bound { h ≤ most_heights (byte_at book.old 7) + 1 }
    ensures { book.new ≡ recoded book.old (λ s. with_head s 0 h s.finalized) }
{
    book[3] = 0;
    put_number(book, 4, 42, h);
}

// Makes `g` the finalized height. Costs one store.
pub fn set_finalized(book: &mut [u8], g: usize)
    requires ready { Ready book.old }
    requires g_bound { g ≤ most_heights (byte_at book.old 7) }
    ensures { book.new ≡ recoded book.old (λ s. with_head s s.flags s.current g) }
{
    put_number(book, 5, 44, g);
}
