// Soundness of a book of any kind: its head, each of its heights, and its finalized height.
ghost use Rattle.std.specs.Prelude.{◌≡◌, ◌&&◌, ℕ, Bool, true};
ghost use Rattle.sha256.specs.Digest.{sha256 as sha};
ghost use Rattle.protocol.specs.Bytes.{Bytes, AreBytes};
ghost use Rattle.protocol.specs.Tests.{every_height};
ghost use Rattle.protocol.specs.State.{book_heights};
ghost use Rattle.book_fields.specs.Book.{Within, Shown};
ghost use Rattle.memory.specs.Memo.{MemoAs};
ghost use Rattle.soundness.specs.Rows.{final_row_as};

use book_fields::kind::Kind;

// The rows of soundness that each kind of book has of its own: of its head, and of each of its heights.
pub trait Rows {
    type Book: Kind;

    // what the head must be, a height, all but the finalized height, the finalized height, and the whole book
    ghost head: { Bytes → Bool };

    ghost height: { Bytes → ℕ → Bool };

    ghost rows: { Bytes → Bool };

    ghost final_row: { Bytes → Bool };

    ghost sound: { Bytes → Bool };

    // Whether the length is that of the heights, and the head as it must be. A book with such a head can be read.
    fn head_sound(book: &[u8]) -> bool
        ensures answer { result ≡ head book.now }
        ensures readable { result ≡ true → Shown Self.Book.kind book.now };

    // Whether height `h` is as it must be.
    fn height_sound(book: &[u8], h: usize) -> bool
        requires shown { Shown Self.Book.kind book.now }
        requires within { Within book.now h }
        ensures { result ≡ height book.now h };

    ghost rows_are: { (book : Bytes) → rows book ≡ (head book && every_height (height book) (book_heights book)) };

    ghost final_is: { (book : Bytes) → final_row book ≡ final_row_as Self.Book.kind book };

    ghost sound_is: { (book : Bytes) → sound book ≡ (rows book && final_row book) };
}

// Whether every height is as it must be. Looks at each once, and ends at the first that is not.
fn heights_sound<R: Rows>(book: &[u8]) -> bool
    requires { Shown R.Book.kind book.now }
    ensures { result ≡ every_height (R.height book.now) (book_heights book.now) }
{
    for h in 0..book_fields::kind::heights::<R::Book>(book) {
        if !R::height_sound(book, h + 1) {
            return false;
        }
    }
    true
}

// Whether the finalized height is 0, or finalized. One digest for each block of its chain.
pub fn finalized_sound<R: Rows>(book: &[u8], known: &mut [u8]) -> bool
    requires shown { Shown R.Book.kind book.now }
    requires memo_as { MemoAs R.Book.kind book.now known.old }
    ensures answer { result ≡ R.final_row book.now }
    ensures memo { MemoAs R.Book.kind book.now known.new }
{
    let g = book_fields::kind::finalized::<R::Book>(book);
    linking::linking::zero_or_finalized::<R::Book>(book, g, known)
}

// Whether a book is sound but for its finalized height. Reads it once. A call that walks the book further asks this
// first, and then `finalized_sound` with a memory that has room for the heights.
pub fn rows_sound<R: Rows>(book: &[u8]) -> bool
    ensures answer { result ≡ R.rows book.now }
    ensures readable { result ≡ true → Shown R.Book.kind book.now }
{
    R::head_sound(book) && heights_sound::<R>(book)
}

// Whether a book is sound, for a call that asks for no linked height afterwards. Reads it once, and computes one digest
// for each block of the finalized chain. The book's bytes are below 256, as those of any slice.
pub fn is_sound<R: Rows>(book: &[u8]) -> bool
    ensures answer { result ≡ R.sound book.now }
    ensures bytes { AreBytes book.now }
{
    if !rows_sound::<R>(book) {
        return false;
    }
    let g = book_fields::kind::finalized::<R::Book>(book);
    linking::alone::finalized_alone::<R::Book>(book, g)
}
