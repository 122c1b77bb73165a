// Quorums over a replica's book, and the dummy blocks that they notarize.
ghost use Rattle.std.specs.Prelude.{◌≡◌, ◌<◌};
ghost use Rattle.protocol.specs.Mask.{mask_limit};
ghost use Rattle.protocol.specs.View.{quorum as is_quorum, is_dummy};
ghost use Rattle.book_fields.specs.Book.{Readable, Within, book_view};

use crate::kind::Replica;

// Whether a mask holds two thirds of the weight of the book's replicas.
pub fn quorum(book: &[u8], mask: usize) -> bool
    requires readable { Readable book.now }
    requires mask_lt_mask_limit { mask < mask_limit }
    ensures { result ≡ is_quorum (book_view book.now) mask }
{
    crate::kind::quorum::<Replica>(book, mask)
}

// Whether the dummy block of height `h` is notarized.
pub fn is_dummy(book: &[u8], h: usize) -> bool
    requires readable { Readable book.now }
    requires within { Within book.now h }
    ensures { result ≡ is_dummy (book_view book.now) h }
{
    crate::kind::is_dummy::<Replica>(book, h)
}
