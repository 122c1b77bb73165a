// The pool of a book: its pending entries, read where they lie.
ghost use Rattle.std.specs.Prelude.{◌≡◌, ◌*◌, ◌<◌};
ghost use Rattle.protocol.specs.Bytes.{part};
ghost use Rattle.protocol.specs.State.{decode, maximum_pending};
ghost use Rattle.book_fields.specs.Book.{Readable};

// Place `k` of the pool, 16 bytes: an entry, if it is pending.
pub fn pending_entry(book: &[u8], k: usize) -> &[u8]
    requires readable { Readable book.now }
    requires k_lt_maximum_pending { k < maximum_pending }
    ensures { result.now ≡ part (decode book.now).pool (16 * k) 16 }
{
    let from = 64 + 16 * k;
    &book[from..from + 16]
}
