// The pool of a book: its pending entries closed up in place, and the new one behind them.
ghost use Rattle.std.specs.Prelude.{◌≡◌, ◌*◌, ◌<◌, ◌≤◌, [], ◌∷◌, ◌++◌, length};
ghost use Rattle.protocol.specs.Bytes.{part, pieces, put};
ghost use Rattle.protocol.specs.State.{with_pool, maximum_pending};
ghost use Rattle.protocol.specs.Submit.{with_pending};
ghost use Rattle.book_fields.specs.Book.{Ready, recoded};

use wire::bytes::{clear, copy_to};

// Copies place `from` of the pool to a place that is not after it.
pub fn move_entry(book: &mut [u8], from: usize, to: usize)
    requires ready { Ready book.old }
    requires to_le_from { (to ≤ from) × (from < maximum_pending) }
    ensures { book.new ≡ recoded book.old (λ s.
        with_pool s s.pending_count (put s.pool (16 * to) (part s.pool (16 * from) 16))) }
{
    let at = 64 + 16 * from;
    let mut entry = [0; 16];
    entry.copy_from_slice(&book[at..at + 16]);
    copy_to(book, 64 + 16 * to, &entry);
}

// Makes the pool's first `count` places and one new entry all that is pending.
pub fn finish_pool(book: &mut [u8], count: usize, entry: &[u8])
    requires ready { Ready book.old }
    requires count_lt_maximum_pending { count < maximum_pending }
    requires len { length entry.now ≡ 16 }
    ensures { book.new ≡ recoded book.old (λ s.
        with_pending s (pieces 16 count s.pool ++ (entry.now ∷ []))) }
{
    copy_to(book, 64 + 16 * count, entry);
    clear(book, 64 + 16 * (count + 1), 512 - 16 * (count + 1));
    book[6] = (count + 1) as u8;
}
