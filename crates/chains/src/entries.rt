// The entries of a replica's book: those of its chains, and its pending ones, in what a chain lacks.
ghost use Rattle.std.specs.Prelude.{◌≡◌, [], ◌∷◌, ◌++◌, ◌<◌, ◌≤◌, length};
ghost use Rattle.protocol.specs.Bytes.{holds, over_front};
ghost use Rattle.protocol.specs.Block.{new_block};
ghost use Rattle.protocol.specs.State.{decode, pending, maximum_pending};
ghost use Rattle.protocol.specs.View.{log_at};
ghost use Rattle.protocol.specs.Move.{offered};
ghost use Rattle.protocol.specs.Submit.{still_pending, with_pending};
ghost use Rattle.book_fields.specs.Book.{Readable, Ready, book_view, recoded};
ghost use Rattle.chains.specs.Walkable.{Walkable};

use crate::chains::chain_holds;
use book_fields::kind::Replica;

// Makes the block of height `c` on the block of height `j`, with the first eight pending entries that the chain ending
// in height `j` lacks, at the front of `block`. Walks that chain once for each pending entry, 32 times at most.
pub fn offer(book: &[u8], c: usize, j: usize, digest: &[u8], block: &mut [u8])
    requires walkable { Walkable book.now j }
    requires book_bound { (decode book.now).pending_count ≤ maximum_pending }
    requires c_bound { (c < 65536) × (length digest.now ≡ 32) × (176 ≤ length block.old) }
    ensures { block.new ≡
        over_front (new_block c j digest.now (offered (decode book.now) j)) block.old }
{
    wire::block::start_block(block, c, j, digest);
    let mut taken = 0;
    for k in 0..book_fields::head::pending_count(book) {
        if taken == 8 {
            return;
        }
        let entry = book_fields::pool::pending_entry(book, k);
        if chain_holds::<Replica>(book, j, entry) {
            continue;
        }
        wire::block::add_entry(block, taken, entry);
        taken += 1;
    }
}

// How many pending entries the log does not hold. Walks its chain once for each of them, 32 times at most.
pub fn unlogged_count(book: &[u8]) -> usize
    requires walkable { Walkable book.now (decode book.now).finalized }
    requires book_bound { (decode book.now).pending_count ≤ maximum_pending }
    ensures { (result ≡ length (still_pending (decode book.now))) × (result ≤ maximum_pending) }
{
    let finalized = book_fields::head::finalized(book);
    let count = book_fields::head::pending_count(book);
    (0..count)
        .filter(|k| !chain_holds::<Replica>(
            book,
            finalized,
            book_fields::pool::pending_entry(book, *k),
        ))
        .count()
}

// Whether this entry is pending. Compares at most 32 entries.
pub fn is_pending(book: &[u8], entry: &[u8]) -> bool
    requires readable { Readable book.now }
    requires book_bound { (decode book.now).pending_count ≤ maximum_pending }
    ensures { result ≡ holds entry.now (pending (decode book.now)) }
{
    let count = book_fields::head::pending_count(book);
    (0..count).any(|k| wire::bytes::same_bytes(entry, book_fields::pool::pending_entry(book, k)))
}

// Makes the pending entries that the log does not hold, and `entry` after them, all that is pending. Closes the pool up
// in place and walks the log's chain once for each pending entry, 32 times at most.
pub fn add_pending(book: &mut [u8], entry: &[u8])
    requires ready { Ready book.old }
    requires walkable { Walkable book.old (decode book.old).finalized }
    requires book_bound { ((decode book.old).pending_count ≤ maximum_pending) ×
        (length (still_pending (decode book.old)) < maximum_pending) }
    requires len { length entry.now ≡ 16 }
    ensures { book.new ≡ recoded book.old (λ s.
        with_pending s (still_pending s ++ (entry.now ∷ []))) }
{
    let log_height = book_fields::head::finalized(book);
    let mut left = 0;
    for k in 0..book_fields::head::pending_count(book) {
        if chain_holds::<Replica>(book, log_height, book_fields::pool::pending_entry(book, k)) {
            continue;
        }
        book_changes::pool::move_entry(book, k, left);
        left += 1;
    }
    book_changes::pool::finish_pool(book, left, entry);
}
