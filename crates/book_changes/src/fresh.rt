// A new book: nothing is held or pending, and the replica is at height 1.
ghost use Rattle.std.specs.Prelude.{◌≡◌, ◌+◌, ◌*◌, ◌<◌, ◌≤◌, length};
ghost use Rattle.protocol.specs.Bytes.{zeros};
ghost use Rattle.protocol.specs.State.{encode};
ghost use Rattle.protocol.specs.Open.{new_state, long};
ghost use Rattle.protocol.specs.Block.{maximum_heights};

use wire::bytes::{copy_to, put_word};

// Writes the book of `n` replicas of these weights and the replica's own number, with replica 0 as the leader of every
// height.
fn led_by_zero(book: &mut [u8], n: usize, own: usize, heights: usize, weights: &[u8])
    requires book_len { length book.old ≡ 576 + 880 * heights }
    requires n_bound { (n ≤ 16) × (own < 256) × (heights < 65536) }
    requires weights_len { length weights.now ≡ 2 * n }
    ensures { book.new ≡ encode (new_state (long weights.now) n own (zeros heights)) }
{
    book.fill(0);
    book[0] = n as u8;
    book[1] = own as u8;
    book[7] = 3;
    copy_to(book, 8, weights);
    put_word(book, 40, heights);
    put_word(book, 42, 1);
}

// Writes the book of `n` replicas of these weights, the replica's own number, and the leader of each height.
pub fn new_book(book: &mut [u8], n: usize, own: usize, weights: &[u8], leaders: &[u8])
    requires book_len { length book.old ≡ 576 + 880 * length leaders.now }
    requires leaders_len_bound { length leaders.now ≤ maximum_heights }
    requires n_bound { (n ≤ 16) × (own < 256) }
    requires weights_len { length weights.now ≡ 2 * n }
    ensures { book.new ≡
        encode (new_state (long weights.now) n own leaders.now) }
{
    led_by_zero(book, n, own, leaders.len(), weights);
    for (i, leader) in leaders.iter().enumerate() {
        book[576 + 16 * i] = *leader;
    }
}
