// Changes of an observer's book, in place: each leaves the bytes of the changed state, and touches no byte besides.
#![tactic(auto)]

ghost use Rattle.std.specs.Prelude.{◌≡◌, ◌+◌, ◌*◌, ◌<◌, ◌≤◌, length};
ghost use Rattle.protocol.specs.Mask.{mask_limit};
ghost use Rattle.protocol.specs.Deliver.{with_notarized};
ghost use Rattle.protocol.specs.Bytes.{byte_at};
ghost use Rattle.protocol.specs.State.{with_head, most_heights};
ghost use Rattle.protocol.specs.Observer.{encode_observer};
ghost use Rattle.protocol.specs.Open.{long};
ghost use Rattle.protocol.specs.ObserverCalls.{new_observer};
ghost use Rattle.book_fields.specs.Book.{ObserverReady, Within, observed_in, observer_changed, observer_recoded};
ghost use Rattle.book_fields.specs.Numbered.{place_of, with_mask_at};

use book_fields::names::MaskKind;
use book_fields::observed::{block_at, content_at};
use wire::bytes::{copy_to, put_word};

// Writes the book of an observer of `n` replicas of these weights, who has heard nothing. Costs a store for each byte.
pub fn new_book(book: &mut [u8], n: usize, heights: usize, weights: &[u8])
    requires book_len { length book.old ≡ 64 + 184 * heights }
    requires n_bound { (n ≤ 16) × (heights < 65536) }
    requires weights_len { length weights.now ≡ 2 * n }
    ensures { book.new ≡ encode_observer (new_observer (long weights.now) n heights) }
{
    book.fill(0);
    book[0] = n as u8;
    book[7] = 3;
    copy_to(book, 8, weights);
    put_word(book, 40, heights);
    put_word(book, 42, 0);
}

// Keeps a block as the notarized block of height `h`, which has none, with the mask of its certificate.
pub fn set_notarized(book: &mut [u8], h: usize, mask: usize, block: &[u8])
    requires observer_ready { ObserverReady book.old }
    requires within { Within book.old h }
    requires h_value { (observed_in book.old h).status ≡ 0 }
    requires block_len { length block.now ≡ 176 }
    requires mask_lt_mask_limit { mask < mask_limit }
    ensures { book.new ≡
        observer_changed book.old h (λ x. with_notarized x mask block.now) }
{
    let content = content_at(h);
    let from = block_at(book, h);
    copy_to(book, from, block);
    book[content] = 2;
    put_word(book, content + 2, mask);
}

// Sets a mask of height `h`, that of the dummy votes or that of the finalize statements. Costs two stores.
pub fn set_mask(book: &mut [u8], h: usize, which: MaskKind, mask: usize)
    requires observer_ready { ObserverReady book.old }
    requires within { Within book.old h }
    requires le_k { (1 ≤ place_of which) × (place_of which ≤ 2) }
    requires mask_lt_mask_limit { mask < mask_limit }
    ensures { book.new ≡ observer_changed book.old h (λ x. with_mask_at x (place_of which) mask) }
{
    let content = content_at(h);
    put_word(book, content + (2 + 2 * usize::from(which)), mask);
}

// Makes `g` the finalized height. Costs one store.
pub fn set_finalized(book: &mut [u8], g: usize)
    requires observer_ready { ObserverReady book.old }
    requires g_bound { g ≤ most_heights (byte_at book.old 7) }
    ensures { book.new ≡
        observer_recoded book.old (λ s. with_head s s.flags s.current g) }
{
    book_fields::head::put_number(book, 5, 44, g);
}
