// The rows of soundness that the heads of all kinds of books share: n, H, edition, weights, and unused bytes.
ghost use Rattle.std.specs.Prelude.{◌≡◌, ◌≤◌, length};
ghost use Rattle.protocol.specs.Bytes.{is_zero};
ghost use Rattle.protocol.specs.Tests.{all_of, in_range};
ghost use Rattle.protocol.specs.State.{most_heights};
ghost use Rattle.book_fields.specs.Setting.{later_unused, weight_rows, setting_rows};

use crate::bounds::{MAXIMUM_HEIGHTS, MAXIMUM_REPLICAS, SHORT_HEIGHTS};
use wire::bytes::{byte, is_zero};

// Whether a book of this edition may have so many heights.
fn heights_fit(heights: usize, edition: usize) -> bool
    ensures { result ≡ in_range 1 (most_heights edition) heights }
{
    if edition == 3 {
        (1 <= heights) & (heights <= MAXIMUM_HEIGHTS)
    } else {
        (1 <= heights) & (heights <= SHORT_HEIGHTS)
    }
}

// Whether the bytes are zero that an edition after the first does not use.
fn later_unused(book: &[u8], edition: usize) -> bool
    requires { 64 ≤ length book.now }
    ensures { result ≡ is_zero (later_unused edition book.now) }
{
    if edition == 3 {
        let short = byte(book, 2);
        let current = byte(book, 4);
        let finalized = byte(book, 5);
        let rest = is_zero(&book[46..64]);
        (short == 0) & ((current == 0) & ((finalized == 0) & rest))
    } else {
        is_zero(&book[40..64])
    }
}

// Whether n replicas, at most 16, have weights that fit: edition 1 has none, the others two bytes each, and zeros for
// the replicas that are absent.
fn weights_sound(book: &[u8], n: usize, edition: usize) -> bool
    requires { (64 ≤ length book.now) × (n ≤ 16) }
    ensures { result ≡ all_of (weight_rows n edition book.now) }
{
    if edition == 1 {
        is_zero(&book[8..64])
    } else {
        let there = wire::weights::in_range(&book[8..40], n);
        let absent = is_zero(&book[8 + 2 * n..40]);
        let unused = later_unused(book, edition);
        (there & absent) & unused
    }
}

// Whether n, H, edition, weights and unused bytes are as they must be.
pub fn setting_sound(book: &[u8]) -> bool
    requires { 64 ≤ length book.now }
    ensures { result ≡ all_of (setting_rows book.now) }
{
    let n = byte(book, 0);
    let edition = byte(book, 7);
    if n <= MAXIMUM_REPLICAS {
        let heights = heights_fit(crate::head::number(book, 2, 40), edition);
        let weights = weights_sound(book, n, edition);
        (1 <= n) & (heights & (((1 <= edition) & (edition <= 3)) & weights))
    } else {
        false
    }
}
