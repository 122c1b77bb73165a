// An observer's book: its finalized height, and the status, masks and block of one height, read where they lie.
ghost use Rattle.std.specs.Prelude.{◌≡◌, ◌+◌, ◌-◌, ◌*◌, ◌<◌, ◌≤◌};
ghost use Rattle.protocol.specs.State.{is_notarized, book_heights};
ghost use Rattle.protocol.specs.Observer.{observer_state};
ghost use Rattle.protocol.specs.Block.{maximum_heights};
ghost use Rattle.protocol.specs.Mask.{mask_limit};
ghost use Rattle.book_fields.specs.Book.{ObserverReadable, Within, observed_in};
ghost use Rattle.book_fields.specs.Numbered.{mask_at, place_of};

use crate::names::MaskKind;

// The finalized height.
pub fn finalized(book: &[u8]) -> usize
    requires { ObserverReadable book.now }
    ensures { (result ≡ (observer_state book.now).finalized) × (result < 65792) }
{
    crate::head::good_number(book, 5, 44)
}

// Where the contents of height `h` start.
pub fn content_at(h: usize) -> usize
    requires { (1 ≤ h) × (h ≤ maximum_heights) }
    ensures { result ≡ 64 + 8 * (h - 1) }
{
    64 + 8 * (h - 1)
}

// Where the block of height `h` starts, after the contents of all heights.
pub fn block_at(book: &[u8], h: usize) -> usize
    requires observer_readable { ObserverReadable book.now }
    requires within { Within book.now h }
    ensures { result ≡ 64 + 8 * book_heights book.now + 176 * (h - 1) }
{
    let heights = crate::head::good_number(book, 2, 40);
    64 + 8 * heights + 176 * (h - 1)
}

pub fn status(book: &[u8], h: usize) -> usize
    requires observer_readable { ObserverReadable book.now }
    requires within { Within book.now h }
    ensures { (result ≡ (observed_in book.now h).status) × (result < 256) }
{
    let from = content_at(h);
    wire::bytes::byte(book, from)
}

pub fn is_notarized(book: &[u8], h: usize) -> bool
    requires observer_readable { ObserverReadable book.now }
    requires within { Within book.now h }
    ensures { result ≡ is_notarized (observed_in book.now h) }
{
    2 <= status(book, h)
}

// A mask of height `h`; there is none of voters.
pub fn mask_at(book: &[u8], h: usize, which: MaskKind) -> usize
    requires observer_readable { ObserverReadable book.now }
    requires within { Within book.now h }
    requires no_voters { place_of which < 3 }
    ensures { (result ≡ mask_at (observed_in book.now h) (place_of which)) × (result < mask_limit) }
{
    let from = content_at(h);
    let k = usize::from(which);
    wire::bytes::word(book, from + (2 + 2 * k))
}

// The notarized block's place, 176 bytes.
pub fn notarized(book: &[u8], h: usize) -> &[u8]
    requires observer_readable { ObserverReadable book.now }
    requires within { Within book.now h }
    ensures { result.now ≡ (observed_in book.now h).notarized }
{
    let from = block_at(book, h);
    &book[from..from + 176]
}
