// One height of a book: leader, status, masks, blocks and vote digests, read where they lie.
ghost use Rattle.std.specs.Prelude.{◌≡◌, ◌+◌, ◌-◌, ◌*◌, ◌<◌, ◌≤◌};
ghost use Rattle.protocol.specs.State.{holds_proposal, is_notarized, vote_of, book_heights, maximum_replicas};
ghost use Rattle.protocol.specs.Block.{maximum_heights};
ghost use Rattle.protocol.specs.Mask.{mask_limit};
ghost use Rattle.book_fields.specs.Book.{Readable, Within, height_in};
ghost use Rattle.book_fields.specs.Numbered.{mask_at, place_of, block_at};

use crate::names::MaskKind;

// Where the contents of height `h` start.
pub fn content_at(h: usize) -> usize
    requires { (1 ≤ h) × (h ≤ maximum_heights) }
    ensures { result ≡ 576 + 16 * (h - 1) }
{
    576 + 16 * (h - 1)
}

// Where the body of height `h` starts, after the contents of all heights.
pub fn body_at(book: &[u8], h: usize) -> usize
    requires readable { Readable book.now }
    requires within { Within book.now h }
    ensures { result ≡ 576 + 16 * book_heights book.now + 864 * (h - 1) }
{
    let heights = crate::head::heights(book);
    576 + 16 * heights + 864 * (h - 1)
}

pub fn leader(book: &[u8], h: usize) -> usize
    requires readable { Readable book.now }
    requires within { Within book.now h }
    ensures { (result ≡ (height_in book.now h).leader) × (result < 256) }
{
    let from = content_at(h);
    wire::bytes::byte(book, from)
}

pub fn status(book: &[u8], h: usize) -> usize
    requires readable { Readable book.now }
    requires within { Within book.now h }
    ensures { (result ≡ (height_in book.now h).status) × (result < 256) }
{
    let from = content_at(h);
    wire::bytes::byte(book, from + 1)
}

pub fn holds_proposal(book: &[u8], h: usize) -> bool
    requires readable { Readable book.now }
    requires within { Within book.now h }
    ensures { result ≡ holds_proposal (height_in book.now h) }
{
    status(book, h) % 2 == 1
}

pub fn is_notarized(book: &[u8], h: usize) -> bool
    requires readable { Readable book.now }
    requires within { Within book.now h }
    ensures { result ≡ is_notarized (height_in book.now h) }
{
    2 <= status(book, h)
}

// Mask `k` of height `h`, of the four in its contents: 0 of its certificate, 1 of the dummy votes, 2 of the finalize
// statements, 3 of the voters. Costs two reads and no branch, since the tally asks it.
fn mask_in(book: &[u8], h: usize, k: usize) -> usize
    requires readable { Readable book.now }
    requires within { Within book.now h }
    requires k_bound { k < 4 }
    ensures { (result ≡ mask_at (height_in book.now h) k) × (result < mask_limit) }
{
    let from = content_at(h);
    wire::bytes::word(book, from + (2 + 2 * k))
}

// A mask of height `h`, by its name.
pub fn mask_at(book: &[u8], h: usize, which: MaskKind) -> usize
    requires readable { Readable book.now }
    requires within { Within book.now h }
    ensures { (result ≡ mask_at (height_in book.now h) (place_of which)) × (result < mask_limit) }
{
    mask_in(book, h, usize::from(which))
}

// The mask of the voters of height `h`. No branch goes by a name: the tally asks it.
pub fn voter_mask(book: &[u8], h: usize) -> usize
    requires readable { Readable book.now }
    requires within { Within book.now h }
    ensures { (result ≡ (height_in book.now h).voter_mask) × (result < mask_limit) }
{
    mask_in(book, h, 3)
}

// Block `k` of height `h`: 0 the held proposal's place, 1 the notarized block's, 176 bytes each.
fn block_at(book: &[u8], h: usize, k: usize) -> &[u8]
    requires readable { Readable book.now }
    requires within { Within book.now h }
    requires k_bound { k < 2 }
    ensures { result.now ≡ block_at (height_in book.now h) k }
{
    let from = body_at(book, h) + 176 * k;
    &book[from..from + 176]
}

// The held proposal's place, 176 bytes.
pub fn proposal(book: &[u8], h: usize) -> &[u8]
    requires readable { Readable book.now }
    requires within { Within book.now h }
    ensures { result.now ≡ (height_in book.now h).proposal }
{
    block_at(book, h, 0)
}

// The notarized block's place, 176 bytes.
pub fn notarized(book: &[u8], h: usize) -> &[u8]
    requires readable { Readable book.now }
    requires within { Within book.now h }
    ensures { result.now ≡ (height_in book.now h).notarized }
{
    block_at(book, h, 1)
}

// The digest that replica `s` voted for, 32 bytes.
pub fn vote_digest(book: &[u8], h: usize, s: usize) -> &[u8]
    requires readable { Readable book.now }
    requires within { Within book.now h }
    requires s_lt_maximum_replicas { s < maximum_replicas }
    ensures { result.now ≡ vote_of (height_in book.now h) s }
{
    let from = body_at(book, h) + 352 + 32 * s;
    &book[from..from + 32]
}
