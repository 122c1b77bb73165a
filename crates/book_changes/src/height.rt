// Changes of one height, in place: each is two or three writes that together make the changed state's bytes.
ghost use Rattle.std.specs.Prelude.{◌≡◌, ◌+◌, ◌^◌, ◌<◌, ◌≤◌, length, set};
ghost use Rattle.protocol.specs.Bytes.{le16, put};
ghost use Rattle.protocol.specs.State.{maximum_replicas};
ghost use Rattle.protocol.specs.Deliver.{with_proposal, with_notarized, with_vote};
ghost use Rattle.protocol.specs.Mask.{mask_limit};
ghost use Rattle.book_fields.specs.Book.{Ready, Within, height_in, changed};
ghost use Rattle.book_fields.specs.Numbered.{place_of, with_mask_at};

use book_fields::height::{body_at, content_at, mask_at, status};
use book_fields::names::MaskKind;
use wire::bytes::{copy_to, put_word};
use wire::mask::bit;

// Keeps a block as the held proposal of height `h`.
pub fn set_proposal(book: &mut [u8], h: usize, block: &[u8])
    requires ready { Ready book.old }
    requires within { Within book.old h }
    requires h_bound { (height_in book.old h).status ≤ 3 }
    requires block_len { length block.now ≡ 176 }
    ensures { book.new ≡ changed book.old h (λ x. with_proposal x block.now) }
{
    let content = content_at(h);
    let body = body_at(book, h);
    let held = status(book, h);
    book[content + 1] = (held + 1) as u8;
    copy_to(book, body, block);
}

// Writes the status of a height whose block is now notarized, and the mask of its certificate.
fn mark_notarized(book: &mut [u8], content: usize, held: usize, mask: usize)
    requires content_in_bounds { content + 16 ≤ length book.old }
    requires held_bound { held ≤ 3 }
    requires mask_lt_mask_limit { mask < mask_limit }
    ensures { book.new ≡
        put (set book.old (content + 1) (held + 2)) (content + 2) (le16 mask) }
{
    book[content + 1] = (held + 2) as u8;
    put_word(book, content + 2, mask);
}

// Keeps a block as the notarized block of height `h`, with the mask of its certificate.
pub fn set_notarized(book: &mut [u8], h: usize, mask: usize, block: &[u8])
    requires ready { Ready book.old }
    requires within { Within book.old h }
    requires h_bound { (height_in book.old h).status ≤ 3 }
    requires block_len { length block.now ≡ 176 }
    requires mask_lt_mask_limit { mask < mask_limit }
    ensures { book.new ≡
        changed book.old h (λ x. with_notarized x mask block.now) }
{
    let content = content_at(h);
    let body = body_at(book, h);
    let held = status(book, h);
    copy_to(book, body + 176, block);
    mark_notarized(book, content, held, mask);
}

// Keeps the held proposal of height `h` as its notarized block, with the mask of its certificate.
pub fn notarize_held(book: &mut [u8], h: usize, mask: usize)
    requires ready { Ready book.old }
    requires within { Within book.old h }
    requires h_bound { (height_in book.old h).status ≤ 3 }
    requires mask_lt_mask_limit { mask < mask_limit }
    ensures { book.new ≡ changed book.old h (λ x. with_notarized x mask x.proposal) }
{
    let content = content_at(h);
    let body = body_at(book, h);
    let held = status(book, h);
    let (front, back) = book.split_at_mut(body + 176);
    copy_to(back, 0, &front[body..]);
    mark_notarized(book, content, held, mask);
}

// Sets a mask of height `h`, that of the dummy votes or that of the finalize statements.
pub fn set_mask(book: &mut [u8], h: usize, which: MaskKind, mask: usize)
    requires ready { Ready book.old }
    requires within { Within book.old h }
    requires le_k { (1 ≤ place_of which) × (place_of which ≤ 2) }
    requires mask_lt_mask_limit { mask < mask_limit }
    ensures { book.new ≡ changed book.old h (λ x. with_mask_at x (place_of which) mask) }
{
    let content = content_at(h);
    put_word(book, content + (2 + 2 * usize::from(which)), mask);
}

// Keeps the digest that replica `s` voted for, which had no vote yet.
pub fn set_vote(book: &mut [u8], h: usize, s: usize, digest: &[u8])
    requires ready { Ready book.old }
    requires within { Within book.old h }
    requires s_lt_maximum_replicas { s < maximum_replicas }
    requires s_bound { (height_in book.old h).voter_mask + 2 ^ s < mask_limit }
    requires digest_len { length digest.now ≡ 32 }
    ensures { book.new ≡ changed book.old h (λ x. with_vote x s digest.now) }
{
    let content = content_at(h);
    let body = body_at(book, h);
    let mask = mask_at(book, h, MaskKind::Voters);
    put_word(book, content + 8, mask + bit(s));
    copy_to(book, body + (352 + 32 * s), digest);
}
