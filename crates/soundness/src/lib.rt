// Soundness of a book: one pass over its bytes, and one digest for each block of the finalized chain.
#![tactic(auto)]

ghost use Rattle.std.specs.Prelude.{◌≡◌, true, ◌≤◌, length};
ghost use Rattle.sha256.specs.Digest.{sha256 as sha};
ghost use Rattle.protocol.specs.Bytes.{is_zero};
ghost use Rattle.protocol.specs.Tests.{all_of, implies};
ghost use Rattle.protocol.specs.Block.{block_well_formed};
ghost use Rattle.protocol.specs.State.{decode, head_unused};
ghost use Rattle.protocol.specs.Sound.{masks_below, content_zeros, sound as sound_of};
ghost use Rattle.book_fields.specs.Book.{Within, Readable, height_in};
ghost use Rattle.soundness.specs.SoundRows.{number_rows, head_rows, certificate_row, height_rows, book_rows, final_row};
ghost use Rattle.soundness.specs.Laws.SoundRowsLaws.{rows_by_groups, final_as, sound_by_rows};

pub mod sound;

use crate::sound::Rows;
pub use crate::sound::{finalized_sound, is_sound, rows_sound};
use book_fields::bounds::MAXIMUM_PENDING;
use book_fields::head::good_number;
use book_fields::height::{holds_proposal, is_notarized, mask_at, notarized, proposal};
use book_fields::kind::{Replica, quorum};
use book_fields::names::MaskKind;
use wire::bytes::{byte, is_zero};
use wire::mask::below;

// Whether the numbers that only a replica has are in their ranges, in a head whose unused bytes are zero.
fn numbers_sound(book: &[u8]) -> bool
    requires in_bounds { 576 ≤ length book.now }
    requires book_value { is_zero (head_unused book.now) ≡ true }
    ensures { result ≡ all_of (number_rows book.now) }
{
    let n = byte(book, 0);
    let own = byte(book, 1);
    let heights = good_number(book, 2, 40);
    let flags = byte(book, 3);
    let current = good_number(book, 4, 42);
    let pending = byte(book, 6);
    let place = (1 <= current) & (current <= heights + 1);
    (own < n) & (place & ((flags < 16) & (pending <= MAXIMUM_PENDING)))
}

// Whether the four masks of height `h` hold none but the book's replicas.
fn masks_sound(book: &[u8], h: usize) -> bool
    requires readable { Readable book.now }
    requires within { Within book.now h }
    ensures { result ≡ masks_below (decode book.now).n (height_in book.now h) }
{
    let n = book_fields::head::replicas(book);
    let certificate = below(n, mask_at(book, h, MaskKind::Certificate));
    let dummy = below(n, mask_at(book, h, MaskKind::Dummy));
    let finalize = below(n, mask_at(book, h, MaskKind::Finalize));
    let voters = below(n, mask_at(book, h, MaskKind::Voters));
    certificate & (dummy & (finalize & voters))
}

// Whether a block of height `h` is well formed, if it is there.
fn block_sound(there: bool, block: &[u8], h: usize) -> bool
    ensures { result ≡ implies there (block_well_formed h block.now) }
{
    !there || wire::block::block_well_formed(block, h)
}

// Whether the notarized block of height `h`, if there is one, has the certificate of a quorum.
fn certificate_sound(book: &[u8], h: usize) -> bool
    requires readable { Readable book.now }
    requires within { Within book.now h }
    ensures { result ≡ certificate_row book.now h }
{
    !is_notarized(book, h) || quorum::<Replica>(book, mask_at(book, h, MaskKind::Certificate))
}

// Whether the six bytes after the masks of height `h` are zero.
fn unused_sound(book: &[u8], h: usize) -> bool
    requires readable { Readable book.now }
    requires within { Within book.now h }
    ensures { result ≡ is_zero (content_zeros book.now h) }
{
    let from = book_fields::height::content_at(h) + 10;
    is_zero(&book[from..from + 6])
}

// The rows of a replica's book.
#[derive(Clone, Copy, Debug, PartialEq, Eq)]
pub struct OfReplica;

impl Rows for OfReplica {
    type Book = Replica;

    ghost head = { λ book. all_of (head_rows book) };

    ghost height = { λ book h. all_of (height_rows book h) };

    ghost rows = { λ book. all_of (book_rows book) };

    ghost final_row = { final_row sha };

    ghost sound = { sound_of sha };

    fn head_sound(book: &[u8]) -> bool {
        if book.len() < 576 {
            return false;
        }
        if !book_fields::setting::setting_sound(book) {
            return false;
        }
        let size = book.len() == 576 + 880 * good_number(book, 2, 40);
        let numbers = numbers_sound(book);
        size & numbers
    }

    fn height_sound(book: &[u8], h: usize) -> bool {
        let leader = book_fields::height::leader(book, h) < book_fields::head::replicas(book);
        let masks = masks_sound(book, h);
        let status = book_fields::height::status(book, h) <= 3;
        let proposal = block_sound(holds_proposal(book, h), proposal(book, h), h);
        let notarized = block_sound(is_notarized(book, h), notarized(book, h), h);
        let certificate = certificate_sound(book, h);
        let unused = unused_sound(book, h);
        leader & (masks & (status & ((proposal & notarized) & (certificate & unused))))
    }

    ghost rows_are = { rows_by_groups };

    ghost final_is = { final_as };

    ghost sound_is = { sound_by_rows };
}
