// Soundness of an observer's book: one pass over its bytes, and one digest for each block of the finalized chain.
#![tactic(auto)]

ghost use Rattle.std.specs.Prelude.{◌≡◌, true, ◌&&◌, ◌≤◌, length};
ghost use Rattle.sha256.specs.Digest.{sha256 as sha};
ghost use Rattle.protocol.specs.Bytes.{is_zero};
ghost use Rattle.protocol.specs.Tests.{all_of};
ghost use Rattle.protocol.specs.State.{head_unused};
ghost use Rattle.protocol.specs.Sound.{masks_below};
ghost use Rattle.protocol.specs.Observer.{observer_state};
ghost use Rattle.protocol.specs.ObserverSound.{observer_sound, replica_head};
ghost use Rattle.book_fields.specs.Book.{Within, ObserverReadable, observed_in};
ghost use Rattle.observer_soundness.specs.ObserverRows.{head_rows, block_row, certificate_row};
ghost use Rattle.observer_soundness.specs.ObserverRows.{height_rows, book_rows, final_row};
ghost use Rattle.observer_soundness.specs.Laws.ObserverRowsLaws.{rows_by_groups, final_as, sound_by_rows};

use book_fields::head::good_number;
use book_fields::kind::Observer;
use book_fields::names::MaskKind;
use book_fields::observed::{content_at, is_notarized, mask_at};
use soundness::sound::Rows;
use wire::bytes::byte;
use wire::mask::below;

// Whether the numbers that only a replica has are zero, in a head whose unused bytes are zero: own number, flags,
// current height and pending count.
fn replica_zero(book: &[u8]) -> bool
    requires in_bounds { 64 ≤ length book.now }
    requires book_value { is_zero (head_unused book.now) ≡ true }
    ensures { result ≡ is_zero (replica_head book.now) }
{
    let own = byte(book, 1);
    let flags = byte(book, 3);
    let current = good_number(book, 4, 42);
    let pending = byte(book, 6);
    (own == 0) & ((flags == 0) & ((current == 0) & (pending == 0)))
}

// Whether the three masks of height `h` hold none but the book's replicas.
fn masks_sound(book: &[u8], h: usize) -> bool
    requires observer_readable { ObserverReadable book.now }
    requires within { Within book.now h }
    ensures { result ≡ masks_below (observer_state book.now).n (observed_in book.now h) }
{
    let n = book_fields::kind::replicas::<Observer>(book);
    let certificate = below(n, mask_at(book, h, MaskKind::Certificate));
    let dummy = below(n, mask_at(book, h, MaskKind::Dummy));
    let finalize = below(n, mask_at(book, h, MaskKind::Finalize));
    certificate & (dummy & finalize)
}

// Whether the notarized block of height `h`, if there is one, is well formed and has the certificate of a quorum.
fn block_sound(book: &[u8], h: usize) -> bool
    requires observer_readable { ObserverReadable book.now }
    requires within { Within book.now h }
    ensures { result ≡ (block_row book.now h && certificate_row book.now h) }
{
    if !is_notarized(book, h) {
        return true;
    }
    let formed = wire::block::block_well_formed(book_fields::observed::notarized(book, h), h);
    let signers = mask_at(book, h, MaskKind::Certificate);
    let certified = book_fields::kind::quorum::<Observer>(book, signers);
    formed & certified
}

// The rows of an observer's book.
#[derive(Clone, Copy, Debug, PartialEq, Eq)]
pub struct OfObserver;

impl Rows for OfObserver {
    type Book = Observer;

    ghost head = { λ book. all_of (head_rows book) };

    ghost height = { λ book h. all_of (height_rows book h) };

    ghost rows = { λ book. all_of (book_rows book) };

    ghost final_row = { final_row sha };

    ghost sound = { observer_sound sha };

    fn head_sound(book: &[u8]) -> bool {
        if book.len() < 64 {
            return false;
        }
        if !book_fields::setting::setting_sound(book) {
            return false;
        }
        let size = book.len() == 64 + 184 * good_number(book, 2, 40);
        let replica = replica_zero(book);
        size & replica
    }

    fn height_sound(book: &[u8], h: usize) -> bool {
        let masks = masks_sound(book, h);
        let held = book_fields::observed::status(book, h);
        let status = (held == 0) | (held == 2);
        let block = block_sound(book, h);
        let unused = byte(book, content_at(h) + 1) == 0;
        masks & (status & (block & unused))
    }

    ghost rows_are = { rows_by_groups };

    ghost final_is = { final_as };

    ghost sound_is = { sound_by_rows };
}
