// A held proposal with a quorum of kept votes becomes the notarized block of its height.
ghost use Rattle.std.specs.Prelude.{◌≡◌, ◌&&◌, not};
ghost use Rattle.sha256.specs.Digest.{sha256 as sha};
ghost use Rattle.protocol.specs.State.{holds_proposal, is_notarized};
ghost use Rattle.protocol.specs.Deliver.{notarize as notarized};
ghost use Rattle.frame_refusals.specs.Given.{Spot};
ghost use Rattle.book_fields.specs.Book.{height_in, book_view, changed};

use book_changes::height::notarize_held;
use book_fields::height::{holds_proposal, is_notarized, proposal};
use book_fields::kind::{Replica, quorum};
use tally::voters_for;

// Whether height `h` holds a proposal and has no notarized block yet.
fn awaits_votes(book: &[u8], h: usize) -> bool
    requires { Spot book.now h }
    ensures { result ≡
        (not (is_notarized (height_in book.now h)) && holds_proposal (height_in book.now h)) }
{
    !is_notarized(book, h) && holds_proposal(book, h)
}

// Notarizes the held proposal of height `h`, whose digest this is, if it awaits votes and has a quorum of them.
#[tactic(auto, using(crate::specs::Laws::KeepLaws::same_book, crate::specs::Laws::NotarizeLaws::awaits_none, crate::specs::Laws::NotarizeLaws::notarizes, crate::specs::Laws::NotarizeLaws::too_few_lem))]
pub fn notarize_with(book: &mut [u8], h: usize, digest: &[u8])
    requires spot { Spot book.old h }
    requires digest_value { digest.now ≡ sha (height_in book.old h).proposal }
    ensures { book.new ≡ changed book.old h (notarized sha (book_view book.old)) }
{
    if !awaits_votes(book, h) {
        return;
    }
    let voters = voters_for(book, h, digest);
    if quorum::<Replica>(book, voters) {
        notarize_held(book, h, voters);
    }
}

// The same for a proposal that the book holds already: its digest is taken where it lies, and only if it awaits votes.
#[tactic(auto, using(crate::specs::Laws::KeepLaws::same_book, crate::specs::Laws::NotarizeLaws::awaits_none))]
pub fn notarize(book: &mut [u8], h: usize)
    requires { Spot book.old h }
    ensures { book.new ≡ changed book.old h (notarized sha (book_view book.old)) }
{
    if awaits_votes(book, h) {
        let digest = sha256::sha256(proposal(book, h));
        notarize_with(book, h, &digest);
    }
}
