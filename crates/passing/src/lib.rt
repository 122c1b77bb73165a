// The step that move 3 takes: a pass to the next height, by the certificate that the move's test has found.
#![tactic(auto)]

ghost use Rattle.std.specs.Prelude.{◌≡◌, not, ◌≤◌, length};
ghost use Rattle.sha256.specs.Digest.{sha256 as sha};
ghost use Rattle.protocol.specs.State.{decode, flag as is_flagged, book_heights};
ghost use Rattle.protocol.specs.Move.{pass_step, passes_by};
ghost use Rattle.answers.specs.Answers.{certificate_of};
ghost use Rattle.applies.specs.Took.{Took};
ghost use Rattle.book_fields.specs.Book.{SoundBook, Readable};

use answers::answer::{Certificate, Moved};
use book_fields::head::{current, enter, flag, own};
use book_fields::names::Flag;
use certificates::{CertificateKind, write_certificate};

// Whether the timer of the current height has not fired.
fn in_time(book: &[u8]) -> bool
    requires { Readable book.now }
    ensures { result ≡ not (is_flagged 1 (decode book.now)) }
{
    !flag(book, Flag::TimerFired)
}

// Move 3: passes to the next height, by the certificate of the current height's block or of its dummy block. It
// finalizes on either, by the timer alone: the second frame, from byte 224 on, is a finalize statement, or zero bytes.
// Costs 448 stores to the reply and two to the book.
pub fn pass(book: &mut [u8], reply: &mut [u8], by: Certificate) -> Moved
    requires sound_book { SoundBook sha book.old }
    requires book_bound { (decode book.old).current ≤ book_heights book.old }
    requires by_value { certificate_of by ≡ passes_by sha (decode book.old) }
    requires in_bounds { 448 ≤ length reply.old }
    ensures { Took (pass_step sha (decode book.old))
        reply.old result book.new reply.new }
{
    let c = current(book);
    let finalizes = in_time(book);
    write_certificate(book, CertificateKind::from(by), c, reply);
    if finalizes {
        frames::write_finalize(&mut reply[224..], own(book), c);
    } else {
        wire::bytes::clear(reply, 224, 224);
    }
    enter(book, c + 1);
    Moved::Pass(c, by, finalizes)
}
