// An answer as one number, for programs in C. Its lowest byte is the refusal's number, 0 where the call is not refused;
// specs/Packing says what stands above, and specs/Unpacking what the header's functions read out of it again.
// A refusal is whatever has a number of the documents: one of `answers::refusal::Refusal`, or the number itself.
#![tactic(auto)]

ghost use Rattle.std.specs.Prelude.{◌≡◌, ◌+◌, ◌*◌, ◌<◌, ◌≤◌};
ghost use Rattle.protocol.specs.Answer.{done, finalize_kind};
ghost use Rattle.protocol.specs.Block.{maximum_heights};
ghost use Rattle.answers.specs.Answers.{answer_with, delivery_of, counts_of, move_of};
ghost use Rattle.packing.specs.Packing.{packed_done, packed_delivery, packed_packet, counts_after, packed_move};
ghost use Rattle.packing.specs.Packing.{packed_size, answered_height, answered_size};

use answers::answer::{Counts, Delivered, Moved};
use wire::numbered::Numbered;

// The number for an answer that says no more than done or refused.
pub fn done_number<R: Numbered>(answer: Result<(), R>) -> usize
    ensures { result ≡ packed_done (answer_with R.number (λ _. done) answer) }
{
    answer.map_or_else(R::number, |()| 0)
}

// The number for the answer of Deliver.
pub fn delivered_number<R: Numbered>(answer: Result<Delivered, R>) -> usize
    ensures { result ≡ packed_delivery (answer_with R.number delivery_of answer) }
{
    match answer {
        Ok(Delivered::Fresh) => 256,
        Ok(Delivered::Known) => 0,
        Err(refusal) => refusal.number(),
    }
}

// The number for the answer of a packet.
pub fn counted_number<R: Numbered>(answer: Result<Counts, R>) -> usize
    ensures { result ≡ packed_packet (answer_with R.number counts_of answer) }
{
    answer.map_or_else(R::number, |_counts| 0)
}

// Writes the counts of a packet's frames, unless it is refused.
pub fn write_counts<R: Numbered>(answer: Result<Counts, R>, counts: &mut [usize; 3])
    ensures { counts.new ≡ counts_after (answer_with R.number counts_of answer) counts.old }
{
    if let Ok(
        Counts {
            fresh,
            known,
            refused,
        },
    ) = answer
    {
        *counts = [fresh, known, refused];
    }
}

// The kind of a pass's second frame, and 0 where the pass finalises nothing.
#[tactic(auto, unfolding(protocol::specs::Answer::finalize_kind))]
fn finalized_number(finalised: bool) -> usize
    ensures { (result ≡ finalize_kind finalised) × (result < 8) }
{
    if finalised { 4 } else { 0 }
}

// A move's place in document 01's list, its height and the kinds of a pass's frames, each at its place in the answer.
fn move_number(number: usize, height: usize, kinds: usize) -> usize
    requires { (number < 8) × (height ≤ maximum_heights) × (kinds < 65536) }
    ensures { result ≡ 256 * number + 65536 * height + 4294967296 * kinds }
{
    256 * number + 65536 * height + 4294967296 * kinds
}

// The number for the answer of Move. No answer of Move names a height above 1,000 (`PackingLaws.move-height-low`), so
// the sum fits.
#[tactic(auto, unfolding(protocol::specs::Answer::certificate_kind, protocol::specs::Answer::move_height, protocol::specs::Answer::move_number))]
pub fn moved_number<R: Numbered>(answer: Result<Moved, R>) -> usize
    requires { answered_height (answer_with R.number move_of answer) ≤ maximum_heights }
    ensures { result ≡ packed_move (answer_with R.number move_of answer) }
{
    match answer {
        Ok(Moved::Idle) => 0,
        Ok(Moved::Dummy(h)) => move_number(1, h, 0),
        Ok(Moved::Final(g)) => move_number(2, g, 0),
        Ok(Moved::Pass(h, certificate, finalised)) => {
            let kinds = usize::from(certificate) + 256 * finalized_number(finalised);
            move_number(3, h, kinds)
        }
        Ok(Moved::Offer(h)) => move_number(4, h, 0),
        Ok(Moved::Vote(h)) => move_number(5, h, 0),
        Err(refusal) => refusal.number(),
    }
}

// The number for the answer of Register size, which is at most 128,000 (`PackingLaws.size_low`), so the product fits.
pub fn size_number<R: Numbered>(answer: Result<usize, R>) -> usize
    requires { answered_size (answer_with R.number (λ size. size) answer) ≤ 128000 }
    ensures { result ≡ packed_size (answer_with R.number (λ size. size) answer) }
{
    answer.map_or_else(
        R::number,
        |size: usize| -> usize
            requires { size ≤ 128000 }
            ensures { result ≡ 256 * size }
        { 256 * size },
    )
}
