// Move: the first of the five moves that applies is made, and the call says which.
ghost use Rattle.std.specs.Prelude.{◌≡◌, ◌+◌, ◌*◌, true, ◌≤◌, length};
ghost use Rattle.sha256.specs.Digest.{sha256 as sha};
ghost use Rattle.protocol.specs.Tests.{all_of};
ghost use Rattle.protocol.specs.State.{decode, book_heights};
ghost use Rattle.protocol.specs.Move.{step as first_move, move_call};
ghost use Rattle.memory.specs.Memo.{Memo};
ghost use Rattle.answers.specs.Answers.{moved_answer};
ghost use Rattle.applies.specs.Took.{Took};
ghost use Rattle.moves.specs.Later.{later_step};
ghost use Rattle.book_fields.specs.Book.{Readable, SoundBook};
ghost use Rattle.soundness.specs.SoundRows.{book_rows};

use answers::answer::Moved;
use answers::refusal::Refusal;
use applies::{
    block_vote_applies, dummy_vote_applies, new_finalized, pass_applies, propose_applies,
};
use book_fields::kind::Replica;
use memory::{LARGE, SMALL, has_room};
use passing::pass;
use soundness::OfReplica;
use steps::{cast_block_vote, cast_dummy_vote, output, propose};

// Moves 3, 4 and 5: the first that applies, and else none.
fn later_step(book: &mut [u8], reply: &mut [u8], known: &mut [u8]) -> Moved
    requires sound_book { SoundBook sha book.old }
    requires memo { Memo book.old known.old }
    requires in_bounds { 448 ≤ length reply.old }
    ensures { Took (later_step (decode book.old))
        reply.old result book.new reply.new }
{
    if let Some(certificate) = pass_applies(book, known) {
        return pass(book, reply, certificate);
    }
    if let Some(j) = propose_applies(book, known) {
        return propose(book, reply, j, known);
    }
    if block_vote_applies(book, known) {
        return cast_block_vote(book, reply);
    }
    Moved::Idle
}

// The first move that applies, on a sound book.
fn step(book: &mut [u8], reply: &mut [u8], known: &mut [u8]) -> Moved
    requires sound_book { SoundBook sha book.old }
    requires memo { Memo book.old known.old }
    requires in_bounds { 448 ≤ length reply.old }
    ensures { Took (first_move sha (decode book.old))
        reply.old result book.new reply.new }
{
    if dummy_vote_applies(book) {
        return cast_dummy_vote(book, reply);
    }
    let g = new_finalized(book, known);
    if book_fields::head::finalized(book) < g {
        return output(book, g);
    }
    later_step(book, reply, known)
}

// The call on a book that is sound but for its finalized height, with a memory of `N` bytes that has room for its
// heights. Not put into its callers, so that a short book does not pay for the memory of a long one.
#[inline(never)]
fn move_in<const N: usize>(book: &mut [u8], reply: &mut [u8]) -> Result<Moved, Refusal>
    requires book_value { all_of (book_rows book.old) ≡ true }
    requires readable { Readable book.old }
    requires room { (36 * (book_heights book.old + 1) ≤ N) × (N ≤ 36036) }
    ensures answer { moved_answer result ≡ (move_call sha book.old reply.old).answer }
    ensures book { book.new ≡ (move_call sha book.old reply.old).book }
    ensures reply { reply.new ≡ (move_call sha book.old reply.old).reply }
{
    let mut known = [0u8; N];
    if !soundness::finalized_sound::<OfReplica>(book, &mut known) {
        return Err(Refusal::Unsound);
    }
    if reply.len() < 448 {
        return Err(Refusal::ShortReply);
    }
    Ok(step(book, reply, &mut known))
}

// Move. Refuses with 1 a book that is not sound, and with 3 a reply of less than 448 bytes; a refused call changes
// nothing.
// Costs one pass over the book, at most one digest for each height, and one for a proposal or a vote. A book of few
// heights does not pay for the memory of a longer one.
pub fn make_move(book: &mut [u8], reply: &mut [u8]) -> Result<Moved, Refusal>
    ensures answer { moved_answer result ≡ (move_call sha book.old reply.old).answer }
    ensures book { book.new ≡ (move_call sha book.old reply.old).book }
    ensures reply { reply.new ≡ (move_call sha book.old reply.old).reply }
{
    if !soundness::rows_sound::<OfReplica>(book) {
        return Err(Refusal::Unsound);
    }
    if has_room::<Replica>(book, SMALL) {
        move_in::<SMALL>(book, reply)
    } else {
        move_in::<LARGE>(book, reply)
    }
}
