// The steps of moves 1, 2, 4 and 5: each writes its frame to the front of the reply and what it changes to the book.
#![tactic(auto)]

ghost use Rattle.std.specs.Prelude.{◌≡◌, ◌≤◌, length};
ghost use Rattle.std.proofs.Math.Option.{some};
ghost use Rattle.sha256.specs.Digest.{sha256 as sha};
ghost use Rattle.protocol.specs.Bytes.{over_front};
ghost use Rattle.protocol.specs.State.{decode, encode, book_heights};
ghost use Rattle.protocol.specs.Move.{dummy_vote_step, output_step, propose_step, block_vote_step, new_finalized};
ghost use Rattle.protocol.specs.Move.{parent_below};
ghost use Rattle.memory.specs.Memo.{Memo};
ghost use Rattle.chains.specs.Walkable.{Walkable};
ghost use Rattle.answers.specs.Answers.{move_of};
ghost use Rattle.applies.specs.Took.{Took};
ghost use Rattle.steps.specs.Proposal.{proposal_on};
ghost use Rattle.book_fields.specs.Book.{SoundBook};

use answers::answer::Moved;
use book_fields::head::{current, own, set_flag};
use book_fields::kind::Replica;
use book_fields::names::Flag;
use frames::FrameKind;

// Move 1: casts the dummy vote. Costs 224 stores to the reply and one to the book.
pub fn cast_dummy_vote(book: &mut [u8], reply: &mut [u8]) -> Moved
    requires sound_book { SoundBook sha book.old }
    requires in_bounds { 448 ≤ length reply.old }
    ensures { Took (dummy_vote_step (decode book.old))
        reply.old result book.new reply.new }
{
    let c = current(book);
    frames::write_dummy_vote(reply, own(book), c);
    set_flag(book, Flag::DummyVoted);
    Moved::Dummy(c)
}

// Move 2: makes `g` the finalized height. It writes no frame. Costs one store.
#[tactic(auto, unfolding(protocol::specs::Move::output_step))]
pub fn output(book: &mut [u8], g: usize) -> Moved
    requires sound_book { SoundBook sha book.old }
    requires g_value { g ≡ new_finalized sha (decode book.old) }
    requires g_bound { g ≤ book_heights book.old }
    ensures answer { move_of result ≡ (output_step sha (decode book.old)).move }
    ensures book { book.new ≡ encode (output_step sha (decode book.old)).after }
{
    book_fields::head::set_finalized(book, g);
    Moved::Final(g)
}

// Writes a proposal of a block on the block of height `j`: the frame first, and the block, with its entries, in its
// place.
// Costs one digest, if the memory keeps none, and a walk of the chain for each pending entry, 32 at most.
fn write_proposal(book: &[u8], reply: &mut [u8], j: usize, known: &mut [u8])
    requires sound_book { SoundBook sha book.now }
    requires memo { Memo book.now known.old }
    requires walkable { Walkable book.now j }
    requires in_bounds { 448 ≤ length reply.old }
    ensures { reply.new ≡
        over_front (proposal_on j (decode book.now)) reply.old }
{
    let c = current(book);
    let signer = own(book);
    let digest = linking::linking::parent_digest::<Replica>(book, j, known);
    frames::write_plain(reply, FrameKind::Proposal, signer, c, 0);
    chains::entries::offer(book, c, j, &digest, &mut reply[48..224]);
}

// Move 4: proposes a block on the best chain below the current height, whose last block is that of height `j`.
pub fn propose(book: &mut [u8], reply: &mut [u8], j: usize, known: &mut [u8]) -> Moved
    requires sound_book { SoundBook sha book.old }
    requires memo { Memo book.old known.old }
    requires book_bound { (decode book.old).current ≤ book_heights book.old }
    requires book_value { parent_below sha (decode book.old) ≡ some j }
    requires in_bounds { 448 ≤ length reply.old }
    ensures { Took (propose_step sha (decode book.old))
        reply.old result book.new reply.new }
{
    let c = current(book);
    write_proposal(book, reply, j, known);
    set_flag(book, Flag::Proposed);
    Moved::Offer(c)
}

// Move 5: votes for the held proposal by its digest. Costs one digest and 224 stores.
pub fn cast_block_vote(book: &mut [u8], reply: &mut [u8]) -> Moved
    requires sound_book { SoundBook sha book.old }
    requires book_bound { (decode book.old).current ≤ book_heights book.old }
    requires in_bounds { 448 ≤ length reply.old }
    ensures { Took (block_vote_step sha (decode book.old))
        reply.old result book.new reply.new }
{
    let c = current(book);
    let signer = own(book);
    let digest = sha256::sha256(book_fields::height::proposal(book, c));
    frames::write_block_vote(reply, signer, c, &digest);
    set_flag(book, Flag::BlockVoted);
    Moved::Vote(c)
}
