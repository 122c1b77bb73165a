// Which of the moves apply to a book: one test for each, over a memory of linked heights. A test answers what it found,
// so that the step need not look for it again.
#![tactic(auto)]

ghost use Rattle.std.specs.Prelude.{◌≡◌, ◌≤◌};
ghost use Rattle.sha256.specs.Digest.{sha256 as sha};
ghost use Rattle.protocol.specs.State.{decode, book_heights};
ghost use Rattle.protocol.specs.Move.{parent_below, new_finalized, dummy_vote_applies, block_vote_applies};
ghost use Rattle.book_fields.specs.Book.{Readable, SoundBook};
ghost use Rattle.memory.specs.Memo.{Memo};
ghost use Rattle.linking.specs.Parent.{parent_option};
ghost use Rattle.applies.specs.Held.{held_extends};
ghost use Rattle.applies.specs.Found.{PassFound, ProposeFound};

use answers::answer::Certificate;
use book_fields::head::{current, flag, heights, is_running, own};
use book_fields::height::{holds_proposal, leader, proposal};
use book_fields::kind::{Replica, is_dummy};
use book_fields::names::Flag;
use linking::linking::{extends, largest_finalized, linked, parent_of};

// The best chain of the height below the current one. The memory keeps each height from a second digest.
fn chain_below(book: &[u8], known: &mut [u8]) -> Option<usize>
    requires sound_book { SoundBook sha book.now }
    requires memo_2 { Memo book.now known.old }
    ensures answer { parent_option result ≡ parent_below sha (decode book.now) }
    ensures memo { Memo book.now known.new }
{
    parent_of::<Replica>(book, current(book) - 1, known)
}

// Move 1: the timer fired, and no dummy vote was cast.
#[tactic(auto, using(crate::proofs::Rows::dummy_rows))]
pub fn dummy_vote_applies(book: &[u8]) -> bool
    requires { Readable book.now }
    ensures { result ≡ dummy_vote_applies (decode book.now) }
{
    is_running(book) && flag(book, Flag::TimerFired) && !flag(book, Flag::DummyVoted)
}

// Move 2 looks for the largest finalized height of the whole book.
#[tactic(auto, using(crate::specs::Laws::AppliesLaws::newest_is))]
pub fn new_finalized(book: &[u8], known: &mut [u8]) -> usize
    requires sound_book { SoundBook sha book.now }
    requires memo_2 { Memo book.now known.old }
    ensures answer { result ≡ new_finalized sha (decode book.now) }
    ensures within { result ≤ book_heights book.now }
    ensures memo { Memo book.now known.new }
{
    largest_finalized::<Replica>(book, heights(book), known)
}

// Move 3: by the block's certificate where the current height is linked, and by the dummy block's where that is
// notarized and a chain ends below.
#[tactic(auto, using(crate::proofs::Rows::pass_rows))]
pub fn pass_applies(book: &[u8], known: &mut [u8]) -> Option<Certificate>
    requires sound_book { SoundBook sha book.now }
    requires memo_2 { Memo book.now known.old }
    ensures answer { PassFound sha (decode book.now) result }
    ensures memo { Memo book.now known.new }
{
    if !is_running(book) {
        return None;
    }
    let c = current(book);
    if linked::<Replica>(book, c, known) {
        return Some(Certificate::Page);
    }
    if !is_dummy::<Replica>(book, c) {
        return None;
    }
    chain_below(book, known)?;
    Some(Certificate::Blank)
}

// Move 4: the replica leads the current height and has not proposed, and a chain ends below, whose last block is the
// parent.
#[tactic(auto, using(crate::proofs::Rows::propose_rows))]
pub fn propose_applies(book: &[u8], known: &mut [u8]) -> Option<usize>
    requires sound_book { SoundBook sha book.now }
    requires memo_2 { Memo book.now known.old }
    ensures answer { ProposeFound sha (decode book.now) result }
    ensures memo { Memo book.now known.new }
{
    if is_running(book) && leader(book, current(book)) == own(book) && !flag(book, Flag::Proposed) {
        chain_below(book, known)
    } else {
        None
    }
}

// Move 5: no block vote was cast, and the held proposal extends a linked height.
#[tactic(auto, using(crate::proofs::Rows::vote_rows))]
pub fn block_vote_applies(book: &[u8], known: &mut [u8]) -> bool
    requires sound_book { SoundBook sha book.now }
    requires memo_2 { Memo book.now known.old }
    ensures answer { result ≡ block_vote_applies sha (decode book.now) }
    ensures memo { Memo book.now known.new }
{
    is_running(book) && !flag(book, Flag::BlockVoted) && proposal_extends(book, known)
}

// Whether a proposal of the current height is held that extends a linked height.
#[tactic(auto, using(crate::proofs::Rows::held_rows))]
fn proposal_extends(book: &[u8], known: &mut [u8]) -> bool
    requires sound_book { SoundBook sha book.now }
    requires memo_2 { Memo book.now known.old }
    requires book_bound { (decode book.now).current ≤ book_heights book.now }
    ensures answer { result ≡ held_extends sha (decode book.now) }
    ensures memo { Memo book.now known.new }
{
    let c = current(book);
    holds_proposal(book, c) && extends::<Replica>(book, c, proposal(book, c), known)
}
