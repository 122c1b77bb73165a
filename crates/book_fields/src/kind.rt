// The kinds of books, and what the view of a book shows, read where it lies. What walks over heights asks these readers
// alone, so that a kind with other places is one more impl here.
ghost use Rattle.std.specs.Prelude.{◌≡◌, ◌<◌, ◌≤◌, length};
ghost use Rattle.protocol.specs.View.{quorum as is_quorum, is_dummy};
ghost use Rattle.protocol.specs.Mask.{mask_limit};
ghost use Rattle.protocol.specs.Block.{maximum_heights};
ghost use Rattle.protocol.specs.State.{book_heights, maximum_replicas};
ghost use Rattle.book_fields.specs.Kinds.{BookKind, ReplicaBook, ObserverBook};
ghost use Rattle.book_fields.specs.Book.{Within, Shown, state_of, view_of};

use crate::names::MaskKind;

// Readers that each kind of book has in its own places, each of which says what the view of the book shows.
pub trait Kind {
    ghost kind: { BookKind };

    // Whether a block is notarized at height `h`.
    fn has_block(book: &[u8], h: usize) -> bool
        requires shown { Shown kind book.now }
        requires within { Within book.now h }
        ensures { result ≡ (view_of kind book.now).has_block h };

    // The place of the notarized block of height `h`, 176 bytes.
    fn block(book: &[u8], h: usize) -> &[u8]
        requires shown { Shown kind book.now }
        requires within { Within book.now h }
        ensures block { result.now ≡ (view_of kind book.now).block h }
        ensures whole { length result.now ≡ 176 };

    fn dummy_mask(book: &[u8], h: usize) -> usize
        requires shown { Shown kind book.now }
        requires within { Within book.now h }
        ensures { (result ≡ (view_of kind book.now).dummy_mask h) × (result < mask_limit) };

    fn finalize_mask(book: &[u8], h: usize) -> usize
        requires shown { Shown kind book.now }
        requires within { Within book.now h }
        ensures { (result ≡ (view_of kind book.now).finalize_mask h) × (result < mask_limit) };
}

// A replica's book.
#[derive(Clone, Copy, Debug, PartialEq, Eq)]
pub struct Replica;

impl Kind for Replica {
    ghost kind = { ReplicaBook };

    #[tactic(auto, unfolding(protocol::specs::Sound::view))]
    fn has_block(book: &[u8], h: usize) -> bool {
        crate::height::is_notarized(book, h)
    }

    #[tactic(auto, unfolding(protocol::specs::Sound::view))]
    fn block(book: &[u8], h: usize) -> &[u8] {
        crate::height::notarized(book, h)
    }

    #[tactic(auto, unfolding(protocol::specs::Sound::view))]
    fn dummy_mask(book: &[u8], h: usize) -> usize {
        crate::height::mask_at(book, h, MaskKind::Dummy)
    }

    #[tactic(auto, unfolding(protocol::specs::Sound::view))]
    fn finalize_mask(book: &[u8], h: usize) -> usize {
        crate::height::mask_at(book, h, MaskKind::Finalize)
    }
}

// An observer's book.
#[derive(Clone, Copy, Debug, PartialEq, Eq)]
pub struct Observer;

impl Kind for Observer {
    ghost kind = { ObserverBook };

    #[tactic(auto, unfolding(protocol::specs::Sound::view))]
    fn has_block(book: &[u8], h: usize) -> bool {
        crate::observed::is_notarized(book, h)
    }

    #[tactic(auto, unfolding(protocol::specs::Sound::view))]
    fn block(book: &[u8], h: usize) -> &[u8] {
        crate::observed::notarized(book, h)
    }

    #[tactic(auto, unfolding(protocol::specs::Sound::view))]
    fn dummy_mask(book: &[u8], h: usize) -> usize {
        crate::observed::mask_at(book, h, MaskKind::Dummy)
    }

    #[tactic(auto, unfolding(protocol::specs::Sound::view))]
    fn finalize_mask(book: &[u8], h: usize) -> usize {
        crate::observed::mask_at(book, h, MaskKind::Finalize)
    }
}

// The number of replicas: the heads of all kinds are alike.
pub fn replicas<K: Kind>(book: &[u8]) -> usize
    requires { Shown K.kind book.now }
    ensures { (result ≡ (view_of K.kind book.now).n) × (result ≤ maximum_replicas) }
{
    wire::bytes::byte(book, 0)
}

// The number of heights.
pub fn heights<K: Kind>(book: &[u8]) -> usize
    requires { Shown K.kind book.now }
    ensures { (result ≡ book_heights book.now) × (result ≤ maximum_heights) }
{
    crate::head::good_number(book, 2, 40)
}

// The finalized height.
pub fn finalized<K: Kind>(book: &[u8]) -> usize
    requires { Shown K.kind book.now }
    ensures { (result ≡ (state_of K.kind book.now).finalized) × (result < 65792) }
{
    crate::head::good_number(book, 5, 44)
}

// Whether a mask holds two thirds of the weight of the book's replicas. No branch goes by its bits: the tally asks it.
pub fn quorum<K: Kind>(book: &[u8], mask: usize) -> bool
    requires shown { Shown K.kind book.now }
    requires mask_lt_mask_limit { mask < mask_limit }
    ensures { result ≡ is_quorum (view_of K.kind book.now) mask }
{
    let weight = crate::weighing::weigh::<K>(book, mask);
    2 * weight.all <= 3 * weight.held
}

// Whether the dummy block of height `h` is notarized. Where nobody has voted for it, nothing is weighed.
pub fn is_dummy<K: Kind>(book: &[u8], h: usize) -> bool
    requires shown { Shown K.kind book.now }
    requires within { Within book.now h }
    ensures { result ≡ is_dummy (view_of K.kind book.now) h }
{
    let mask = K::dummy_mask(book, h);
    mask != 0 && quorum::<K>(book, mask)
}
