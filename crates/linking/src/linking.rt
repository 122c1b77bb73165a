// Linked heights: a recursive walk over parent heights. A lent memory keeps what is known, so that in one call each
// height is looked at once, each run of dummy blocks is counted once, and each block is digested once, however many
// others name it.
ghost use Rattle.std.specs.Prelude.{◌≡◌, ◌||◌, ◌≤◌, length, eqb};
ghost use Rattle.sha256.specs.Digest.{sha256 as sha};
ghost use Rattle.protocol.specs.Bytes.{same};
ghost use Rattle.protocol.specs.Block.{parent_digest};
ghost use Rattle.protocol.specs.State.{book_heights};
ghost use Rattle.protocol.specs.View.{digest_at, linked as is_linked, extends as doesExtend, is_finalized};
ghost use Rattle.protocol.specs.View.{largest_finalized, parent_of};
ghost use Rattle.book_fields.specs.Book.{Within, Shown, view_of};
ghost use Rattle.memory.specs.Memo.{MemoAs};
ghost use Rattle.linking.specs.Parent.{parent_option};

use book_fields::kind::Kind;

// The digest that a block on the block of height `j` names: zeros for height 0. The memory keeps it. Never inlined:
// what asks for it calls itself for each block below, and would hold on the stack what the digest needs.
#[inline(never)]
pub fn parent_digest<K: Kind>(book: &[u8], j: usize, known: &mut [u8]) -> [u8; 32]
    requires shown { Shown K.kind book.now }
    requires memo_as { MemoAs K.kind book.now known.old }
    requires j_bound { j ≤ book_heights book.now }
    ensures answer { result ≡ digest_at sha (view_of K.kind book.now) j }
    ensures memo { MemoAs K.kind book.now known.new }
{
    let mut digest = [0u8; 32];
    if j == 0 {
        return digest;
    }
    memory::remember_digest::<K>(book, j, known);
    let start = 36 * j + 4;
    wire::bytes::copy_to(&mut digest, 0, &known[start..start + 32]);
    digest
}

// Whether a block names the digest of the block of height `j`.
fn names_parent<K: Kind>(book: &[u8], block: &[u8], j: usize, known: &mut [u8]) -> bool
    requires shown { Shown K.kind book.now }
    requires memo_as { MemoAs K.kind book.now known.old }
    requires block_len { length block.now ≡ 176 }
    requires j_bound { j ≤ book_heights book.now }
    ensures answer { result ≡
        same (parent_digest block.now) (digest_at sha (view_of K.kind book.now) j) }
    ensures memo { MemoAs K.kind book.now known.new }
{
    let digest = parent_digest::<K>(book, j, known);
    wire::bytes::same_bytes(&block[16..48], &digest)
}

// Whether height `h` is linked. Each call goes to a lower height.
#[cycle(extends_linked_links_back)]
pub fn linked<K: Kind>(book: &[u8], h: usize, known: &mut [u8]) -> bool
    requires shown { Shown K.kind book.now }
    requires memo_as { MemoAs K.kind book.now known.old }
    requires h_bound { h ≤ book_heights book.now }
    ensures answer { result ≡ is_linked sha (view_of K.kind book.now) h }
    ensures memo { MemoAs K.kind book.now known.new }
{
    if h == 0 {
        return true;
    }
    let seen = known[36 * h];
    if seen == 1 {
        return true;
    }
    if seen == 2 {
        return false;
    }
    let found = links_back::<K>(book, h, known);
    if found {
        known[36 * h] = 1;
    } else {
        known[36 * h] = 2;
    }
    found
}

// Whether the notarized block of height `h` extends a linked height.
#[cycle(extends_linked_links_back)]
fn links_back<K: Kind>(book: &[u8], h: usize, known: &mut [u8]) -> bool
    requires shown { Shown K.kind book.now }
    requires memo_as { MemoAs K.kind book.now known.old }
    requires within { Within book.now h }
    ensures answer { result ≡ is_linked sha (view_of K.kind book.now) h }
    ensures memo { MemoAs K.kind book.now known.new }
{
    K::has_block(book, h) && extends::<K>(book, h, K::block(book, h), known)
}

// Whether a block extends a linked height as a block of height `h` (document 01: it stands).
#[cycle(extends_linked_links_back)]
pub fn extends<K: Kind>(book: &[u8], h: usize, block: &[u8], known: &mut [u8]) -> bool
    requires shown { Shown K.kind book.now }
    requires memo_as { MemoAs K.kind book.now known.old }
    requires within { Within book.now h }
    requires block_len { length block.now ≡ 176 }
    ensures answer { result ≡ doesExtend sha (view_of K.kind book.now) h block.now }
    ensures memo { MemoAs K.kind book.now known.new }
{
    let j = wire::block::parent_height(block);
    if j >= h {
        return false;
    }
    if !linked::<K>(book, j, known) {
        return false;
    }
    memory::dummies_after::<K>(book, j, h - 1, known) && names_parent::<K>(book, block, j, known)
}

// Whether height `h` is finalized (document 01: settled). The quorum is tested first, so that no walk is made in vain;
// where nobody has finalized it, nothing is weighed.
pub fn is_finalized<K: Kind>(book: &[u8], h: usize, known: &mut [u8]) -> bool
    requires shown { Shown K.kind book.now }
    requires memo_as { MemoAs K.kind book.now known.old }
    requires within { Within book.now h }
    ensures answer { result ≡ is_finalized sha (view_of K.kind book.now) h }
    ensures memo { MemoAs K.kind book.now known.new }
{
    let mask = K::finalize_mask(book, h);
    if mask == 0 {
        return false;
    }
    book_fields::kind::quorum::<K>(book, mask) && linked::<K>(book, h, known)
}

// Whether `g` is 0 or finalized, as the finalized height of a sound book is. A height past the last is not.
pub fn zero_or_finalized<K: Kind>(book: &[u8], g: usize, known: &mut [u8]) -> bool
    requires shown { Shown K.kind book.now }
    requires memo_as { MemoAs K.kind book.now known.old }
    ensures answer { result ≡ (eqb g 0 || is_finalized sha (view_of K.kind book.now) g) }
    ensures memo { MemoAs K.kind book.now known.new }
{
    if g == 0 {
        return true;
    }
    g <= book_fields::kind::heights::<K>(book) && is_finalized::<K>(book, g, known)
}

// The largest finalized height up to `top`, and 0 where there is none: from the top down.
pub fn largest_finalized<K: Kind>(book: &[u8], top: usize, known: &mut [u8]) -> usize
    requires shown { Shown K.kind book.now }
    requires memo_as { MemoAs K.kind book.now known.old }
    requires top_bound { top ≤ book_heights book.now }
    ensures answer { result ≡ largest_finalized sha (view_of K.kind book.now) top }
    ensures within { result ≤ top }
    ensures memo { MemoAs K.kind book.now known.new }
{
    for h in (1..=top).rev() {
        if is_finalized::<K>(book, h, known) {
            return h;
        }
    }
    0
}

// The best chain of height `top`, by its last block's height: the largest linked height with dummies after it up to
// `top`.
pub fn parent_of<K: Kind>(book: &[u8], top: usize, known: &mut [u8]) -> Option<usize>
    requires shown { Shown K.kind book.now }
    requires memo_as { MemoAs K.kind book.now known.old }
    requires top_bound { top ≤ book_heights book.now }
    ensures answer { parent_option result ≡ parent_of sha (view_of K.kind book.now) top }
    ensures memo { MemoAs K.kind book.now known.new }
{
    for h in (1..=top).rev() {
        if linked::<K>(book, h, known) {
            return Some(h);
        }
        if !book_fields::kind::is_dummy::<K>(book, h) {
            return None;
        }
    }
    Some(0)
}
