// What a call remembers of a book while it walks it, so that it looks at each height, counts each mask and computes
// each digest once. A memory has 36 bytes a height: whether it is linked, whether its digest is known, where its run of
// dummies starts (two bytes), and the digest.
#![tactic(auto)]

ghost use Rattle.std.specs.Prelude.{◌≡◌, ◌+◌, ◌*◌, ◌-◌, ◌≤◌, leb};
ghost use Rattle.sha256.specs.Digest.{sha256 as sha};
ghost use Rattle.protocol.specs.Bytes.{part};
ghost use Rattle.protocol.specs.State.{book_heights};
ghost use Rattle.protocol.specs.View.{dummy_run};
ghost use Rattle.book_fields.specs.Book.{Within, Shown, view_of};
ghost use Rattle.memory.specs.Memo.{MemoAs, run_start};

use book_fields::kind::Kind;

// The size of a memory of a book of up to 63 heights.
pub const SMALL: usize = 2304;

// The size of a memory of a book of up to 1,000 heights. Clearing it costs more than a whole call on a short book.
pub const LARGE: usize = 36036;

// Whether a memory of `size` bytes has room for the heights of a book.
pub fn has_room<K: Kind>(book: &[u8], size: usize) -> bool
    requires { Shown K.kind book.now }
    ensures { result ≡ leb (36 * (book_heights book.now + 1)) size }
{
    36 * (book_fields::kind::heights::<K>(book) + 1) <= size
}

// Remembers the digest of the notarized block of height `j`. Costs one digest the first time, and one read after that.
pub fn remember_digest<K: Kind>(book: &[u8], j: usize, known: &mut [u8])
    requires shown { Shown K.kind book.now }
    requires memo_as { MemoAs K.kind book.now known.old }
    requires within { Within book.now j }
    ensures digest { part known.new (36 * j + 4) 32 ≡
        sha ((view_of K.kind book.now).block j) }
    ensures memo { MemoAs K.kind book.now known.new }
{
    let seen = known[36 * j + 1];
    if seen == 1 {
        return;
    }
    let digest = sha256::sha256(K::block(book, j));
    wire::bytes::copy_to(known, 36 * j + 4, &digest);
    known[36 * j + 1] = 1;
}

// The height below the run of dummy blocks that ends at height `h`: `h` itself where its dummy block is not notarized.
// Each call goes to a lower height.
fn run_start<K: Kind>(book: &[u8], h: usize, known: &mut [u8]) -> usize
    requires shown { Shown K.kind book.now }
    requires memo_as { MemoAs K.kind book.now known.old }
    requires h_bound { h ≤ book_heights book.now }
    ensures answer { result ≡ run_start (view_of K.kind book.now) h }
    ensures within { result ≤ h }
    ensures memo { MemoAs K.kind book.now known.new }
{
    if h == 0 {
        return 0;
    }
    let seen = wire::bytes::word(known, 36 * h + 2);
    if 0 < seen {
        return seen - 1;
    }
    if book_fields::kind::is_dummy::<K>(book, h) {
        let start = run_start::<K>(book, h - 1, known);
        wire::bytes::put_word(known, 36 * h + 2, start + 1);
        start
    } else {
        wire::bytes::put_word(known, 36 * h + 2, h + 1);
        h
    }
}

// Whether the dummy blocks of the heights after `j` up to `top` are notarized. Where there are none, nothing is
// counted.
pub fn dummies_after<K: Kind>(book: &[u8], j: usize, top: usize, known: &mut [u8]) -> bool
    requires shown { Shown K.kind book.now }
    requires memo_as { MemoAs K.kind book.now known.old }
    requires j_le_top { (j ≤ top) × (top ≤ book_heights book.now) }
    ensures answer { result ≡ dummy_run (view_of K.kind book.now) j (top - j) }
    ensures memo { MemoAs K.kind book.now known.new }
{
    if j == top {
        return true;
    }
    run_start::<K>(book, top, known) <= j
}
