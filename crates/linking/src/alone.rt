// Whether a height is finalized, for a call that asks for nothing else: the memory is made here, and only where there
// is a height to ask for.
ghost use Rattle.std.specs.Prelude.{◌≡◌, ◌+◌, ◌*◌, ◌≤◌, ◌||◌, eqb};
ghost use Rattle.sha256.specs.Digest.{sha256 as sha};
ghost use Rattle.protocol.specs.State.{book_heights};
ghost use Rattle.protocol.specs.View.{is_finalized};
ghost use Rattle.book_fields.specs.Book.{Shown, view_of};

use crate::linking::zero_or_finalized;
use book_fields::kind::Kind;
use memory::{LARGE, SMALL, has_room};

// Asks with a memory of its own, which has room for the book's heights. Kept out of its callers, whose frames would
// have to hold that memory too.
#[inline(never)]
fn finalized_in<K: Kind, const N: usize>(book: &[u8], g: usize) -> bool
    requires shown { Shown K.kind book.now }
    requires room { 36 * (book_heights book.now + 1) ≤ N }
    requires size { N ≤ 36036 }
    ensures { result ≡ (eqb g 0 || is_finalized sha (view_of K.kind book.now) g) }
{
    let mut known = [0u8; N];
    zero_or_finalized::<K>(book, g, &mut known)
}

// Whether `g` is 0 or finalized.
pub fn finalized_alone<K: Kind>(book: &[u8], g: usize) -> bool
    requires { Shown K.kind book.now }
    ensures { result ≡ (eqb g 0 || is_finalized sha (view_of K.kind book.now) g) }
{
    if g == 0 {
        return true;
    }
    if has_room::<K>(book, SMALL) {
        finalized_in::<K, SMALL>(book, g)
    } else {
        finalized_in::<K, LARGE>(book, g)
    }
}
