// The weighing of a mask of replicas. No branch goes by its bits.
ghost use Rattle.std.specs.Prelude.{◌≡◌, cond, ◌*◌, ◌<◌, ◌≤◌, eqb, get_or, take};
ghost use Rattle.protocol.specs.Bytes.{byte_at};
ghost use Rattle.protocol.specs.Mask.{in_mask, ones, total, weigh as weighed};
ghost use Rattle.protocol.specs.View.{total_weight, mask_weight};
ghost use Rattle.protocol.specs.State.{maximum_replicas};
ghost use Rattle.book_fields.specs.Book.{Shown, view_of};

use crate::kind::Kind;

// The weight of all replicas, and of those that a mask holds.
#[derive(Clone, Copy, Debug, PartialEq, Eq)]
pub struct Weighing {
    pub all: usize,
    pub held: usize,
}

// The weight of replica `s`: two bytes of the head; edition 1 has them zero, and each replica weighs 1.
fn weight<K: Kind>(book: &[u8], s: usize) -> usize
    requires shown { Shown K.kind book.now }
    requires s_bound { s < (view_of K.kind book.now).n }
    ensures { (result ≡ get_or (view_of K.kind book.now).weights s 0) × (result ≤ 65536) }
{
    let even = (wire::bytes::byte(book, 7) == 1) as usize;
    wire::bytes::word(book, 8 + 2 * s) + even
}

// A weight, if replica `s` is in a mask, and 0 if not.
fn weight_in(weight: usize, mask: usize, s: usize) -> usize
    requires { (weight ≤ 65536) × (s < maximum_replicas) }
    ensures { (result ≡ cond (in_mask mask s) weight 0) × (result ≤ weight) }
{
    weight * wire::mask::one_if_in(mask, s)
}

// Weighs a mask over the first `some` replicas: one pass over them.
fn weigh_first<K: Kind>(book: &[u8], mask: usize, some: usize) -> Weighing
    requires shown { Shown K.kind book.now }
    requires some_bound { some ≤ (view_of K.kind book.now).n }
    ensures all { result.all ≡ total (take some (view_of K.kind book.now).weights) }
    ensures held { result.held ≡
        weighed (λ t. in_mask mask t) (take some (view_of K.kind book.now).weights) }
    ensures small { (result.held ≤ result.all) × (result.all ≤ 65536 * some) }
{
    let mut all = 0;
    let mut held = 0;
    for s in 0..some {
        let weight = weight::<K>(book, s);
        all += weight;
        held += weight_in(weight, mask, s);
    }
    Weighing { all, held }
}

// How many of the replicas below `n` are in a mask: one pass over its bits.
fn count(n: usize, mask: usize) -> usize
    requires { n ≤ maximum_replicas }
    ensures { (result ≡ ones mask n) × (result ≤ n) }
{
    let mut rest = mask;
    let mut sum = 0;
    for s in 0..n {
        sum += rest % 2;
        rest /= 2;
    }
    sum
}

// How many replicas weigh 1 by the edition: all of a book of edition 1, and none of any other.
fn unweighed<K: Kind>(book: &[u8]) -> usize
    requires { Shown K.kind book.now }
    ensures many { result ≡ cond (eqb (byte_at book.now 7) 1) (byte_at book.now 0) 0 }
    ensures few { result ≤ byte_at book.now 0 }
{
    let n = crate::kind::replicas::<K>(book);
    let first = (wire::bytes::byte(book, 7) == 1) as usize;
    n * first
}

// Weighs a mask. Replicas that weigh 1 by the edition are counted, which takes fewer steps; the others are weighed.
pub fn weigh<K: Kind>(book: &[u8], mask: usize) -> Weighing
    requires { Shown K.kind book.now }
    ensures all { result.all ≡ total_weight (view_of K.kind book.now) }
    ensures held { result.held ≡ mask_weight (view_of K.kind book.now) mask }
    ensures small { (result.held ≤ result.all) × (result.all ≤ 1048592) }
{
    let n = crate::kind::replicas::<K>(book);
    let counted = unweighed::<K>(book);
    let given = weigh_first::<K>(book, mask, n - counted);
    let held = count(counted, mask) + given.held;
    let all = counted + given.all;
    Weighing { all, held }
}
