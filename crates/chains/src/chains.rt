// The entries of a chain of any kind of book, with their repeats: counting them, and looking for one. Each walks back
// through parent heights once and computes no digest.
ghost use Rattle.std.specs.Prelude.{◌≡◌, ◌≤◌, length};
ghost use Rattle.std.specs.Iterator.{at_most};
ghost use Rattle.protocol.specs.Bytes.{holds};
ghost use Rattle.protocol.specs.View.{log_at};
ghost use Rattle.protocol.specs.State.{maximum_entries};
ghost use Rattle.book_fields.specs.Book.{view_of};
ghost use Rattle.chains.specs.Walkable.{WalkableAs};
ghost use Rattle.chains.specs.Back.{StepsBack};
ghost use Rattle.chains.specs.Entries.{first_entries};

use book_fields::kind::Kind;
use std::marker::PhantomData;

// The blocks of the chain that ends in height `at`, newest first.
#[derive(Drop)]
struct Chain<'a, K> {
    book: &'a [u8],
    at: usize,
    kind: PhantomData<K>,
}

impl<'a, K: Kind> Iterator for Chain<'a, K> {
    type Item = &'a [u8];

    ghost can_next = { λ chain. WalkableAs K.kind chain.book.now chain.at };

    ghost next_gives = { λ chain block rest. StepsBack K.kind chain.book.now chain.at block rest.book.now rest.at };

    ghost remaining = { λ chain. at_most chain.at };

    fn next(&mut self) -> Option<&'a [u8]> {
        if self.at == 0 {
            return None;
        }
        let block = K::block(self.book, self.at);
        self.at = wire::block::parent_height(block);
        Some(block)
    }
}

// The chain that ends in height `h`.
fn chain_of<K: Kind>(book: &[u8], h: usize) -> Chain<'_, K>
    ensures book { result.book.now ≡ book.now }
    ensures height { result.at ≡ h }
{
    Chain {
        book,
        at: h,
        kind: PhantomData,
    }
}

// How many entries the chain that ends in height `h` has. Reads three bytes of each of its blocks, 1,000 at most.
pub fn chain_entries<K: Kind>(book: &[u8], h: usize) -> usize
    requires { WalkableAs K.kind book.now h }
    ensures { (result ≡ length (log_at (view_of K.kind book.now) h)) × (result ≤ maximum_entries) }
{
    let mut sum = 0;
    for block in chain_of::<K>(book, h) {
        sum += wire::block::entry_count(block);
    }
    sum
}

// Whether one of the first `count` places of a block has this entry. Compares at most eight entries.
pub fn block_holds(block: &[u8], count: usize, entry: &[u8]) -> bool
    requires { (length block.now ≡ 176) × (count ≤ 8) }
    ensures { result ≡ holds entry.now (first_entries count block.now) }
{
    block[48..48 + 16 * count]
        .chunks_exact(16)
        .any(|place| wire::bytes::same_bytes(entry, place))
}

// Whether the chain that ends in height `h` has this entry. Looks at each of its blocks, 1,000 at most, newest first.
pub fn chain_holds<K: Kind>(book: &[u8], h: usize, entry: &[u8]) -> bool
    requires { WalkableAs K.kind book.now h }
    ensures { result ≡ holds entry.now (log_at (view_of K.kind book.now) h) }
{
    for block in chain_of::<K>(book, h) {
        if block_holds(block, wire::block::entry_count(block), entry) {
            return true;
        }
    }
    false
}
