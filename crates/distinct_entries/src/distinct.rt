// The distinct entries of a chain of any kind of book. The chain's blocks are gone through once, oldest first, with a
// filter that says of most entries at once that none before equals them; for the others one looks back.
ghost use Rattle.std.specs.Prelude.{◌≡◌, ◌+◌, ◌*◌, ◌<◌, ◌≤◌, length, leb};
ghost use Rattle.protocol.specs.Bytes.{Bytes, part, join, holds, over_front, put};
ghost use Rattle.protocol.specs.Distinct.{distinct};
ghost use Rattle.protocol.specs.State.{maximum_entries};
ghost use Rattle.protocol.specs.View.{log_at, log_of};
ghost use Rattle.book_fields.specs.Book.{view_of};
ghost use Rattle.chains.specs.Walkable.{WalkableAs};
ghost use Rattle.filter.specs.Filter.{Marked};
ghost use Rattle.distinct_entries.specs.Taking.{Inside, entry_of, up_to, Taken, Told, part_read};

use book_fields::kind::Kind;
use filter::{LARGE, SMALL};

// Whether the entry at place `k` of the block of height `h` equals one before it in the chain. Looks into the block
// first, then walks back through those below.
fn stands_before<K: Kind>(book: &[u8], h: usize, k: usize) -> bool
    requires { Inside K.kind book.now h k }
    ensures { result ≡
        holds (entry_of (view_of K.kind book.now) h k) (up_to (view_of K.kind book.now) h k) }
{
    let block = K::block(book, h);
    let from = 48 + 16 * k;
    let entry = &block[from..from + 16];
    chains::chains::block_holds(block, k, entry)
        || chains::chains::chain_holds::<K>(book, wire::block::parent_height(block), entry)
}

// The same, where the filter knows those before it: it answers for most, and then knows this one too.
fn is_repeat<K: Kind>(book: &[u8], h: usize, k: usize, filter: &mut [u8]) -> bool
    requires inside { Inside K.kind book.now h k }
    requires marked_2 { Marked filter.old (up_to (view_of K.kind book.now) h k) }
    ensures answer { result ≡
        holds (entry_of (view_of K.kind book.now) h k) (up_to (view_of K.kind book.now) h k) }
    ensures marked { Marked filter.new (up_to (view_of K.kind book.now) h (k + 1)) }
{
    let block = K::block(book, h);
    let from = 48 + 16 * k;
    filter::mark(filter, &block[from..from + 16]) && stands_before::<K>(book, h, k)
}

// Puts the entry at place `k` of a block behind the `count` entries at the front of the buffer, where there is room.
fn put_entry(block: &[u8], k: usize, count: usize, buffer: &mut [u8])
    requires { (length block.now ≡ 176) × (k < 8) × (count ≤ maximum_entries) }
    ensures size { length buffer.new ≡ length buffer.old }
    ensures put { 16 * (count + 1) ≤ length buffer.old → buffer.new ≡
        put buffer.old (16 * count) (part block.now (48 + 16 * k) 16) }
{
    if 16 * count + 16 <= buffer.len() {
        let from = 48 + 16 * k;
        wire::bytes::copy_to(buffer, 16 * count, &block[from..from + 16]);
    }
}

// Goes through the entries of the block of height `h`, after those of the chain below, of which `count` were distinct.
// Puts each that is no repeat behind those in the buffer, where there is room, and says how many there are then. Never
// inlined: what calls it calls itself for each block below, and would hold on the stack what this needs.
#[inline(never)]
fn take_block<K: Kind>(
    book: &[u8],
    h: usize,
    count: usize,
    filter: &mut [u8],
    buffer: &mut [u8],
) -> usize
    requires walkable_as { WalkableAs K.kind book.now h × (0 < h) }
    requires marked { Marked filter.old (up_to (view_of K.kind book.now) h 0) }
    requires count_value { count ≡ length (distinct (up_to (view_of K.kind book.now) h 0)) }
    ensures { (before : Bytes) →
        Taken (up_to (view_of K.kind book.now) h 0) before filter.old buffer.old count →
        Taken (log_at (view_of K.kind book.now) h) before filter.new buffer.new result }
{
    let block = K::block(book, h);
    let mut taken = count;
    for k in 0..wire::block::entry_count(block) {
        if is_repeat::<K>(book, h, k, filter) {
            continue;
        }
        put_entry(block, k, taken, buffer);
        taken += 1;
    }
    taken
}

// Goes through the entries of the chain that ends in height `h`, oldest first, and puts those that are no repeats to
// the front of the buffer, where there is room. Says how many they are. Each call goes to a lower height.
fn take_chain<K: Kind>(book: &[u8], h: usize, filter: &mut [u8], buffer: &mut [u8]) -> usize
    requires walkable_as { WalkableAs K.kind book.now h }
    requires in_bounds { 32 < length filter.old }
    ensures { Taken (log_at (view_of K.kind book.now) h) buffer.old filter.new
        buffer.new result }
{
    if h == 0 {
        return 0;
    }
    let block = K::block(book, h);
    let parent = wire::block::parent_height(block);
    let count = take_chain::<K>(book, parent, filter, buffer);
    take_block::<K>(book, h, count, filter, buffer)
}

// The same with a filter of its own of `N` bytes, which has 64 places for each entry that the chain can have. Its key
// is the parent digest of the chain's newest block: it was not known to those who chose the entries of the blocks
// below, and costs no digest. Never inlined, so that a chain that a small filter serves pays for no large one.
#[inline(never)]
fn take_in<K: Kind, const N: usize>(book: &[u8], h: usize, buffer: &mut [u8]) -> usize
    requires walkable_as { WalkableAs K.kind book.now h × (0 < h) }
    requires places { (32 + 64 * h ≤ N) × (N ≤ LARGE) }
    ensures { Told (log_at (view_of K.kind book.now) h) buffer.old buffer.new result }
{
    let block = K::block(book, h);
    let mut filter = [0u8; N];
    wire::bytes::copy_to(&mut filter, 0, &block[16..48]);
    take_chain::<K>(book, h, &mut filter, buffer)
}

// The same with a filter of a size that goes by the height. Goes through the chain once, and looks back where the
// filter says perhaps, once an entry at most.
fn take_distinct<K: Kind>(book: &[u8], h: usize, buffer: &mut [u8]) -> usize
    requires { WalkableAs K.kind book.now h × (0 < h) }
    ensures { Told (log_at (view_of K.kind book.now) h) buffer.old buffer.new result }
{
    if 32 + 64 * h <= SMALL {
        take_in::<K, SMALL>(book, h, buffer)
    } else {
        take_in::<K, LARGE>(book, h, buffer)
    }
}

// How many distinct entries the chain that ends in height `h` has.
pub fn count_distinct<K: Kind>(book: &[u8], h: usize) -> usize
    requires { WalkableAs K.kind book.now h }
    ensures { (result ≡ length (log_of (view_of K.kind book.now) h)) × (result ≤ maximum_entries) }
{
    if h == 0 {
        return 0;
    }
    let mut no_room = [0u8; 1];
    take_distinct::<K>(book, h, &mut no_room)
}

// Whether the distinct entries of the chain that ends in height `h` fit into `room` bytes. Counts them only where all
// the chain's entries would not fit.
fn fits_into<K: Kind>(book: &[u8], h: usize, room: usize) -> bool
    requires { WalkableAs K.kind book.now h }
    ensures { result ≡ leb (16 * length (log_of (view_of K.kind book.now) h)) room }
{
    let all = chains::chains::chain_entries::<K>(book, h);
    16 * all <= room || 16 * count_distinct::<K>(book, h) <= room
}

// Copies the distinct entries of the chain that ends in height `h` to the front of the buffer, where they fit, and says
// how many they are.
fn copy_distinct<K: Kind>(book: &[u8], h: usize, buffer: &mut [u8]) -> usize
    requires walkable_as { WalkableAs K.kind book.now h }
    requires h_in_bounds { 16 * length (log_of (view_of K.kind book.now) h) ≤ length buffer.old }
    ensures count { (result ≡ length (log_of (view_of K.kind book.now) h)) × (result ≤ maximum_entries) }
    ensures buffer { buffer.new ≡
        over_front (join (log_of (view_of K.kind book.now) h)) buffer.old }
{
    if h == 0 {
        return 0;
    }
    take_distinct::<K>(book, h, buffer)
}

// Copies the distinct entries of the chain that ends in height `h` to the front of the buffer, or nothing where they do
// not fit, and says how many bytes it wrote. Goes through the chain up to three times: for all its entries' number, then
// for that of the distinct ones where all would not fit, and to copy them.
pub fn read_distinct<K: Kind>(book: &[u8], h: usize, buffer: &mut [u8]) -> usize
    requires { WalkableAs K.kind book.now h }
    ensures length { result ≡ length (part_read (view_of K.kind book.now) h buffer.old) }
    ensures buffer { buffer.new ≡
        over_front (part_read (view_of K.kind book.now) h buffer.old) buffer.old }
{
    if fits_into::<K>(book, h, buffer.len()) {
        16 * copy_distinct::<K>(book, h, buffer)
    } else {
        0
    }
}
