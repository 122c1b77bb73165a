// The archive for programs in C: what `replica_c` offers, under the same names and with the same clauses.
// host/include/mavunilai.h declares it.
#![tactic(auto)]

ghost use Rattle.std.specs.Prelude.{◌≡◌, length};
ghost use Rattle.sha256.specs.Digest.{sha256};
ghost use Rattle.protocol.specs.Open.{long, open_call};
ghost use Rattle.protocol.specs.Deliver.{deliver_call};
ghost use Rattle.protocol.specs.Packet.{packet_call};
ghost use Rattle.protocol.specs.Move.{move_call};
ghost use Rattle.protocol.specs.Signal.{signal_call};
ghost use Rattle.protocol.specs.Submit.{submit_call};
ghost use Rattle.protocol.specs.Fetch.{fetch_call};
ghost use Rattle.protocol.specs.Read.{read_part, read_buffer, size_call};
ghost use Rattle.protocol.specs.ObserverCalls.{observer_open_call, observer_deliver_call, observer_move_call};
ghost use Rattle.protocol.specs.ObserverCalls.{observer_size_call, observer_read_part, observer_read_buffer};
ghost use Rattle.replica_c.specs.Interface.{interface_number};
ghost use Rattle.sha256_c.specs.DigestCall.{digest_number};
ghost use Rattle.sha256_c.specs.Written.{written};
ghost use Rattle.packing.specs.Packing.{packed_done, packed_delivery, packed_packet, counts_after, packed_move, packed_size};

// Open: makes a new book for replica `own` of `n`; bytes 2 s and 2 s + 1 of `weights` are the weight of replica s, the
// low byte first, and byte h - 1 of `leaders` is the leader of height h. The book's old bytes do not matter.
// Returns 0 where it is made. Refusals, the first that applies: 2, 1 (`open_call`).
#[unsafe(no_mangle)]
pub extern "C" fn mavunilai_open(
    book: &mut [u8],
    n: usize,
    own: usize,
    heights: usize,
    weights: &[u8],
    leaders: &[u8],
) -> usize
    ensures answer { result ≡ packed_done (open_call
        (long weights.now) book.old n own heights leaders.now).answer }
    ensures book { book.new ≡
        (open_call (long weights.now) book.old n own heights leaders.now).book }
{
    replica_c::mavunilai_open(book, n, own, heights, weights, leaders)
}

// Deliver: keeps what a frame says, whose signatures the caller has checked; a leader's second proposal for the current
// height fires the timer instead.
// Returns 256 where the frame was fresh, so that the book changed, and 0 where it was known. Refusals: 1, 4, 6, 5, 7,
// 9, 8, 10 (`deliver_call`).
#[unsafe(no_mangle)]
pub extern "C" fn mavunilai_deliver(book: &mut [u8], frame: &[u8]) -> usize
    ensures answer { result ≡ packed_delivery (deliver_call sha256 book.old frame.now).answer }
    ensures book { book.new ≡ (deliver_call sha256 book.old frame.now).book }
{
    replica_c::mavunilai_deliver(book, frame)
}

// Deliver of a packet: delivers each of its frames, 224 bytes each, in order; a frame that is refused changes nothing,
// and the next one follows.
// Returns 0 and writes how many frames were fresh, known and refused to `counts`, in that order. Refusals: 1, 15
// (`packet_call`); a refused packet leaves `counts` as they were.
#[unsafe(no_mangle)]
pub extern "C" fn mavunilai_packet(book: &mut [u8], packet: &[u8], counts: &mut [usize; 3]) -> usize
    ensures answer { result ≡ packed_packet (packet_call sha256 book.old packet.now).answer }
    ensures book { book.new ≡ (packet_call sha256 book.old packet.now).book }
    ensures counts { counts.new ≡
        counts_after (packet_call sha256 book.old packet.now).answer counts.old }
{
    replica_c::mavunilai_packet(book, packet, counts)
}

// Signal: sets the timer flag of the current height, which the caller names.
// Returns 0 where it is set. Refusals: 1, 6, 14 (`signal_call`).
#[unsafe(no_mangle)]
pub extern "C" fn mavunilai_signal(book: &mut [u8], height: usize) -> usize
    ensures answer { result ≡ packed_done (signal_call sha256 book.old height).answer }
    ensures book { book.new ≡ (signal_call sha256 book.old height).book }
{
    replica_c::mavunilai_signal(book, height)
}

// Submit: makes an entry of 16 bytes the last pending one, and drops pending ones that the log has.
// Returns 0 where it is pending. Refusals: 1, 4, 13, 12 (`submit_call`).
#[unsafe(no_mangle)]
pub extern "C" fn mavunilai_submit(book: &mut [u8], entry: &[u8]) -> usize
    ensures answer { result ≡ packed_done (submit_call sha256 book.old entry.now).answer }
    ensures book { book.new ≡ (submit_call sha256 book.old entry.now).book }
{
    replica_c::mavunilai_submit(book, entry)
}

// Fetch: writes a height's certificate of kind 5, 6 or 7 to the first 224 bytes of the reply.
// Returns 0 where it is written. Refusals: 1, 4, 6, 3, 11 (`fetch_call`).
#[unsafe(no_mangle)]
pub extern "C" fn mavunilai_fetch(
    book: &[u8],
    kind: usize,
    height: usize,
    reply: &mut [u8],
) -> usize
    ensures answer { result ≡
        packed_done (fetch_call sha256 book.now kind height reply.old).answer }
    ensures reply { reply.new ≡
        (fetch_call sha256 book.now kind height reply.old).reply }
{
    replica_c::mavunilai_fetch(book, kind, height, reply)
}

// Read: copies the log to the front of the buffer.
// Returns how many bytes it wrote, not a packed answer: 0 where the book is not sound, the buffer is too short or the
// log is empty (`read_part`).
#[unsafe(no_mangle)]
pub extern "C" fn mavunilai_read(book: &[u8], buffer: &mut [u8]) -> usize
    ensures length { result ≡ length (read_part sha256 book.now buffer.old) }
    ensures buffer { buffer.new ≡ read_buffer sha256 book.now buffer.old }
{
    replica_c::mavunilai_read(book, buffer)
}

// Move: makes the first move that applies, and writes its frames to the front of the reply. Returns in byte 1 the
// move's number, in bytes 2 and 3 its height, in bytes 4 and 5 the kinds of a pass's frames; 0 where it is idle
// (`packed_move`). Refusals: 1, 3 (`move_call`). Test for a refusal first: the bytes above it are 0, and 0 is idle's
// number too.
#[unsafe(no_mangle)]
pub extern "C" fn mavunilai_move(book: &mut [u8], reply: &mut [u8]) -> usize
    ensures answer { result ≡ packed_move (move_call sha256 book.old reply.old).answer }
    ensures book { book.new ≡ (move_call sha256 book.old reply.old).book }
    ensures reply { reply.new ≡ (move_call sha256 book.old reply.old).reply }
{
    replica_c::mavunilai_move(book, reply)
}

// Register size: the length of the log in bytes.
// Returns 256 times the length (`packed_size`). Refusals: 1 (`size_call`).
#[unsafe(no_mangle)]
pub extern "C" fn mavunilai_size(book: &[u8]) -> usize
    ensures { result ≡ packed_size (size_call sha256 book.now) }
{
    replica_c::mavunilai_size(book)
}

// Open of an observer: makes a new book for one who follows the log of `n` replicas and has no vote; `weights` as in
// `mavunilai_open`. The book's old bytes do not matter.
// Returns 0 where it is made. Refusals, the first that applies: 2, 1 (`observer_open_call`).
#[unsafe(no_mangle)]
pub extern "C" fn mavunilai_observer_open(
    book: &mut [u8],
    n: usize,
    heights: usize,
    weights: &[u8],
) -> usize
    ensures answer { result ≡
        packed_done (observer_open_call (long weights.now) book.old n heights).answer }
    ensures book { book.new ≡
        (observer_open_call (long weights.now) book.old n heights).book }
{
    replica_c::mavunilai_observer_open(book, n, heights, weights)
}

// Deliver to an observer: keeps what a certificate says, whose signatures the caller has checked.
// Returns 256 where it was fresh, so that the book changed, and 0 where it was known. Refusals: 1, 4, 16, 6, 5, 9, 10
// (`observer_deliver_call`).
#[unsafe(no_mangle)]
pub extern "C" fn mavunilai_observer_deliver(book: &mut [u8], frame: &[u8]) -> usize
    ensures answer { result ≡
        packed_delivery (observer_deliver_call sha256 book.old frame.now).answer }
    ensures book { book.new ≡
        (observer_deliver_call sha256 book.old frame.now).book }
{
    replica_c::mavunilai_observer_deliver(book, frame)
}

// Move of an observer: move 2 where it applies, which writes no frame. Returns in byte 1 the move's number and in bytes
// 2 and 3 the new finalized height; 0 where it is idle (`packed_move`). Refusals: 1 (`observer_move_call`).
#[unsafe(no_mangle)]
pub extern "C" fn mavunilai_observer_move(book: &mut [u8]) -> usize
    ensures answer { result ≡ packed_move (observer_move_call sha256 book.old).answer }
    ensures book { book.new ≡ (observer_move_call sha256 book.old).book }
{
    replica_c::mavunilai_observer_move(book)
}

// Register size of an observer: the length of the log in bytes.
// Returns 256 times the length (`packed_size`). Refusals: 1 (`observer_size_call`).
#[unsafe(no_mangle)]
pub extern "C" fn mavunilai_observer_size(book: &[u8]) -> usize
    ensures { result ≡ packed_size (observer_size_call sha256 book.now) }
{
    replica_c::mavunilai_observer_size(book)
}

// Read of an observer: copies the log to the front of the buffer.
// Returns how many bytes it wrote, not a packed answer: 0 where the book is not sound, the buffer is too short or the
// log is empty (`observer_read_part`).
#[unsafe(no_mangle)]
pub extern "C" fn mavunilai_observer_read(book: &[u8], buffer: &mut [u8]) -> usize
    ensures length { result ≡ length (observer_read_part sha256 book.now buffer.old) }
    ensures buffer { buffer.new ≡
        observer_read_buffer sha256 book.now buffer.old }
{
    replica_c::mavunilai_observer_read(book, buffer)
}

// Digest: writes the SHA-256 of the bytes, a page's or any others, to the first 32 bytes of `digest`.
// Returns 0 where it is written. Refusals: 3, where `digest` is shorter (`digest_number`).
#[unsafe(no_mangle)]
pub extern "C" fn mavunilai_digest(bytes: &[u8], digest: &mut [u8]) -> usize
    ensures answer { result ≡ digest_number digest.old }
    ensures digest { digest.new ≡ written bytes.now digest.old }
{
    replica_c::mavunilai_digest(bytes, digest)
}

// The number of this interface, which a program compares with its header's before it makes another call.
#[unsafe(no_mangle)]
pub extern "C" fn mavunilai_interface() -> usize
    ensures { result ≡ interface_number }
{
    replica_c::mavunilai_interface()
}
