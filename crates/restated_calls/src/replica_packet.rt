// Written by tests/restated --write: what docs/statements has of
// crates/replica/src/packet.rt.
ghost use Rattle.std.specs.Prelude.{◌≡◌};
ghost use package.Rattle.sha256.specs.Digest.{sha256};
ghost use package.Rattle.protocol.specs.Packet.{packet_call};
ghost use package.Rattle.answers.specs.Answers.{counted_answer};

use answers::answer::Counts;
use answers::refusal::Refusal;

// Delivers each frame of a packet in order, and counts the fresh, known and refused ones; a refused packet changes
// nothing. Reads the book once to see that it is sound.
pub fn deliver_packet(book: &mut [u8], packet: &[u8]) -> Result<Counts, Refusal>
    ensures answer { counted_answer result ≡ (packet_call sha256 book.old packet.now).answer }
    ensures book { book.new ≡ (packet_call sha256 book.old packet.now).book }
{
    replica::packet::deliver_packet(book, packet)
}
