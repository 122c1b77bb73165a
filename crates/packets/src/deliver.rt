// A packet is delivered frame by frame, in order; the book is tested once.
ghost use Rattle.std.specs.Prelude.{◌≡◌, ◌+◌, ◌<◌, ◌^◌, true};
ghost use Rattle.sha256.specs.Digest.{sha256};
ghost use Rattle.protocol.specs.Sound.{sound};
ghost use Rattle.protocol.specs.Deliver.{deliver_all};
ghost use Rattle.protocol.specs.Packet.{packet_frames, counted_in, count_all, packet_call};
ghost use Rattle.answers.specs.Answers.{delivered_answer, counts_of, counted_answer};

use crate::reader::Packet;
use answers::answer::{Counts, Delivered};
use answers::refusal::Refusal;
use delivery::deliver::deliver_sound;
use soundness::OfReplica;

// One frame more, by what its delivery answered.
#[tactic(auto, unfolding(protocol::specs::Packet::counted_in))]
fn counted(counts: Counts, answer: Result<Delivered, Refusal>) -> Counts
    requires { counts.fresh + counts.known + counts.refused + 1 < 2 ^ 64 }
    ensures { counts_of result ≡ counted_in (delivered_answer answer) (counts_of counts) }
{
    match answer {
        Ok(Delivered::Fresh) => Counts {
            fresh: counts.fresh + 1,
            ..counts
        },
        Ok(Delivered::Known) => Counts {
            known: counts.known + 1,
            ..counts
        },
        Err(_) => Counts {
            refused: counts.refused + 1,
            ..counts
        },
    }
}

// Delivers each frame of a packet to a sound book, and counts what became of it. A refused frame changes nothing, and
// the next one follows.
fn deliver_frames(book: &mut [u8], packet: &[u8]) -> Counts
    requires { sound sha256 book.old ≡ true }
    ensures counts { counts_of result ≡ count_all sha256 book.old (packet_frames packet.now) }
    ensures book { book.new ≡ deliver_all sha256 book.old (packet_frames packet.now) }
{
    let frames = Packet {
        frames: packet,
        next: 0,
    };
    let mut counts = Counts {
        fresh: 0,
        known: 0,
        refused: 0,
    };
    for frame in frames {
        let answer = deliver_sound(book, frame);
        counts = counted(counts, answer);
    }
    counts
}

// Delivers a packet. Refuses with 1 a book that is not sound, and with 15 a packet whose length is not a multiple of
// 224; a refused packet changes nothing.
#[tactic(auto, using(protocol::proofs::Laws::PacketLaws::packet_unsound, protocol::proofs::Laws::PacketLaws::packet_uneven, protocol::proofs::Laws::PacketLaws::packet_delivers))]
pub fn deliver_packet(book: &mut [u8], packet: &[u8]) -> Result<Counts, Refusal>
    ensures answer { counted_answer result ≡ (packet_call sha256 book.old packet.now).answer }
    ensures book { book.new ≡ (packet_call sha256 book.old packet.now).book }
{
    if !soundness::is_sound::<OfReplica>(book) {
        return Err(Refusal::Unsound);
    }
    if packet.len() % 224 != 0 {
        return Err(Refusal::UnevenPacket);
    }
    Ok(deliver_frames(book, packet))
}
