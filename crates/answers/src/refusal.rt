// Why a call is refused, by name and by the documents' number.
ghost use Rattle.std.specs.Prelude.{◌≡◌};
ghost use Rattle.answers.specs.Refusal.{number_of};

use std::error::Error;
use std::fmt;
use wire::numbered::Numbered;

// The refusals of documents 01 and 02, in the order of their numbers, from 1 up.
#[derive(Clone, Copy, Debug, PartialEq, Eq)]
pub enum Refusal {
    // The bytes are no sound book; at Open, their length does not fit the number of heights.
    Unsound,
    // n, own number, number of heights, a weight or a leader is out of range.
    OutOfRange,
    // The reply is too short.
    ShortReply,
    // A frame, an entry or a kind to fetch does not have the required form.
    Malformed,
    // A signer or a bit of the mask is none of the replicas.
    NoSuchSigner,
    // The height is 0 or above the last one.
    NoSuchHeight,
    // The proposer does not lead the height.
    NotLeader,
    // Another vote of this signer is kept, or another proposal at a height that is not the current one.
    OtherKept,
    // The certificate's mask is no quorum.
    NoQuorum,
    // Another block is notarized at this height.
    OtherNotarized,
    // The book has no such certificate.
    NoCertificate,
    // All places for pending entries are taken.
    PendingFull,
    // The entry is pending or in the log.
    EntryKnown,
    // The signal is not for the current height, or its timer fired before.
    NotDue,
    // The length of a packet is not that of whole frames.
    UnevenPacket,
    // The frame is no certificate, and an observer takes no other.
    NotACertificate,
}

impl From<Refusal> for usize {
    ghost from_gives = { λ refusal number. number ≡ number_of refusal };

    fn from(refusal: Refusal) -> usize {
        match refusal {
            Refusal::Unsound => 1,
            Refusal::OutOfRange => 2,
            Refusal::ShortReply => 3,
            Refusal::Malformed => 4,
            Refusal::NoSuchSigner => 5,
            Refusal::NoSuchHeight => 6,
            Refusal::NotLeader => 7,
            Refusal::OtherKept => 8,
            Refusal::NoQuorum => 9,
            Refusal::OtherNotarized => 10,
            Refusal::NoCertificate => 11,
            Refusal::PendingFull => 12,
            Refusal::EntryKnown => 13,
            Refusal::NotDue => 14,
            Refusal::UnevenPacket => 15,
            Refusal::NotACertificate => 16,
        }
    }
}

impl Numbered for Refusal {
    ghost number = { number_of };

    fn number(self) -> usize {
        usize::from(self)
    }
}

// The words of an exchange list: `deny` and the number.
impl fmt::Display for Refusal {
    fn fmt<W: fmt::Write>(&self, f: &mut fmt::Formatter<W>) -> fmt::Result {
        let number = usize::from(*self);
        write!(f, "deny {number}")
    }
}

impl Error for Refusal {}
