// Whether a frame carries what is kept.
ghost use Rattle.std.specs.Prelude.{◌≡◌};
ghost use Rattle.protocol.specs.Bytes.{same};
ghost use Rattle.protocol.specs.Tests.{implies};

use wire::bytes::same_bytes;

// Whether what a frame carries is what is kept, where that is to be asked.
#[tactic(auto, unfolding(protocol::specs::Tests::implies))]
pub fn agrees(asked: bool, kept: &[u8], carried: &[u8]) -> bool
    ensures { result ≡ implies asked (same kept.now carried.now) }
{
    !asked || same_bytes(kept, carried)
}
