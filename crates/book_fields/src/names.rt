// What the flags and the masks of a book are called, and where each lies.
ghost use Rattle.std.specs.Prelude.{◌≡◌};
ghost use Rattle.book_fields.specs.Numbered.{bit_of, place_of};

use wire::numbered::Numbered;

// The flags of the current height.
#[derive(Clone, Copy, Debug, PartialEq, Eq)]
pub enum Flag {
    TimerFired,
    DummyVoted,
    BlockVoted,
    Proposed,
}

// The bit of a flag in the byte that holds all four.
impl From<Flag> for usize {
    ghost from_gives = { λ which bit. bit ≡ bit_of which };

    fn from(which: Flag) -> usize {
        match which {
            Flag::TimerFired => 1,
            Flag::DummyVoted => 2,
            Flag::BlockVoted => 4,
            Flag::Proposed => 8,
        }
    }
}

impl Numbered for Flag {
    ghost number = { bit_of };

    fn number(self) -> usize {
        usize::from(self)
    }
}

// The masks of a height: of its certificate's signers, of the dummy votes, of the finalize statements, of the voters.
// An observer's book has no voters.
#[derive(Clone, Copy, Debug, PartialEq, Eq)]
pub enum MaskKind {
    Certificate,
    Dummy,
    Finalize,
    Voters,
}

// The place of a mask among those of its height.
impl From<MaskKind> for usize {
    ghost from_gives = { λ which place. place ≡ place_of which };

    fn from(which: MaskKind) -> usize {
        match which {
            MaskKind::Certificate => 0,
            MaskKind::Dummy => 1,
            MaskKind::Finalize => 2,
            MaskKind::Voters => 3,
        }
    }
}
