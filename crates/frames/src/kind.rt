// The seven kinds of frames, by name and by the number that a frame carries.
ghost use Rattle.std.specs.Prelude.{◌≡◌, ◌≤◌};
ghost use Rattle.protocol.specs.Frame.{is_statement, is_certificate};
ghost use Rattle.frames.specs.Kind.{number_of};

use wire::numbered::Numbered;

// Statements of one replica, and then the certificates of many, in the order of their numbers from 1 up.
#[derive(Clone, Copy, Debug, PartialEq, Eq)]
pub enum FrameKind {
    Proposal,
    BlockVote,
    DummyVote,
    Finalize,
    BlockCertificate,
    DummyCertificate,
    FinalizeCertificate,
}

impl From<FrameKind> for usize {
    ghost from_gives = { λ kind number. (number ≡ number_of kind) × (number ≤ 7) };

    fn from(kind: FrameKind) -> usize {
        match kind {
            FrameKind::Proposal => 1,
            FrameKind::BlockVote => 2,
            FrameKind::DummyVote => 3,
            FrameKind::Finalize => 4,
            FrameKind::BlockCertificate => 5,
            FrameKind::DummyCertificate => 6,
            FrameKind::FinalizeCertificate => 7,
        }
    }
}

impl Numbered for FrameKind {
    ghost number = { number_of };

    fn number(self) -> usize {
        usize::from(self)
    }
}

#[tactic(auto, unfolding(protocol::specs::Frame::is_statement, protocol::specs::Frame::is_certificate, protocol::specs::Tests::in_range))]
impl FrameKind {
    // Whether a frame of this kind is one replica's statement.
    pub(crate) fn is_statement(self) -> bool
        ensures { result ≡ is_statement (number_of self) }
    {
        matches!(
            self,
            Self::Proposal | Self::BlockVote | Self::DummyVote | Self::Finalize
        )
    }

    // Whether a frame of this kind is a certificate.
    pub(crate) fn is_certificate(self) -> bool
        ensures { result ≡ is_certificate (number_of self) }
    {
        !self.is_statement()
    }
}
