// The kinds of certificates, by name and by the number that their frames carry.
ghost use Rattle.std.specs.Prelude.{◌≡◌, false, MatchResult};
ghost use Rattle.protocol.specs.Answer.{certificate_kind};
ghost use Rattle.protocol.specs.Frame.{is_certificate};
ghost use Rattle.answers.specs.Answers.{certificate_of};
ghost use Rattle.answers.specs.declared.refusal.Refusal.TheVariants.{Malformed};
ghost use Rattle.certificates.specs.Kind.{kind_number};

use answers::answer::Certificate;
use answers::refusal::Refusal;

// Of a block, of a height's dummy block, and of a finalization.
#[derive(Clone, Copy, Debug, PartialEq, Eq)]
pub enum CertificateKind {
    Block,
    Dummy,
    Finalize,
}

// The kind with that number, where one has it.
impl TryFrom<usize> for CertificateKind {
    type Error = Refusal;

    ghost try_from_gives = { λ number r. MatchResult r (λ kind. kind_number kind ≡ number)
        (λ refusal. (refusal ≡ Malformed) × (is_certificate number ≡ false)) };

    #[tactic(auto, unfolding(protocol::specs::Frame::is_certificate, protocol::specs::Tests::in_range))]
    fn try_from(number: usize) -> Result<Self, Refusal> {
        match number {
            5 => Ok(CertificateKind::Block),
            6 => Ok(CertificateKind::Dummy),
            7 => Ok(CertificateKind::Finalize),
            _ => Err(Refusal::Malformed),
        }
    }
}

// The kind of the certificate that a pass goes by.
impl From<Certificate> for CertificateKind {
    ghost from_gives = { λ certificate kind. kind_number kind ≡ certificate_kind (certificate_of certificate) };

    #[tactic(auto, unfolding(protocol::specs::Answer::certificate_kind))]
    fn from(certificate: Certificate) -> Self {
        match certificate {
            Certificate::Page => CertificateKind::Block,
            Certificate::Blank => CertificateKind::Dummy,
        }
    }
}
