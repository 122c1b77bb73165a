// What the calls answer where they are not refused. Open, Signal, Submit and Fetch say no more than that they are done,
// and Register size says how many bytes.
ghost use Rattle.std.specs.Prelude.{◌≡◌};
ghost use Rattle.protocol.specs.Answer.{certificate_kind};
ghost use Rattle.answers.specs.Answers.{certificate_of};

use std::fmt;

// Deliver: whether the book changed.
#[derive(Clone, Copy, Debug, PartialEq, Eq)]
pub enum Delivered {
    Fresh,
    Known,
}

// Deliver of a packet: how many frames were fresh, known and refused.
#[derive(Clone, Copy, Debug, PartialEq, Eq)]
pub struct Counts {
    pub fresh: usize,
    pub known: usize,
    pub refused: usize,
}

// The certificate that a pass goes by.
#[derive(Clone, Copy, Debug, PartialEq, Eq)]
pub enum Certificate {
    Page,
    Blank,
}

// Move, with the height (of `Final`: the new settled height). A pass also says its certificate and whether it
// finalised.
#[derive(Clone, Copy, Debug, PartialEq, Eq)]
pub enum Moved {
    Idle,
    Dummy(usize),
    Final(usize),
    Pass(usize, Certificate, bool),
    Offer(usize),
    Vote(usize),
}

// The kind of the certificate's frame.
impl From<Certificate> for usize {
    ghost from_gives = { λ certificate kind. kind ≡ certificate_kind (certificate_of certificate) };

    fn from(certificate: Certificate) -> usize {
        match certificate {
            Certificate::Page => 5,
            Certificate::Blank => 6,
        }
    }
}

// In the words of an exchange list, as what follows.
impl fmt::Display for Delivered {
    fn fmt<W: fmt::Write>(&self, f: &mut fmt::Formatter<W>) -> fmt::Result {
        f.write_str(match self {
            Delivered::Fresh => "fresh",
            Delivered::Known => "known",
        })
    }
}

impl fmt::Display for Counts {
    fn fmt<W: fmt::Write>(&self, f: &mut fmt::Formatter<W>) -> fmt::Result {
        write!(f, "counts {} {} {}", self.fresh, self.known, self.refused)
    }
}

// A pass has its height, the kind of its certificate, and 4 if it finalised.
impl fmt::Display for Moved {
    fn fmt<W: fmt::Write>(&self, f: &mut fmt::Formatter<W>) -> fmt::Result {
        match self {
            Moved::Idle => f.write_str("idle"),
            Moved::Dummy(h) => write!(f, "dummy {h}"),
            Moved::Final(g) => write!(f, "final {g}"),
            Moved::Pass(h, certificate, finalised) => {
                let kind = usize::from(*certificate);
                let finalize = if *finalised { 4 } else { 0 };
                write!(f, "pass {h} {kind} {finalize}")
            }
            Moved::Offer(h) => write!(f, "offer {h}"),
            Moved::Vote(h) => write!(f, "vote {h}"),
        }
    }
}
