// The lines of the rehearsal: what a delivery answered.
use answers::answer::Delivered;
use answers::refusal::Refusal;
use std::io;
use std::io::Write;

// What a delivery answered, with the frame's kind, height and signer. (A frame that is taken has 224 bytes.)
pub fn delivered(
    out: &mut impl Write,
    answer: Result<Delivered, Refusal>,
    frame: &[u8; 224],
) -> io::Result<()> {
    let [kind, signer, height, ..] = frame;
    match answer {
        Ok(Delivered::Fresh) => writeln!(out, "take {kind} {height} {signer}"),
        Ok(Delivered::Known) => writeln!(out, "same {kind} {height} {signer}"),
        Err(refusal) => writeln!(out, "{refusal}"),
    }
}
