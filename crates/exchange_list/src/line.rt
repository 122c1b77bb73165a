// Whether a line makes a call, the part of it that says which, and what is printed of one that does not fit.
use lines::print::text;
use std::io;
use std::io::Write;

// Whether a line makes no call: it is empty, a remark or the heading.
pub fn is_remark(line: &[u8]) -> bool {
    matches!(line, [] | [b'#', ..] | b"mavunilai exchange 2")
}

// Whether a line is the heading of lists before books had weights.
pub fn is_unweighed(line: &[u8]) -> bool {
    matches!(line, b"mavunilai exchange 1")
}

// The line up to what it expects, which stands behind ` =`.
pub fn call_text(line: &[u8]) -> &[u8] {
    match line.iter().position(|letter| *letter == b'=') {
        Some(sign) => &line[..sign.saturating_sub(1)],
        None => line,
    }
}

// What is printed behind that heading: what has changed since.
pub fn unweighed(out: &mut impl Write) -> io::Result<()> {
    text(
        out,
        b"\nlists say `mavunilai exchange 2` now: `open` has the weights before the roll, ",
    )?;
    text(out, b"and `observer-open` at its end, two bytes a station")
}

// Names a line and the word in it that does not fit.
pub fn misfit(out: &mut impl Write, line: usize, word: usize) -> io::Result<()> {
    write!(out, "\nline {line}, word {word}: it does not fit here")
}
