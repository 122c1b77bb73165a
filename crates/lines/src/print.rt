// Words, numbers and bytes to a writer. Where it fails, its error is passed on, and nothing more is written.
use std::io;
use std::io::Write;

pub fn text(out: &mut impl Write, words: &[u8]) -> io::Result<()> {
    out.write_all(words)
}

// A number in decimal digits.
pub fn number(out: &mut impl Write, n: usize) -> io::Result<()> {
    write!(out, "{n}")
}

// A word, a space and a number.
pub fn word(out: &mut impl Write, name: &[u8], n: usize) -> io::Result<()> {
    text(out, name)?;
    text(out, b" ")?;
    number(out, n)
}

// Bytes, two hexadecimal digits each.
pub fn hex(out: &mut impl Write, bytes: &[u8]) -> io::Result<()> {
    for byte in bytes {
        write!(out, "{byte:02x}")?;
    }
    Ok(())
}
