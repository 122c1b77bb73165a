// Digests of known messages, a line each: the message's name or its number of bytes, and the digest.
// The file stdout beside src/ has the digests that sha256sum gives: tests/sha256-expected wrote it.
#![tactic(auto)]

use lines::print::{hex, number, text};
use std::io;
use std::io::Write;

// The rest of a line: a space, the digest of the message in hexadecimal, and the line's end.
fn end_line(out: &mut impl Write, message: &[u8]) -> io::Result<()> {
    text(out, b" ")?;
    hex(out, &sha256::sha256(message))?;
    text(out, b"\n")
}

fn named(out: &mut impl Write, name: &[u8], message: &[u8]) -> io::Result<()> {
    text(out, name)?;
    end_line(out, message)
}

// Messages that end before, at and behind each place where the padding changes: the first so many of the bytes.
fn lengths(out: &mut impl Write, bytes: &[u8; 1000]) -> io::Result<()> {
    for size in [0, 1, 55, 56, 63, 64, 65, 119, 120, 127, 128, 176, 1000] {
        number(out, size)?;
        end_line(out, &bytes[..size])?;
    }
    Ok(())
}

// Byte i is i modulo 251.
fn pattern() -> [u8; 1000] {
    let mut bytes = [0; 1000];
    for (i, byte) in bytes.iter_mut().enumerate() {
        *byte = (i % 251) as u8;
    }
    bytes
}

// A million letters, without a heap.
fn million() -> [u8; 1_000_000] {
    [b'a'; 1_000_000]
}

fn main(rt: HostRuntime) -> io::Result<()> {
    let mut out = rt.stdout();
    named(&mut out, b"abc", b"abc")?;
    named(
        &mut out,
        b"448bits",
        b"abcdbcdecdefdefgefghfghighijhijkijkljklmklmnlmnomnopnopq",
    )?;
    named(
        &mut out,
        b"896bits",
        b"abcdefghbcdefghicdefghijdefghijkefghijklfghijklmghijklmnhijklmnoijklmnopjklmnopqklmnopqrlmnopqrsmnopqrstnopqrstu",
    )?;
    lengths(&mut out, &pattern())?;
    named(&mut out, b"million", &million())
}
