// Read, and the buffer around the part that it returns: the program lends the middle of an array of dots, prints the
// part, and, once it is done with the part, looks at the whole array. It reads a register that fits, one that is too
// long for what is lent, and a book that is not sound.
#![tactic(auto)]

ghost use Rattle.std.specs.Prelude.{◌≤◌};

use answers::refusal::Refusal;
use lines::print::text;
use std::io;
use std::io::Write;

type Book = [u8; 1456];

// One more move of a book's replica, which is then delivered what it wrote: zero bytes are refused.
fn move_on(book: &mut Book) -> Result<(), Refusal> {
    let mut reply = [0; 448];
    replica::make_move::make_move(book, &mut reply)?;
    for frame in reply.chunks(224) {
        let _ = replica::deliver::deliver(book, frame);
    }
    Ok(())
}

// A replica alone, of one height, after its proposal, vote, pass and output: the register has one entry,
// the byte 1 and "swap plots 1,14".
fn settled() -> Result<Book, Refusal> {
    let mut book = [0; 1456];
    replica::open::open(&mut book, 1, 0, 1, &[1, 0], &[0])?;
    replica::submit::submit(&mut book, b"\x01swap plots 1,14")?;
    for _ in 0..4 {
        move_on(&mut book)?;
    }
    Ok(book)
}

// Reads into `size` bytes from byte 4 of an array of 28 dots; prints the part's length, the part, and then the array.
fn reading(out: &mut impl Write, what: &str, book: &Book, size: usize) -> io::Result<()>
    requires { size ≤ 24 }
{
    let mut array = [b'.'; 28];
    let part = replica::read::read(book, &mut array[4..4 + size]);
    write!(out, "{what}: part of {} \"", part.len())?;
    text(out, part)?;
    text(out, b"\", array \"")?;
    text(out, &array)?;
    text(out, b"\"\n")
}

fn main(rt: HostRuntime) -> io::Result<()> {
    let mut out = rt.stdout();
    let mut book = match settled() {
        Ok(book) => book,
        Err(refusal) => return writeln!(out, "{refusal}"),
    };
    reading(&mut out, "24 bytes", &book, 24)?;
    reading(&mut out, "16 bytes", &book, 16)?;
    reading(&mut out, "15 bytes", &book, 15)?;
    // An edition that there is none of: the book is not sound.
    book[7] = 255;
    reading(&mut out, "not sound", &book, 24)
}
