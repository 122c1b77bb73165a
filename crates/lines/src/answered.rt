// What a call answered, in the words of an exchange list, by what prints so: `Delivered`, `Counts`, `Moved`; and a
// refusal by its number.
ghost use Rattle.std.specs.Prelude.{◌++◌, Some, codes};
ghost use Rattle.std.specs.Fmt.{decimal};

use crate::print::word;
use std::io::Write;
use std::{fmt, io};
use wire::numbered::Numbered;

// Open, Signal, Submit and Fetch, where they are not refused.
#[derive(Clone, Copy, Debug, PartialEq, Eq)]
pub struct Done;

// Register size, in bytes.
#[derive(Clone, Copy, Debug, PartialEq, Eq)]
pub struct Size(pub usize);

impl fmt::Display for Done {
    ghost output = { λ _. Some (codes "done") };

    fn fmt<W: fmt::Write>(&self, f: &mut fmt::Formatter<W>) -> fmt::Result {
        f.write_str("done")
    }
}

impl fmt::Display for Size {
    ghost output = { λ size. Some (codes "size " ++ decimal size.0) };

    fn fmt<W: fmt::Write>(&self, f: &mut fmt::Formatter<W>) -> fmt::Result {
        let bytes = self.0;
        write!(f, "size {bytes}")
    }
}

// What a call answered, or why it is refused: a refusal by name, or one of any number.
pub fn answered<T: fmt::Display + Drop, R: Numbered>(
    out: &mut impl Write,
    answer: Result<T, R>,
) -> io::Result<()> {
    match answer {
        Ok(answer) => write!(out, "{answer}"),
        Err(refusal) => word(out, b"deny", refusal.number()),
    }
}

// The length of the part that Read returned.
pub fn part(out: &mut impl Write, count: usize) -> io::Result<()> {
    word(out, b"part", count)
}
