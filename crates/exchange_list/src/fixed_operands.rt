// What the words behind a call's name must be, and how many bytes the call is lent, where the buffers' memory is lent.
ghost use Rattle.std.specs.Prelude.{◌≤◌, length};

use crate::fixed_buffers::{enter, place, size_at};
use crate::fixed_literal::literal;
use crate::operands::{Call, named};
use crate::words::{number, word};

// What a word behind the name must be.
#[derive(Clone, Copy)]
enum Kind {
    Buffer,
    Number,
    Bytes,
}

// What the words behind the name must be. What a call is lent besides its book is the last word; Open is lent the bytes
// of the word before it too.
fn shape(call: Call) -> &'static [Kind]
    ensures { length result.now ≤ 6 }
{
    match call {
        Call::Open => &[
            Kind::Buffer,
            Kind::Number,
            Kind::Number,
            Kind::Number,
            Kind::Bytes,
            Kind::Bytes,
        ],
        Call::Give | Call::Deliver | Call::Packet | Call::Submit | Call::ObserverDeliver => {
            &[Kind::Buffer, Kind::Bytes]
        }
        Call::Move | Call::Read | Call::ObserverRead => &[Kind::Buffer, Kind::Buffer],
        Call::Signal => &[Kind::Buffer, Kind::Number],
        Call::Size | Call::ObserverMove | Call::ObserverSize => &[Kind::Buffer],
        Call::Fetch => &[Kind::Buffer, Kind::Number, Kind::Number, Kind::Buffer],
        Call::ObserverOpen => &[Kind::Buffer, Kind::Number, Kind::Number, Kind::Bytes],
    }
}

// The word whose buffer holds what was lent from then on, or 0: that of a gift is the book.
pub fn kept(line: &[u8]) -> usize
    ensures { result ≤ 4 }
{
    match named(line) {
        Some(Call::Give) => 1,
        Some(Call::Move | Call::Read | Call::ObserverRead) => 2,
        Some(Call::Fetch) => 4,
        _ => 0,
    }
}

// What one word adds to what is lent: how many bytes, those of a literal at the front of `out`; or `usize::MAX` where
// the word is not what it must be.
fn operand(kind: Kind, word: &[u8], table: &[usize; 32], out: &mut [u8]) -> usize {
    match kind {
        Kind::Buffer => size_at(table, place(table, word)),
        Kind::Number => number(word).map_or(usize::MAX, |_number| 0),
        Kind::Bytes => literal(word, out),
    }
}

// What the words of a line come to: how many bytes its call is lent besides the book, or the number of the first word
// that does not fit, counted from 1.
#[derive(Clone, Copy)]
pub enum Operands {
    Fit(usize),
    Wrong(usize),
}

// Reads the words of a line, and puts the bytes of its last literal at the front of `out`.
fn read_words(line: &[u8], table: &[usize; 32], out: &mut [u8]) -> Operands {
    let Some(call) = named(line) else {
        return Operands::Wrong(1);
    };
    let kinds = shape(call);
    let mut size = 0;
    for (k, kind) in kinds.iter().enumerate() {
        size = operand(*kind, word(line, k + 1), table, out);
        if out.len() < size {
            return Operands::Wrong(k + 2);
        }
    }
    if word(line, kinds.len() + 1).is_empty() {
        Operands::Fit(size)
    } else {
        Operands::Wrong(kinds.len() + 2)
    }
}

// The same, once a name that is given has its place.
pub fn read(line: &[u8], table: &mut [usize; 32], out: &mut [u8]) -> Operands {
    if kept(line) == 1 {
        enter(table, word(line, 1));
    }
    read_words(line, table, out)
}
