// The calls by name, and what the words behind the name must be.
ghost use Rattle.std.specs.Prelude.{◌≡◌, ◌+◌, ◌<◌, OnOk};
ghost use Rattle.exchange_list.specs.declared.operands.Misread.TheVariants.{OutOfMemory};

use crate::buffers::Buffers;
use crate::literal::{LiteralError, literal};
use crate::words::{name, number, word};
use std::alloc::{AllocError, Global};

#[derive(Clone, Copy, Debug, PartialEq, Eq)]
pub enum Call {
    Give,
    Open,
    Deliver,
    Packet,
    Move,
    Signal,
    Submit,
    Size,
    Read,
    Fetch,
    ObserverOpen,
    ObserverDeliver,
    ObserverMove,
    ObserverSize,
    ObserverRead,
}

// A call with what it is given besides its book: numbers, bytes, and the name of a buffer that is lent to it.
#[derive(Debug, Drop)]
pub enum Request<'a> {
    Give(Vec<u8>),
    Open {
        n: usize,
        own: usize,
        heights: usize,
        weights: Vec<u8>,
        roll: Vec<u8>,
    },
    Deliver(Vec<u8>),
    Packet(Vec<u8>),
    Move(&'a [u8]),
    Signal(usize),
    Submit(Vec<u8>),
    Size,
    Read(&'a [u8]),
    Fetch {
        kind: usize,
        height: usize,
        reply: &'a [u8],
    },
    ObserverOpen {
        n: usize,
        heights: usize,
        weights: Vec<u8>,
    },
    ObserverDeliver(Vec<u8>),
    ObserverMove,
    ObserverSize,
    ObserverRead(&'a [u8]),
}

// Why a line makes no call: the word of this number does not fit, counted from 1; or there is no memory for its bytes.
#[derive(Clone, Copy, Debug, PartialEq, Eq)]
pub enum Misread {
    Misfit(usize),
    OutOfMemory,
}

impl From<AllocError> for Misread {
    ghost from_gives = { λ _ error. error ≡ OutOfMemory };

    fn from(_error: AllocError) -> Misread {
        Misread::OutOfMemory
    }
}

// The call of a replica, by its name.
fn replica_call(word: &[u8]) -> Option<Call> {
    match name(word) {
        b"give" => Some(Call::Give),
        b"open" => Some(Call::Open),
        b"deliver" => Some(Call::Deliver),
        b"packet" => Some(Call::Packet),
        b"move" => Some(Call::Move),
        b"signal" => Some(Call::Signal),
        b"submit" => Some(Call::Submit),
        b"size" => Some(Call::Size),
        b"read" => Some(Call::Read),
        b"fetch" => Some(Call::Fetch),
        _ => None,
    }
}

// The call of an observer, by what stands behind `observer-`.
fn observer_call(word: &[u8]) -> Option<Call> {
    match name(word) {
        b"open" => Some(Call::ObserverOpen),
        b"deliver" => Some(Call::ObserverDeliver),
        b"move" => Some(Call::ObserverMove),
        b"size" => Some(Call::ObserverSize),
        b"read" => Some(Call::ObserverRead),
        _ => None,
    }
}

// The call of a line, by its name.
pub fn named(line: &[u8]) -> Option<Call> {
    let first = word(line, 0);
    match first.strip_prefix(b"observer-") {
        Some(rest) => observer_call(rest),
        None => replica_call(first),
    }
}

// The words of a line behind its name, read one by one.
#[derive(Drop)]
struct Operands<'a> {
    line: &'a [u8],
    read: usize,
    alloc: Global,
}

impl<'a> Operands<'a> {
    fn word(&mut self) -> &'a [u8]
        requires { self.old.read < 8 }
        ensures { self.new.read ≡ self.old.read + 1 }
    {
        self.read += 1;
        word(self.line, self.read)
    }

    // That the word read last does not fit.
    fn misfit(&self) -> Misread
        requires { self.now.read < 9 }
    {
        Misread::Misfit(self.read + 1)
    }

    fn buffer(&mut self, buffers: &Buffers) -> Result<&'a [u8], Misread>
        requires { self.old.read < 8 }
        ensures { self.new.read ≡ self.old.read + 1 }
    {
        let word = self.word();
        buffers.place(word).ok_or(self.misfit())
    }

    fn number(&mut self) -> Result<usize, Misread>
        requires { self.old.read < 8 }
        ensures { self.new.read ≡ self.old.read + 1 }
    {
        let word = self.word();
        number(word).ok_or(self.misfit())
    }

    fn bytes(&mut self) -> Result<Vec<u8>, Misread>
        requires { self.old.read < 8 }
        ensures { self.new.read ≡ self.old.read + 1 }
    {
        let word = self.word();
        match literal(self.alloc, word) {
            Ok(bytes) => Ok(bytes),
            Err(LiteralError::Malformed) => Err(self.misfit()),
            Err(LiteralError::OutOfMemory) => Err(Misread::OutOfMemory),
        }
    }

    // That there is no further word.
    fn end(&mut self) -> Result<(), Misread>
        requires { self.old.read < 8 }
    {
        if self.word().is_empty() {
            Ok(())
        } else {
            Err(self.misfit())
        }
    }
}

// What a call is given behind its book.
fn asked_for<'a>(
    call: Call,
    operands: &mut Operands<'a>,
    buffers: &Buffers,
) -> Result<Request<'a>, Misread>
    requires { operands.old.read ≡ 1 }
    ensures { OnOk result (operands.new.read < 8) }
{
    Ok(match call {
        Call::Give => Request::Give(operands.bytes()?),
        Call::Open => Request::Open {
            n: operands.number()?,
            own: operands.number()?,
            heights: operands.number()?,
            weights: operands.bytes()?,
            roll: operands.bytes()?,
        },
        Call::Deliver => Request::Deliver(operands.bytes()?),
        Call::Packet => Request::Packet(operands.bytes()?),
        Call::Move => Request::Move(operands.buffer(buffers)?),
        Call::Signal => Request::Signal(operands.number()?),
        Call::Submit => Request::Submit(operands.bytes()?),
        Call::Size => Request::Size,
        Call::Read => Request::Read(operands.buffer(buffers)?),
        Call::Fetch => Request::Fetch {
            kind: operands.number()?,
            height: operands.number()?,
            reply: operands.buffer(buffers)?,
        },
        Call::ObserverOpen => Request::ObserverOpen {
            n: operands.number()?,
            heights: operands.number()?,
            weights: operands.bytes()?,
        },
        Call::ObserverDeliver => Request::ObserverDeliver(operands.bytes()?),
        Call::ObserverMove => Request::ObserverMove,
        Call::ObserverSize => Request::ObserverSize,
        Call::ObserverRead => Request::ObserverRead(operands.buffer(buffers)?),
    })
}

// Reads a line: the name of the call's book, and the call. A name that is given has its place from then on.
pub fn read<'a>(
    alloc: Global,
    line: &'a [u8],
    buffers: &mut Buffers,
) -> Result<(&'a [u8], Request<'a>), Misread> {
    let call = named(line).ok_or(Misread::Misfit(1))?;
    if call == Call::Give {
        buffers.enter(name(word(line, 1)))?;
    }
    let mut operands = Operands {
        line,
        read: 0,
        alloc,
    };
    let book = operands.buffer(buffers)?;
    let request = asked_for(call, &mut operands, buffers)?;
    operands.end()?;
    Ok((book, request))
}
