// Each call on what it is lent, and what it prints: the answer, and the digests of the buffers afterwards.
use exchange_list::operands::Request;
use lines::answered::{Done, Size, answered, part};
use lines::print::{hex, text};
use std::io;
use std::io::Write;

pub(crate) fn digest(out: &mut impl Write, buffer: &[u8]) -> io::Result<()> {
    text(out, b" ")?;
    hex(out, &sha256::sha256(buffer))
}

// The name of the buffer that a call is lent besides its book.
pub(crate) fn lent<'a>(request: &Request<'a>) -> Option<&'a [u8]> {
    match request {
        Request::Move(name) | Request::Read(name) | Request::ObserverRead(name) => Some(*name),
        Request::Fetch { reply, .. } => Some(*reply),
        _ => None,
    }
}

// The call of an observer.
fn observer_answer(
    out: &mut impl Write,
    request: &Request,
    book: &mut [u8],
    buffer: &mut [u8],
) -> io::Result<()> {
    match request {
        Request::ObserverOpen {
            n,
            heights,
            weights,
        } => answered(
            out,
            observer::open::open(book, *n, *heights, weights).map(|()| Done),
        ),
        Request::ObserverDeliver(frame) => answered(out, observer::deliver::deliver(book, frame)),
        Request::ObserverMove => answered(out, observer::make_move::make_move(book)),
        Request::ObserverSize => answered(out, observer::read::size(book).map(Size)),
        Request::ObserverRead(_) => part(out, observer::read::read(book, buffer).len()),
        _ => Ok(()),
    }
}

// The call, on its book and on the buffer that it is lent besides.
fn answer(
    out: &mut impl Write,
    request: &Request,
    book: &mut [u8],
    buffer: &mut [u8],
) -> io::Result<()> {
    match request {
        Request::Open {
            n,
            own,
            heights,
            weights,
            roll,
        } => answered(
            out,
            replica::open::open(book, *n, *own, *heights, weights, roll).map(|()| Done),
        ),
        Request::Deliver(frame) => answered(out, replica::deliver::deliver(book, frame)),
        Request::Packet(frames) => answered(out, replica::packet::deliver_packet(book, frames)),
        Request::Move(_) => answered(out, replica::make_move::make_move(book, buffer)),
        Request::Signal(height) => answered(
            out,
            replica::signal::signal(book, *height).map(|()| Done),
        ),
        Request::Submit(entry) => answered(
            out,
            replica::submit::submit(book, entry).map(|()| Done),
        ),
        Request::Size => answered(out, replica::read::size(book).map(Size)),
        Request::Read(_) => part(out, replica::read::read(book, buffer).len()),
        Request::Fetch { kind, height, .. } => answered(
            out,
            replica::fetch::fetch(book, *kind, *height, buffer).map(|()| Done),
        ),
        _ => observer_answer(out, request, book, buffer),
    }
}

// The call and what stands behind it in a recorded list, but for the digest of the buffer.
pub(crate) fn made(
    out: &mut impl Write,
    request: &Request,
    book: &mut [u8],
    buffer: &mut [u8],
) -> io::Result<()> {
    text(out, b" = ")?;
    answer(out, request, book, buffer)?;
    digest(out, book)
}
