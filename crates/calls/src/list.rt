// A list, line by line.
use crate::made::{digest, lent, made};
use exchange_list::buffers::Buffers;
use exchange_list::line::{call_text, is_remark, is_unweighed, misfit, unweighed};
use exchange_list::operands::{Misread, Request, read};
use lines::print::text;
use std::alloc::{AllocError, Global};
use std::io;
use std::io::Write;

// Who plays a list: where what comes of it is printed, and the buffers as the lines before left them.
#[derive(Drop)]
pub(crate) struct Player<W: Write + Drop> {
    out: W,
    buffers: Buffers,
    alloc: Global,
}

impl<W: Write + Drop> Player<W> {
    pub(crate) fn new(out: W, alloc: Global) -> Result<Player<W>, AllocError> {
        let buffers = Buffers::new(alloc)?;
        Ok(Player {
            out,
            buffers,
            alloc,
        })
    }

    // Makes a call on its book, and on a copy of the buffer that it is lent besides, which holds the copy afterwards.
    fn make(&mut self, book: &[u8], request: Request) -> io::Result<()> {
        let request = match request {
            Request::Give(bytes) => {
                self.buffers.keep(book, bytes);
                return Ok(());
            }
            request => request,
        };
        let Some(name) = lent(&request) else {
            return made(&mut self.out, &request, self.buffers.buffer(book), &mut []);
        };
        let mut bytes = self.buffers.load(name)?;
        made(
            &mut self.out,
            &request,
            self.buffers.buffer(book),
            &mut bytes,
        )?;
        digest(&mut self.out, &bytes)?;
        self.buffers.keep(name, bytes);
        Ok(())
    }

    // Prints a line, makes its call, and prints what comes of it.
    fn play_line(&mut self, line: &[u8], number: usize) -> io::Result<()> {
        if is_remark(line) {
            return text(&mut self.out, line);
        }
        if is_unweighed(line) {
            text(&mut self.out, line)?;
            return unweighed(&mut self.out);
        }
        let call = call_text(line);
        text(&mut self.out, call)?;
        match read(self.alloc, call, &mut self.buffers) {
            Ok((book, request)) => self.make(book, request),
            Err(Misread::Misfit(word)) => misfit(&mut self.out, number, word),
            Err(Misread::OutOfMemory) => Err(io::ErrorKind::OutOfMemory.into()),
        }
    }

    // Plays the whole list. (A line's end at its end begins no further line.)
    pub(crate) fn play(&mut self, list: &[u8]) -> io::Result<()> {
        if list.is_empty() {
            return Ok(());
        }
        let lines = list.strip_suffix(b"\n").unwrap_or(list);
        for (at, line) in lines.split(|letter| *letter == b'\n').enumerate() {
            self.play_line(line, at + 1)?;
            text(&mut self.out, b"\n")?;
        }
        Ok(())
    }

    // Says that the list was longer than there is room for it.
    pub(crate) fn cut(&mut self) -> io::Result<()> {
        text(
            &mut self.out,
            b"the list has 1048576 bytes or more, and was read no further\n",
        )
    }
}
