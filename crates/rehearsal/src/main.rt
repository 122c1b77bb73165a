// The rehearsal of document 01: one replica of four stations that weigh 1 each, number 2, with three heights led by 0,
// 1 and 2. It reads frames from standard input, delivers each (a short last one too), and then moves until idle; its
// own frames are not fed back.
#![tactic(auto)]

mod printed;

use answers::answer::Moved;
use lines::input::read_full;
use std::io;
use std::io::{Read, Write};

// Moves until idle and prints a line for each move. A season of three heights has no more than six moves in a row.
fn move_until_idle(out: &mut impl Write, book: &mut [u8], reply: &mut [u8]) -> io::Result<()> {
    for _ in 0..1000 {
        match replica::make_move::make_move(book, reply) {
            Ok(Moved::Idle) | Err(_) => break,
            Ok(moved) => writeln!(out, "{moved}")?,
        }
    }
    Ok(())
}

// Reads one frame, delivers it and moves until idle. Answers whether there may be more.
fn next_frame(
    input: &mut impl Read,
    out: &mut impl Write,
    book: &mut [u8],
    reply: &mut [u8],
) -> io::Result<bool> {
    let mut frame = [0; 224];
    let got = read_full(input, &mut frame)?;
    if got == 0 {
        return Ok(false);
    }
    printed::delivered(out, replica::deliver::deliver(book, &frame[..got]), &frame)?;
    move_until_idle(out, book, reply)?;
    Ok(got == 224)
}

fn main(rt: HostRuntime) -> io::Result<()> {
    let mut input = rt.stdin();
    let mut out = rt.stdout();
    let mut book = [0; 3216];
    let mut reply = [0; 448];
    let opened = replica::open::open(&mut book, 4, 2, 3, &[1, 0, 1, 0, 1, 0, 1, 0], &[0, 1, 2]);
    if let Err(refusal) = opened {
        return writeln!(out, "{refusal}");
    }
    for _ in 0..u64::MAX {
        if !next_frame(&mut input, &mut out, &mut book, &mut reply)? {
            break;
        }
    }
    Ok(())
}
