// Makes the calls of an exchange list (docs/EXCHANGE.md), which it reads from standard input, and prints the list with
// what each call answered and the digests of the buffers that were lent to it. A line that is no line of a list is
// named, and the next one follows.
#![tactic(auto)]

mod list;
mod made;

use crate::list::Player;
use lines::input::read_full;
use std::io;

// How much of a list is read.
const ROOM: usize = 1048576;

fn main(rt: HostRuntime) -> io::Result<()> {
    let mut list = vec![in rt.alloc(); 0; ROOM]?;
    let size = read_full(&mut rt.stdin(), &mut list)?;
    list.truncate(size);
    list.shrink_to_fit();
    let mut player = Player::new(rt.stdout(), rt.alloc())?;
    player.play(&list)?;
    if size == ROOM {
        player.cut()?;
    }
    Ok(())
}
