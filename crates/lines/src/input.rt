// What the programs read.
ghost use Rattle.std.specs.Prelude.{◌≤◌, length, IfOk};

use std::io;
use std::io::Read;

// Reads until `buf` is full or the input ends. Answers how many bytes it put at the front of `buf`. An error of the
// reader is passed on; what was read before it is then at the front of `buf`.
pub fn read_full(input: &mut impl Read, buf: &mut [u8]) -> io::Result<usize>
    ensures { IfOk result (λ n. n ≤ length buf.new) }
{
    let mut done = 0;
    // A count by hand: the library reads all that comes, which may be endless, or just as many bytes as find room.
    while done < buf.len() {
        let n = input.read(&mut buf[done..])?;
        if n == 0 {
            break;
        }
        done += n;
    }
    Ok(done)
}
