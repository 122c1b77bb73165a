// The bytes of a word in the room that is lent for them.
ghost use Rattle.std.specs.Prelude.{◌≡◌, ◌≤◌, ◌⊎◌, IfSome, length};

use crate::literal::{pair, put_pairs};
use crate::words::number;

// Puts the bytes of one piece at the front of `room`. Answers how many, where it stands for some and they find room.
fn piece(piece: &[u8], room: &mut [u8]) -> Option<usize>
    ensures { IfSome result (λ count. count ≤ length room.old) }
{
    if let [high, low, b'*', digits @ ..] = piece {
        let count = number(digits)?;
        if room.len() < count {
            return None;
        }
        if 0 < count {
            room[..count].fill(pair(*high, *low).ok()?);
        }
        return Some(count);
    }
    let count = (piece.len() + 1) / 2;
    if count == 0 || room.len() < count {
        return None;
    }
    put_pairs(room, piece).ok()?;
    Some(count)
}

// Puts the bytes that a word stands for at the front of `out`. Answers how many, where it stands for some.
fn pieces(word: &[u8], out: &mut [u8]) -> Option<usize>
    ensures { IfSome result (λ size. size ≤ length out.old) }
{
    if matches!(word, b"-") {
        return Some(0);
    }
    let mut size = 0;
    for part in word
        .strip_suffix(b"+")
        .unwrap_or(word)
        .split(|letter| *letter == b'+')
    {
        size += piece(part, &mut out[size..])?;
    }
    if size == 0 { None } else { Some(size) }
}

// Puts the bytes that a word stands for at the front of `out`. Answers how many, or `usize::MAX` for a word that stands
// for no bytes, or for more than find room.
pub fn literal(word: &[u8], out: &mut [u8]) -> usize
    ensures { (result ≤ length out.old) ⊎ (result ≡ usize.MAX) }
{
    pieces(word, out).unwrap_or(usize::MAX)
}
