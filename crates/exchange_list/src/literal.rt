// Bytes as words of a list: pieces joined by `+`, each pairs of hexadecimal digits, or one pair, `*` and how often.
ghost use Rattle.std.specs.Prelude.{◌≡◌, ◌+◌, ◌≤◌, IfOk, OnOk, vec_len};
ghost use Rattle.exchange_list.specs.declared.literal.LiteralError.TheVariants.{OutOfMemory};

use crate::words::{digit, number};
use std::alloc::{AllocError, Global};

// How many bytes a literal stands for at most, and so a buffer has.
const ROOM: usize = 65536;

// Why a word stands for no bytes: it has another form or is of more than find room, or there is no memory for them.
#[derive(Clone, Copy, Debug, PartialEq, Eq)]
pub enum LiteralError {
    Malformed,
    OutOfMemory,
}

impl From<AllocError> for LiteralError {
    ghost from_gives = { λ _ error. error ≡ OutOfMemory };

    fn from(_error: AllocError) -> LiteralError {
        LiteralError::OutOfMemory
    }
}

// The byte of two digits.
pub(crate) fn pair(high: u8, low: u8) -> Result<u8, LiteralError> {
    match (digit(high), digit(low)) {
        (Some(high), Some(low)) => Ok(16 * high + low),
        _ => Err(LiteralError::Malformed),
    }
}

// Finds memory for so many bytes more: at once for twice those that there are, but for no more than a literal has.
fn grow(bytes: &mut Vec<u8>, count: usize) -> Result<(), AllocError>
    requires { vec_len bytes.old + count ≤ 65536 }
    ensures { vec_len bytes.new ≡ vec_len bytes.old }
{
    let held = bytes.len();
    if bytes.capacity() < held + count {
        bytes.reserve_exact(count.max(held.min(ROOM - held)))?;
    }
    Ok(())
}

// Puts the byte of one pair so often behind those before it. (Where that is never, the pair may be any two letters.)
fn repeated(bytes: &mut Vec<u8>, high: u8, low: u8, count: usize) -> Result<(), LiteralError>
    requires { vec_len bytes.old ≤ 65536 }
    ensures { OnOk result (vec_len bytes.new ≤ 65536) }
{
    if ROOM - bytes.len() < count {
        return Err(LiteralError::Malformed);
    }
    if 0 < count {
        let byte = pair(high, low)?;
        grow(bytes, count)?;
        bytes.resize(bytes.len() + count, byte)?;
    }
    Ok(())
}

// Puts the byte of each two digits at the front of the room, from the first digits on.
pub(crate) fn put_pairs(room: &mut [u8], digits: &[u8]) -> Result<(), LiteralError> {
    for (byte, digits) in room.iter_mut().zip(digits.chunks(2)) {
        let [high, low] = digits else {
            return Err(LiteralError::Malformed);
        };
        *byte = pair(*high, *low)?;
    }
    Ok(())
}

// Puts the bytes of one piece behind those before it. What finds no room is refused before a digit is read.
fn piece(bytes: &mut Vec<u8>, piece: &[u8]) -> Result<(), LiteralError>
    requires { vec_len bytes.old ≤ 65536 }
    ensures { OnOk result (vec_len bytes.new ≤ 65536) }
{
    match piece {
        [] => Err(LiteralError::Malformed),
        [high, low, b'*', digits @ ..] => {
            let count = number(digits).ok_or(LiteralError::Malformed)?;
            repeated(bytes, *high, *low, count)
        }
        _ => {
            let count = piece.len().div_ceil(2);
            let held = bytes.len();
            if ROOM - held < count {
                return Err(LiteralError::Malformed);
            }
            grow(bytes, count)?;
            bytes.resize(held + count, 0)?;
            put_pairs(&mut bytes[held..], piece)
        }
    }
}

// The bytes that a word stands for. (A `+` at its end joins nothing.)
pub fn literal(alloc: Global, word: &[u8]) -> Result<Vec<u8>, LiteralError>
    ensures { IfOk result (λ bytes. vec_len bytes ≤ 65536) }
{
    let mut bytes = Vec::new(alloc);
    if matches!(word, b"-") {
        return Ok(bytes);
    }
    for part in word
        .strip_suffix(b"+")
        .unwrap_or(word)
        .split(|letter| *letter == b'+')
    {
        piece(&mut bytes, part)?;
    }
    if bytes.is_empty() {
        return Err(LiteralError::Malformed);
    }
    Ok(bytes)
}
