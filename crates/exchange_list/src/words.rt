// The words of a line, which single blanks divide, and what they stand for.
ghost use Rattle.std.specs.Prelude.{◌<◌, ◌≤◌, IfSome, length};

// Word `k` of a line, counted from 0; no bytes where there is none.
pub fn word(line: &[u8], k: usize) -> &[u8] {
    line.split(|byte| *byte == b' ').nth(k).unwrap_or(&[])
}

// The value of a hexadecimal digit.
pub fn digit(letter: u8) -> Option<u8>
    ensures { IfSome result (λ value. value < 16) }
{
    match letter {
        b'0'..=b'9' => Some(letter - b'0'),
        b'a'..=b'f' => Some(letter - b'a' + 10),
        _ => None,
    }
}

// The number that a word of decimal digits stands for.
pub fn number(word: &[u8]) -> Option<usize> {
    if word.is_empty() {
        return None;
    }
    let mut value: usize = 0;
    for letter in word {
        let next = digit(*letter).filter(|digit| *digit <= 9)?;
        value = value.checked_mul(10)?.checked_add(usize::from(next))?;
    }
    Some(value)
}

// The last eight letters of a word, from the first on that is not 0: what a name is known by.
pub fn name(word: &[u8]) -> &[u8]
    ensures { length result.now ≤ 8 }
{
    let last = &word[word.len().saturating_sub(8)..];
    match last.iter().position(|letter| *letter != 0) {
        Some(first) => &last[first..],
        None => &[],
    }
}
