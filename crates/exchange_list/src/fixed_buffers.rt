// The buffers of a list in memory that is lent and of a fixed size, where no call can fail. Each has one of sixteen
// places: its name stands there in the table, its size sixteen further on, and its bytes, 65536 at most, in the memory.
ghost use Rattle.std.specs.Prelude.{◌≡◌, ◌+◌, ◌<◌, ◌≤◌, length, slice_index};

// The last eight letters of a word as one number.
pub fn name(word: &[u8]) -> usize {
    word.iter().fold(0, |name: usize, letter| {
        name % 72057594037927936 * 256 + usize::from(*letter)
    })
}

// The place of a name, or 16. A free place has the name 0.
fn found(table: &[usize; 32], name: usize) -> usize
    ensures { result ≤ 16 }
{
    table[..16]
        .iter()
        .position(|held| *held == name)
        .unwrap_or(16)
}

// The place of the buffer that a word names, or 16.
pub fn place(table: &[usize; 32], word: &[u8]) -> usize
    ensures { result ≤ 16 }
{
    if (1..=8).contains(&word.len()) {
        found(table, name(word))
    } else {
        16
    }
}

// Takes a free place for a name that has none.
pub fn enter(table: &mut [usize; 32], word: &[u8]) {
    let name = name(word);
    if found(table, name) < 16 {
        return;
    }
    let k = found(table, 0);
    if k < 16 {
        table[k] = name;
    }
}

// How many bytes the buffer at a place has, or `usize::MAX` where there is none.
pub fn size_at(table: &[usize; 32], k: usize) -> usize
    ensures none { 16 ≤ k → result ≡ usize.MAX }
    ensures held { k < 16 → result ≡ slice_index table.now (16 + k) }
{
    if k < 16 { table[16 + k] } else { usize::MAX }
}

// The bytes of the buffer that a word names; none where there is no such buffer.
pub fn buffer<'a>(memory: &'a mut [u8], table: &[usize; 32], word: &[u8]) -> &'a mut [u8]
    ensures { length result.now ≤ 65536 }
{
    let k = place(table, word);
    let size = size_at(table, k);
    if k < memory.len() / 65536 && size <= 65536 {
        let from = 65536 * k;
        let to = from + size;
        return &mut memory[from..to];
    }
    &mut []
}

// Copies the bytes of the buffer that a word names, if there is room for them.
pub fn load(word: &[u8], memory: &mut [u8], table: &[usize; 32], out: &mut [u8]) {
    let held = buffer(memory, table, word);
    if held.len() <= out.len() {
        out[..held.len()].copy_from_slice(held);
    }
}

// Lets the buffer that a word names hold these bytes from now on.
pub fn keep(word: &[u8], bytes: &[u8], memory: &mut [u8], table: &mut [usize; 32]) {
    let k = place(table, word);
    if k < 16 {
        table[16 + k] = bytes.len();
    }
    let held = buffer(memory, table, word);
    if bytes.len() <= held.len() {
        held[..bytes.len()].copy_from_slice(bytes);
    }
}
