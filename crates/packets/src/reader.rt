// A reader of packets: it borrows the packet and keeps the number of the next frame.
ghost use Rattle.std.specs.Prelude.{◌≡◌, ◌+◌, ◌*◌, ◌≤◌, length};
ghost use Rattle.std.specs.Iterator.{YieldsFirstRef, item_count};
ghost use Rattle.packets.specs.Frames.{frame_at};
ghost use Rattle.packets.specs.Left.{frames_left};

// A packet that is read, and the number of its next frame.
#[derive(Drop)]
pub struct Packet<'a> {
    pub frames: &'a [u8],
    pub next: usize,
}

// Frame `k` of a packet, where it lies.
pub fn frame_at(packet: &[u8], k: usize) -> &[u8]
    requires { 224 * k + 224 ≤ length packet.now }
    ensures { result.now ≡ frame_at packet.now k }
{
    let start = 224 * k;
    &packet[start..start + 224]
}

// The next frame of a reader, which then stands at the one after it.
pub fn next<'s, 'a>(reader: &'s mut Packet<'a>) -> &'a [u8]
    requires { 224 * reader.old.next + 224 ≤ length reader.old.frames.now }
    ensures { (result.now ≡ frame_at reader.old.frames.now reader.old.next)
        × (reader.new.frames ≡ reader.old.frames)
        × (reader.new.next ≡ reader.old.next + 1) }
{
    let k = reader.next;
    reader.next = k + 1;
    frame_at(reader.frames, k)
}

// The frame at a number, by a reader that stands there and reads on; the number becomes the one that the reader keeps.
// For callers who keep the number and no reader.
pub fn read_on<'a, 'n>(packet: &'a [u8], number: &'n mut usize) -> &'a [u8]
    requires { 224 * number.old + 224 ≤ length packet.now }
    ensures { (result.now ≡ frame_at packet.now number.old)
        × (number.new ≡ number.old + 1) }
{
    let mut reader = Packet {
        frames: packet,
        next: *number,
    };
    let frame = next(&mut reader);
    *number = reader.next;
    frame
}

// The frames from the next one on, in order; bytes past the last whole frame are in none.
impl<'a> Iterator for Packet<'a> {
    type Item = &'a [u8];

    ghost next_gives = { YieldsFirstRef frames_left };

    ghost remaining = { item_count frames_left };

    fn next(&mut self) -> Option<&'a [u8]> {
        if self.frames.len() / 224 <= self.next {
            return None;
        }
        Some(next(self))
    }
}
