// Numbers as varints and fields of them, written into a buffer one after the other. Room is asked for by constants: ten
// bytes for a varint, eleven for a field.
ghost use Rattle.std.specs.Prelude.{◌+◌, ◌<◌, ◌≤◌, length};
ghost use Rattle.wire.specs.Varint.{written};
ghost use Rattle.wire.specs.Message.{number_bytes, ack_set_bytes};
ghost use Rattle.words.specs.Wrote.{Wrote};

// Writes the shortest varint of a number: seven bits a byte, the lowest first, all but the last with the top bit set.
// The number itself says when its last byte is written: nothing is there to count over.
fn write_varint(buffer: &mut [u8], at: usize, number: u64) -> usize
    requires { at + 10 ≤ length buffer.old }
    ensures { Wrote 10 buffer.old at (written number) buffer.new result }
{
    let mut here = at;
    let mut left = number;
    while 128 <= left {
        buffer[here] = (128 + left % 128) as u8;
        left = left / 128;
        here += 1;
    }
    buffer[here] = left as u8;
    here + 1
}

// Writes a field of a number: the tag, which is one byte for a field below 16, and the varint.
pub fn write_number(buffer: &mut [u8], at: usize, field: u8, number: u64) -> usize
    requires { (field < 16) × (at + 11 ≤ length buffer.old) }
    ensures { Wrote 11 buffer.old at (number_bytes field number) buffer.new result }
{
    buffer[at] = field * 8;
    write_varint(buffer, at + 1, number)
}

// Writes the words of an ack set, at most four, a field each.
pub fn write_ack_set(buffer: &mut [u8], at: usize, words: &[u64]) -> usize
    requires { (length words.now ≤ 4) × (at + 44 ≤ length buffer.old) }
    ensures { Wrote 44 buffer.old at (ack_set_bytes words.now) buffer.new result }
{
    let mut here = at;
    for word in words {
        here = write_number(buffer, here, 4, *word);
    }
    here
}
