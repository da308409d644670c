// Bytes and letters, one after another.
ghost use Rattle.std.specs.Prelude.{[], ◌∷◌, ◌+◌, ◌≤◌, ◌<◌, length};
ghost use Rattle.words.specs.Definitions.{word, stretch};
ghost use Rattle.text.specs.Writes.{Writes, far};

use cells::store;

// One byte, and the place after it.
pub fn write_byte(byte: u8, output: &mut [u8], at: usize) -> usize
    requires { at < far }
    ensures { Writes output.old at (byte ∷ []) output.new result }
{
    store(output, at, byte);
    at + 1
}

// The count bytes after the first a, 0 where there are none, and the place after them. What is written, first and count are made anew at
// each call.
pub fn write_part(source: &[u8], a: usize, count: usize, output: &mut [u8], at: usize) -> usize
    requires { (a + count ≤ far) × (at + count ≤ far) }
    ensures { Writes output.old at (stretch (word source.now) a count) output.new result }
{
    // by index, in place of a copy of slices: either of the two places may lie outside
    for j in 0..count {
        store(output, at + j, cells::at(source, a + j, 0));
    }
    at + count
}

// All the bytes, and the place after them.
pub fn write_bytes(bytes: &[u8], output: &mut [u8], at: usize) -> usize
    requires { at + length bytes.now ≤ far }
    ensures { Writes output.old at bytes.now output.new result }
{
    write_part(bytes, 0, bytes.len(), output, at)
}
