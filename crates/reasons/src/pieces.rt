// The pieces that the words are made of, each with the room that it takes at the most.
ghost use Rattle.std.specs.Prelude.{◌≡◌, ◌+◌, ◌≤◌, min, length};

use console::text::Text;

// A number between two texts.
pub fn put_with<const N: usize>(line: &mut Text<N>, before: &[u8], n: u32, after: &[u8])
    requires { length line.old + (length before.now + 10 + length after.now) ≤ N }
    ensures { length line.new ≤ length line.old + (length before.now + 10 + length after.now) }
{
    line.put_text(before);
    line.put_number(n);
    line.put_text(after);
}

// ", at byte 31: "
pub fn put_place<const N: usize>(line: &mut Text<N>, place: u32)
    requires { length line.old + 22 ≤ N }
    ensures { length line.new ≤ length line.old + 22 }
{
    put_with(line, b", at byte ", place, b": ");
}

// "2 to 64 are right", or "1 is right"
pub fn put_right<const N: usize>(line: &mut Text<N>, low: u32, high: u32)
    requires { length line.old + 34 ≤ N }
    ensures { length line.new ≤ length line.old + 34 }
{
    if low == high {
        put_with(line, b"", low, b" is right");
        return;
    }
    put_with(line, b"", low, b" to ");
    put_with(line, b"", high, b" are right");
}

// A number of bytes; the largest number of 32 bits stands for all above it too.
pub fn small(n: usize) -> u32
    ensures { result ≡ min n 4294967295 }
{
    u32::try_from(n).unwrap_or(u32::MAX)
}
