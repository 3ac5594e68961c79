// Bytes written as text, in words between spaces:
//   01F4        the bytes 01 and F4
//   01F4*64     the word 64 times, 128 bytes
//   (0000 01F4*64)*16     what stands between the brackets 16 times; brackets do not nest
//   -           no bytes at all
ghost use Rattle.std.specs.Prelude.{◌≡◌, ◌-◌, ◌<◌, ◌≤◌, drop, length, IfSome};
ghost use Rattle.text.specs.Lines.{Fits, Ordered};

use crate::number::first_number;

// A word is repeated no more often than this, which fills any program's room already.
const MANY: u64 = 10000;

// The byte of two hex digits.
fn byte_of(high: u8, low: u8) -> Option<u8> {
    let high = char::from(high).to_digit(16)?;
    let low = char::from(low).to_digit(16)?;
    Some((16 * high + low) as u8)
}

// Has the bytes from `from` to `to` stand there `count` times, as far as there is room, and answers where they end. Each byte is that of a word before, so
// that the work is that of the bytes written, however often an empty or a short word is asked for.
fn repeat(bytes: &mut [u8], from: usize, to: usize, count: u64) -> usize
    requires { (from ≤ to) × (to ≤ length bytes.old) }
    ensures { (from ≤ result) × (result ≤ length bytes.old) }
{
    let width = to - from;
    let end = from + width.saturating_mul(count as usize).min(bytes.len() - from);
    for i in to..end {
        bytes[i] = bytes[i - width];
    }
    end
}

// A line's bytes as far as they are written, and where among them the word and the bracket began that a repeat would take again.
#[derive(Drop)]
struct Written<'a> {
    bytes: &'a mut [u8],
    end: usize,
    word: usize,
    bracket: usize,
    ghost ordered: { Ordered (length bytes.now) bracket word end },
}

impl<'a> Written<'a> {
    // Writes what comes next in the line, a mark, a repeat or a pair of digits, and answers what follows that. A repeat with no number
    // is one of 0, and a byte for which there is no room is left out.
    fn read<'l>(&mut self, line: &'l [u8]) -> Option<&'l [u8]>
        ensures further { IfSome result (λ rest. length rest.now < length line.now) }
        ensures behind { IfSome result (λ rest. rest.now ≡ drop (length line.now - length rest.now) line.now) }
        ensures room { (self.new.bytes.ghost_name ≡ self.old.bytes.ghost_name) × (length self.new.bytes.now ≡ length self.old.bytes.now) }
    {
        match line {
            [b' ' | b'-', rest @ ..] => {
                self.word = self.end;
                Some(rest)
            }
            [b'(', rest @ ..] => {
                self.word = self.end;
                self.bracket = self.end;
                Some(rest)
            }
            [b')', rest @ ..] => {
                self.word = self.bracket;
                Some(rest)
            }
            [b'*', rest @ ..] => {
                let (count, rest) = first_number(rest).unwrap_or((0, rest));
                self.end = repeat(self.bytes, self.word, self.end, count.min(MANY));
                self.word = self.end;
                Some(rest)
            }
            [high, low, rest @ ..] => {
                let byte = byte_of(*high, *low)?;
                if self.end < self.bytes.len() {
                    self.bytes[self.end] = byte;
                    self.end += 1;
                }
                Some(rest)
            }
            _ => None,
        }
    }
}

// Writes a line's bytes into `bytes`; those past its end are left out.
pub fn line_bytes(line: &[u8], bytes: &mut [u8]) -> Option<usize>
    ensures { Fits bytes.new result }
{
    let mut written = Written {
        bytes,
        end: 0,
        word: 0,
        bracket: 0,
    };
    let mut rest = line;
    while !rest.is_empty() {
        rest = written.read(rest)?;
    }
    Some(written.end)
}
