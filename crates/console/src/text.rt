// Text of a bounded length: words and numbers are put behind one another into a room of a fixed size, so that no memory has to be asked for.
ghost use Rattle.std.specs.Prelude.{◌≡◌, [], ◌∷◌, ◌+◌, ◌≤◌, length};
ghost use Rattle.console.specs.Digits.{last_digits};
ghost use Rattle.console.specs.Put.{Put};
ghost use Rattle.console.specs.Text.{decimal, line_bytes, places, refused_line};
ghost use Rattle.console.specs.Text.{next as spaced};

use std::io::{Result, Write};
use std::marker::Model;

// Text of at most N bytes; clauses see the list of the bytes put so far.
#[derive(Drop)]
pub struct Text<const N: usize> {
    bytes: [u8; N],
    used: usize,
}

impl<const N: usize> Model for Text<N> {
    ghost use Rattle.std.specs.Prelude.{◌≤◌, ℕ, List, take};

    ghost Value = { List ℕ };

    ghost view = { λ t. take t.used t.bytes };

    ghost invariant = { λ t. t.used ≤ N };
}

impl<const N: usize> Text<N> {
    // No text yet.
    pub fn new() -> Self
        ensures { result ≡ [] }
    {
        Text {
            bytes: [0; N],
            used: 0,
        }
    }

    // How many bytes it has.
    pub fn len(&self) -> usize
        ensures is { result ≡ length self.now }
        ensures fits { result ≤ N }
    {
        self.used
    }

    // The bytes that it has.
    pub fn as_slice(&self) -> &[u8]
        ensures is { result.now ≡ self.now }
        ensures fits { length result.now ≤ N }
    {
        &self.bytes[..self.used]
    }

    // Takes all text away.
    pub fn clear(&mut self)
        ensures { self.new ≡ [] }
    {
        self.used = 0;
    }

    // Puts some words.
    pub fn put_text(&mut self, words: &[u8])
        requires { length self.old + length words.now ≤ N }
        ensures { Put self.old words.now self.new }
    {
        let start = self.used;
        let end = start + words.len();
        let room = &mut self.bytes[..];
        room[start..end].copy_from_slice(words);
        self.used = end;
    }

    // Puts a number in decimal; by hand, since a `write!` promises nothing of what is there where it fails.
    pub fn put_number(&mut self, n: u32)
        requires { length self.old + 10 ≤ N }
        ensures put { Put self.old (decimal n) self.new }
        ensures few { length self.new ≤ length self.old + 10 }
    {
        let start = self.used;
        let end = start + count_places(n);
        let room = &mut self.bytes[..];
        put_digits(&mut room[start..end], n);
        self.used = end;
    }

    // Puts a space, and a number after it.
    pub fn put_next(&mut self, n: u32)
        requires { length self.old + 11 ≤ N }
        ensures put { Put self.old (spaced n) self.new }
        ensures few { length self.new ≤ length self.old + 11 }
    {
        self.put_text(b" ");
        self.put_number(n);
    }

    // Puts the end of a line.
    pub fn put_end(&mut self)
        requires { length self.old + 1 ≤ N }
        ensures { Put self.old (10 ∷ []) self.new }
    {
        self.put_text(b"\n");
    }

    // Puts the line of a refusal.
    #[tactic(auto, unfolding(crate::specs::Text::refused_line))]
    pub fn put_refused(&mut self, number: u32, place: u32)
        requires { length self.old + line_bytes ≤ N }
        ensures put { Put self.old (refused_line number place) self.new }
        ensures few { length self.new ≤ length self.old + line_bytes }
    {
        self.put_text(b"refused");
        self.put_next(number);
        self.put_next(place);
        self.put_end();
    }
}

// A writer that takes as much as there is room for.
impl<const N: usize> Write for Text<N> {
    ghost use Rattle.std.specs.Prelude.{Some};

    ghost contents = { λ t. Some t };

    fn write(&mut self, buf: &[u8]) -> Result<usize> {
        let n = buf.len().min(N - self.used);
        self.put_text(&buf[..n]);
        Ok(n)
    }

    fn flush(&mut self) -> Result<()> {
        Ok(())
    }
}

// How many decimal digits a number has.
fn count_places(n: u32) -> usize
    ensures value { result ≡ places 9 n }
    ensures few { result ≤ 10 }
{
    n.checked_ilog10().unwrap_or(0) as usize + 1
}

// Fills room with as many of a number's last digits.
fn put_digits(room: &mut [u8], n: u32)
    ensures { room.new ≡ last_digits 10 (length room.old) n }
{
    let mut rest = n;
    for i in (0..room.len()).rev() {
        room[i] = b'0' + (rest % 10) as u8;
        rest /= 10;
    }
}
