// What is told where a read or a write fails.
ghost use Rattle.std.specs.Prelude.{List, ℕ, [], ◌∷◌};
ghost use Rattle.console.specs.Written.{AppendsSome, AppendsEach};

use crate::text::Text;
use crate::wait::MOST_TRIES;
use std::io::{Error, ErrorKind, Write};

// More than any of the system's texts for an error takes.
const TEXT_BYTES: usize = 256;

// What an error says, without its number.
fn words(text: &str) -> &str {
    match text.split_once(" (os error ") {
        Some((words, _)) => words,
        None => text,
    }
}

// Hands some text to a writer as far as it takes it: nobody could be told that it does not. A loop of its own, since `write_all` of std does not
// say what a writer took that then failed.
pub fn hand<W: Write>(writer: &mut W, text: &[u8])
    ensures { AppendsSome (W.contents writer.old) (W.contents writer.new) text.now }
{
    let mut rest = text;
    for _ in 0..MOST_TRIES {
        if rest.is_empty() {
            return;
        }
        match writer.write(rest) {
            Ok(0) => return,
            Ok(n) => rest = &rest[n..],
            Err(error) if error.kind() == ErrorKind::Interrupted => {}
            Err(_) => return,
        }
    }
}

// Tells in one line what failed, as the caller names it, and why.
pub fn tell<E: Write>(errors: &mut E, what: &[u8], error: &Error)
    ensures { (why : List ℕ) × AppendsEach (E.contents errors.old) (E.contents errors.new) (what.now ∷ (58 ∷ 32 ∷ []) ∷ why ∷ (10 ∷ []) ∷ []) }
{
    let mut text: Text<TEXT_BYTES> = Text::new();
    let _ = write!(text, "{error}");
    let why = std::str::from_utf8(text.as_slice()).map_or("", words);
    hand(errors, what);
    hand(errors, b": ");
    hand(errors, why.as_bytes());
    hand(errors, b"\n");
}
