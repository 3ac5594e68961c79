// The program's arguments, as far as every program treats them alike.
ghost use Rattle.std.specs.Prelude.{List, ℕ, [], ◌∷◌, ◌≤◌, length};
ghost use Rattle.console.specs.Written.{AppendsEach};
ghost use Rattle.console.specs.Shown.{Shown, AllShown, unknown_argument};

use crate::failure::hand;
use std::env::{Env, FillError};
use std::io::Write;

// As much of an argument as is shown.
const SHOWN_BYTES: usize = 256;

// A byte as it is shown in a message: one that would end or disturb the line is a question mark.
fn shown(b: u8) -> u8
    ensures { Shown result }
{
    match b {
        b' '..=b'~' | 128..=255 => b,
        _ => b'?',
    }
}

// Whether the program was given an i-th argument. Argument 0 is its name.
pub fn is_given<V: Env>(env: &V, i: usize) -> bool {
    let mut start = [0u8; 1];
    !matches!(env.arg(i, &mut start), Err(FillError::NotPresent))
}

// Puts the i-th argument, or as much of it as there is room for, at the start of the room, and answers how much that is.
fn argument<V: Env>(env: &V, i: usize, room: &mut [u8]) -> usize
    ensures { result ≤ length room.old }
{
    match env.arg(i, room) {
        Ok(n) => n,
        Err(FillError::TooLong) => room.len(),
        Err(FillError::NotPresent) => 0,
    }
}

// Tells in one line that the program does not know its i-th argument, with a hint.
pub fn tell_unknown<V: Env, E: Write>(env: &V, errors: &mut E, i: usize, hint: &[u8])
    ensures { (word : List ℕ) × AllShown word × AppendsEach (E.contents errors.old) (E.contents errors.new) (unknown_argument ∷ word ∷ hint.now ∷ []) }
{
    let mut word = [0u8; SHOWN_BYTES];
    let n = argument(env, i, &mut word);
    for b in &mut word {
        *b = shown(*b);
    }
    hand(errors, b"unknown argument: ");
    hand(errors, &word[..n]);
    hand(errors, hint);
}
