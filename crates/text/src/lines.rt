// A text cut into parts: its lines, and a line's first word.
ghost use Rattle.std.specs.Prelude.{◌≡◌, ◌==◌, ◌++◌, Bool, ℕ, OnOk, Ok, drop};
ghost use Rattle.std.specs.List.{FoldsTo, after_first, before_first, position_or_len, slice_split};
ghost use Rattle.text.specs.Lines.{Tests};
ghost use Rattle.text.specs.Runs.{RunsLine};

use crate::print;
use std::io::{Result, Write};

// What comes before the first byte that passes a test, and the rest from that byte on.
pub fn cut_before<F: FnMut(&u8) -> bool>(text: &[u8], test: F) -> (&[u8], &[u8])
    requires { (state : F) (x : _) → F.pre state x }
    ensures whole { result.0.now ++ result.1.now ≡ text.now }
    ensures first { (p : ℕ → Bool) → Tests F.step test p → (result.0.now ≡ before_first p text.now) × (result.1.now ≡ drop (position_or_len p text.now) text.now) }
{
    let end = text.iter().position(test).unwrap_or(text.len());
    text.split_at(end)
}

// The first line of a text, and what follows its end.
fn cut_line(text: &[u8]) -> (&[u8], &[u8])
    ensures { (result.0.now ≡ before_first (λ b. b == 10) text.now) × (result.1.now ≡ after_first (λ b. b == 10) text.now) }
{
    let (line, rest) = cut_before(text, |b| *b == b'\n');
    match rest {
        [_, next @ ..] => (line, next),
        [] => (line, rest),
    }
}

// Runs the lines of a text in turn: one that starts with '#' is written out as it stands, and an empty one is passed over. Where one fails those after it are
// run all the same; the answer is the first failure.
pub fn run_lines<W: Write, F: FnMut(&mut W, &[u8]) -> Result<()>>(
    to: &mut W,
    text: &[u8],
    mut run: F,
) -> Result<()>
    requires { F.IsAlwaysCallable run }
    ensures { OnOk result ((last : F) × FoldsTo (RunsLine W.contents (λ f w line v g. F.step f w line (Ok tt) v g)) (run, to.old) (slice_split (λ b. b == 10) text.now) (last, to.new)) }
{
    let mut rest = text;
    let mut done = Ok(());
    // A `for` over `split` was tried: in a generic function it gets no invariant where a closure is in the iterator's type.
    while !rest.is_empty() {
        let (line, next) = cut_line(rest);
        match line {
            [] => {}
            [b'#', ..] => done = done.and(print::write_comment(to, line)),
            _ => done = done.and(run(to, line)),
        }
        rest = next;
    }
    done
}
