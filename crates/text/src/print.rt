// The printing of answers: what a writer whose contents are known then holds. What cannot be written is passed over, a number together with its space, and
// what comes after it is written all the same; the answer is the first failure.
ghost use Rattle.std.specs.Prelude.{[], ◌∷◌, ◌++◌, OnOk, IfSome, codes};
ghost use Rattle.std.specs.Io.KnownBytes.{Appends};
ghost use Rattle.std.specs.Fmt.{decimal};
ghost use Rattle.text.specs.Printed.{spaced};

use std::fmt::Display;
use std::io::{Result, Write};

// Each value, with a space before it.
#[tactic(auto, using(crate::proofs::Printed::spaced_on))]
pub fn all<W: Write, T: Display + Copy + Drop>(to: &mut W, values: &[T]) -> Result<()>
    ensures { OnOk result (IfSome (spaced T.output values.now) (Appends (W.contents to.old) (W.contents to.new))) }
{
    let mut done = Ok(());
    for value in values {
        done = done.and(write!(to, " {value}"));
    }
    done
}

// A refusal: its number and its place.
pub fn refusal<W: Write>(to: &mut W, number: u32, place: u32) -> Result<()>
    ensures { OnOk result (Appends (W.contents to.old) (W.contents to.new) (codes "refused" ++ ((32 ∷ decimal number) ++ (32 ∷ decimal place)))) }
{
    let word = to.write_all(b"refused");
    word.and(all(to, &[number, place]))
}

// A line that is a comment is written as it stands.
pub fn write_comment<W: Write>(to: &mut W, line: &[u8]) -> Result<()>
    ensures { OnOk result (Appends (W.contents to.old) (W.contents to.new) (line.now ++ (10 ∷ []))) }
{
    let text = to.write_all(line);
    text.and(to.write_all(b"\n"))
}

// A line that means nothing.
pub fn write_unclear<W: Write>(to: &mut W) -> Result<()>
    ensures { OnOk result (Appends (W.contents to.old) (W.contents to.new) (codes "unclear\n")) }
{
    to.write_all(b"unclear\n")
}
