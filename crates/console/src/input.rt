// Input that is waited for: what is not ready yet is asked for again, and a failure is told apart from the end.
ghost use Rattle.std.specs.Prelude.{◌≤◌, length};
ghost use Rattle.console.specs.Got.{Within, Takes, TakesOn};

use crate::wait::retry;
use std::io::{Read, Result};
use std::time::Clock;

// Reads as much as is there, and waits where there is nothing yet; no bytes are the end, as for every reader of std. Where it fails, nothing was taken from the input.
pub fn read_some<C: Clock, R: Read>(clock: &C, input: &mut R, into: &mut [u8]) -> Result<usize>
    ensures within { Within 0 (length into.old) result }
    ensures bytes { Takes (R.remaining input.old) (R.remaining input.new) result into.new }
{
    retry(clock, input, into, |input, into| input.read(into))
}

// Reads on from `from` until what was lent is full or the input ends; the bytes that it then holds, or a failure.
pub fn read_full<C: Clock, R: Read>(
    clock: &C,
    input: &mut R,
    into: &mut [u8],
    from: usize,
) -> Result<usize>
    requires { from ≤ length into.old }
    ensures within { Within from (length into.old) result }
    ensures bytes { TakesOn (R.remaining input.old) (R.remaining input.new) from into.old into.new result }
{
    let mut done = from;
    // No `for`: how far a read goes is known only afterwards.
    while done < into.len() {
        let n = read_some(clock, input, &mut into[done..])?;
        if n == 0 {
            return Ok(done);
        }
        done += n;
    }
    Ok(done)
}
