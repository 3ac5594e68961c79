// Output by the page: text waits in a page until that is full or somebody has to wait, so that one call of the system serves thousands of lines.
ghost use Rattle.std.specs.Prelude.{◌≡◌, false, [], ◌+◌, ◌≤◌, length, IfOk, OnOk, OnErr};
ghost use Rattle.std.specs.Io.KnownBytes.{Appends, WriteAppends};
ghost use Rattle.console.specs.Written.{AppendsSome, WritesOut, MakesRoom};

use crate::failure;
use crate::text::Text;
use crate::wait::retry;
use std::io::{Error, ErrorKind, Result, Write};
use std::time::Clock;

pub const PAGE_BYTES: usize = 65536;

// Text that waits to be written, and whether earlier text was lost because it could not be.
#[derive(Drop)]
pub struct Page<const N: usize> {
    pub text: Text<N>,
    pub lost: bool,
}

impl<const N: usize> Page<N> {
    // A page with no text, of which none was lost.
    pub fn new() -> Self
        ensures { (result.text ≡ []) × (result.lost ≡ false) }
    {
        Page {
            text: Text::new(),
            lost: false,
        }
    }

    // Writes the page's text. Where that fails it is told, and from then on nothing more is written, so that no print-out has a gap.
    pub fn write_out<C: Clock, W: Write, E: Write>(
        &mut self,
        clock: &C,
        output: &mut W,
        errors: &mut E,
    )
        ensures empty { self.new.text ≡ [] }
        ensures bytes { WritesOut (W.contents output.old) (W.contents output.new) self.old.text self.old.lost self.new.lost }
    {
        if !self.lost {
            if let Err(error) = write_all(clock, output, self.text.as_slice()) {
                failure::tell(errors, b"standard output", &error);
                self.lost = true;
            }
        }
        self.text.clear();
    }

    // Makes so much room behind the page's text: what is in it is written where there is less.
    pub fn make_room<C: Clock, W: Write, E: Write>(
        &mut self,
        clock: &C,
        output: &mut W,
        errors: &mut E,
        room: usize,
    )
        requires { room ≤ N }
        ensures room { length self.new.text + room ≤ N }
        ensures bytes { MakesRoom (W.contents output.old) (W.contents output.new) self.old.text self.old.lost self.new.text self.new.lost }
    {
        if N - room < self.text.len() {
            self.write_out(clock, output, errors);
        }
    }
}

// Writes the start of some text, and waits where nothing is taken yet.
fn write_some<C: Clock, W: Write>(clock: &C, output: &mut W, text: &[u8]) -> Result<usize>
    ensures bound { IfOk result (λ n. n ≤ length text.now) }
    ensures bytes { WriteAppends (W.contents output.old) (W.contents output.new) result text.now }
{
    retry(clock, output, &mut [], |output, _| output.write(text))
}

// Writes all of some text, or answers why it could not.
pub fn write_all<C: Clock, W: Write>(clock: &C, output: &mut W, text: &[u8]) -> Result<()>
    ensures ok { OnOk result (Appends (W.contents output.old) (W.contents output.new) text.now) }
    ensures err { OnErr result (AppendsSome (W.contents output.old) (W.contents output.new) text.now) }
{
    let mut rest = text;
    while !rest.is_empty() {
        let put = write_some(clock, output, rest)?;
        if put == 0 {
            return Err(Error::from(ErrorKind::WriteZero));
        }
        rest = &rest[put..];
    }
    Ok(())
}
