// The words for a refusal: one line for people that says what stands wrong, where, and the smallest hint that helps. The numbers that 01 asks for stay as they are.
#![tactic(auto)]

ghost use Rattle.std.specs.Prelude.{◌≡◌, [], ◌+◌, ◌≤◌, ℕ, List, length};
ghost use Rattle.console.specs.Written.{AppendsSome};
ghost use Rattle.refusal.specs.Numbers.{causes, number_of};

use console::failure;
use console::text::Text;
use refusal::Cause;
use session::Session;
use std::io::Write;

mod pieces;
mod session;
mod sheet_words;
pub mod spot;

// No line of words is longer than this; that none is cut off is proved, by how much room each piece has.
const LINE_BYTES: usize = 256;

// The cause that a number names. One that names none is told as a number of sessions or a total that is wrong.
fn cause_of(number: u32) -> Cause
    ensures { 1 ≤ number → number ≤ length causes → number_of result ≡ number }
{
    match number {
        1 => Cause::TooShort,
        2 => Cause::Length,
        3 => Cause::Version,
        4 => Cause::Capacity,
        5 => Cause::Period,
        0 | 6 => Cause::Sessions,
        7 => Cause::CutOff,
        8 => Cause::TableLength,
        9 => Cause::Rate,
        10 => Cause::Value,
        11 => Cause::LeftOver,
        12 => Cause::Fails,
        13 => Cause::RunTooShort,
        14 => Cause::NoRun,
        15 => Cause::Offers,
        16 => Cause::ResultsTooShort,
        17 => Cause::SlotsDone,
        _ => Cause::TallyFull,
    }
}

// The words for a cause, at a place in the sheet's bytes.
fn put_reason<const N: usize>(line: &mut Text<N>, bytes: &[u8], cause: Cause, place: u32)
    requires { (line.old ≡ []) × (256 ≤ N) }
    ensures { length line.new + 1 ≤ N }
{
    match cause {
        Cause::TooShort => sheet_words::put_short(line, bytes),
        Cause::Length => sheet_words::put_other_length(line, bytes),
        Cause::Version => sheet_words::put_version(line, bytes),
        Cause::Capacity => sheet_words::put_capacity(line, bytes),
        Cause::Period => sheet_words::put_period(line, bytes),
        Cause::Sessions => sheet_words::put_sessions(line, bytes),
        Cause::CutOff => Session::at(bytes, place).put_cut_off(line),
        Cause::TableLength => Session::at(bytes, place).put_table_length(line),
        Cause::Rate => Session::at(bytes, place).put_rate(line),
        Cause::Value => Session::at(bytes, place).put_values(line),
        Cause::LeftOver => sheet_words::put_left_over(line, bytes, place),
        Cause::Fails => sheet_words::put_failed(line, bytes, place),
        // The others do not depend on the sheet.
        Cause::RunTooShort => line.put_text(b"the slice of the run is shorter than 12288 numbers"),
        Cause::NoRun => line.put_text(b"the slice holds no opened run"),
        Cause::Offers => line.put_text(b"there is not one offer for each session"),
        Cause::ResultsTooShort => line.put_text(b"a slice for the results is too short"),
        Cause::SlotsDone => line.put_text(b"a run has at most 1000000 slots, and they are done"),
        Cause::TallyFull => line.put_text(b"a total of the tally would pass 4294967295"),
    }
}

// Tells why a call was refused, in one line.
pub fn tell<E: Write>(errors: &mut E, bytes: &[u8], number: u32, place: u32)
    ensures { (line : List ℕ) × (length line ≤ 256) × AppendsSome (E.contents errors.old) (E.contents errors.new) line }
{
    let mut line: Text<LINE_BYTES> = Text::new();
    put_reason(&mut line, bytes, cause_of(number), place);
    line.put_end();
    failure::hand(errors, line.as_slice());
}
