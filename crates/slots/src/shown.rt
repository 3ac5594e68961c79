// The two calls, opening and a slot, and the line that shows what each answered and left.
ghost use Rattle.std.specs.Prelude.{◌≡◌, length, take};
ghost use Rattle.slots.specs.Sets.{SameLengths};

use crate::bench::{Bench, FILLER};
use layout::RUN_NUMBERS;
use std::io::{Result, Write};
use text::print;

// The numbers up to the last that is not the filler.
fn written(numbers: &[u32]) -> &[u32]
    ensures { result.now ≡ take (length result.now) numbers.now }
{
    match numbers.iter().rposition(|n| *n != FILLER) {
        Some(last) => &numbers[..=last],
        None => &[],
    }
}

// The end of a line: is the run's slice as it was?
fn end_line<W: Write>(to: &mut W, kept: bool) -> Result<()> {
    to.write_all(if kept { b"; kept\n" } else { b"; touched\n" })
}

// What cannot be written is passed over, and printing goes on: the answers are the first failure.
impl Bench {
    pub fn show_opening<W: Write>(&mut self, to: &mut W, sheet: &[u8]) -> Result<()>
        ensures { self.new.set ≡ self.old.set }
    {
        match self.open(sheet) {
            Ok(()) => {
                let told = to.write_all(b"opened");
                told.and(end_line(to, self.is_kept(RUN_NUMBERS)))
            }
            Err(refusal) => {
                let told = print::refusal(to, refusal.number(), refusal.place);
                told.and(end_line(to, self.is_kept(0)))
            }
        }
    }

    fn print_results<W: Write>(&self, to: &mut W) -> Result<()> {
        let told = to.write_all(b"; outcomes");
        let told = told.and(print::all(to, written(&self.outcomes)));
        let told = told.and(to.write_all(b"; packets"));
        let told = told.and(print::all(to, written(&self.sent)));
        let told = told.and(to.write_all(b"; tally"));
        told.and(print::all(to, &self.set.tally.totals()))
    }

    // Some slots with the same offers; the last is shown.
    pub fn show_slots<W: Write>(&mut self, to: &mut W, times: u32, offers: &[u8]) -> Result<()>
        ensures { SameLengths self.old.set self.new.set }
    {
        match self.slots(times, offers).answer {
            Ok(k) => {
                let told = to.write_all(b"sent");
                let told = told.and(print::all(to, &[k]));
                let told = told.and(self.print_results(to));
                told.and(end_line(to, self.is_kept(RUN_NUMBERS)))
            }
            Err(refusal) => {
                let told = print::refusal(to, refusal.number(), refusal.place);
                let told = told.and(self.print_results(to));
                told.and(end_line(to, self.is_kept(0)))
            }
        }
    }
}
