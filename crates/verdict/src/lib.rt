// The verdict on sheet bytes: a sheet passes exactly when the sum of (b*S)(t) over its sessions is at most c·t at every positive slot count. It works on the bytes in place.
#![tactic(auto)]

ghost use Rattle.std.specs.Prelude.{◌≡◌};
ghost use Rattle.verdict.specs.Verdict.{Judges};
ghost use Rattle.verdict.specs.Figured.{no_figures};

use curve::{Packets, Slots};
use refusal::Refusal;
use sheet::whole::Sheet;

mod figures;
mod search;
mod window;

#[derive(Clone, Copy)]
pub enum Verdict {
    // The slack, and the least slot count that gives it.
    Passed(Packets, Slots),
    // The least slot count at which the inequality fails.
    Failed(Slots),
    Unreadable(Refusal),
}

#[derive(Clone, Copy)]
pub struct Answer {
    pub verdict: Verdict,
    // The delay figure of each session, 0 past the last: sixteen by value, the form that 01 names.
    pub figures: [Slots; 16],
}

impl Answer {
    // The answer to bytes that do not read: no session has a figure.
    pub fn unreadable(refusal: Refusal) -> Answer
        ensures { result ≡ record { verdict = Verdict.Unreadable refusal; figures = no_figures } }
    {
        Answer {
            verdict: Verdict::Unreadable(refusal),
            figures: [Slots(0); 16],
        }
    }
}

// Judges a sheet that reads.
pub fn judge_sheet(sheet: &Sheet<'_>) -> Answer
    ensures { Judges sheet.now.bytes.now result.verdict result.figures }
{
    Answer {
        verdict: search::search(sheet),
        figures: figures::all_figures(sheet),
    }
}

// Judges a sheet: any bytes, any length.
pub fn judge(bytes: &[u8]) -> Answer
    ensures { Judges bytes.now result.verdict result.figures }
{
    match Sheet::of(bytes) {
        Ok(sheet) => judge_sheet(&sheet),
        Err(refusal) => Answer::unreadable(refusal),
    }
}
