// Opens a run: the refusals 13, 1 to 11 and 12, or the run before slot 1 in a lent slice of numbers.
#![tactic(auto)]

ghost use Rattle.std.specs.Prelude.{◌≤◌, length};
ghost use Rattle.verdict.specs.Verdict.{Judges};
ghost use Rattle.layout.specs.Layout.{run_numbers};
ghost use Rattle.opening.specs.Open.{told, Opens};

use layout::RUN_NUMBERS;
use refusal::{Cause, Refusal};
use sheet::whole::Sheet;
use verdict::{Answer, Verdict};

mod writing;

// An opening, and beside it the verdict on the sheet with its figures.
#[derive(Clone, Copy)]
pub struct JudgedOpening {
    // Opened: the run stands before slot 1.
    pub opening: Result<(), Refusal>,
    pub answer: Answer,
}

// Opens a run of a sheet that reads. Not inlined: its caller would copy the sheet first, and C's archive would need `memcpy` for that.
#[inline(never)]
fn open_sheet(sheet: &Sheet<'_>, run: &mut [u32]) -> JudgedOpening
    requires { run_numbers ≤ length run.old }
    ensures { Opens sheet.now.bytes.now run.old run.new (told result.opening) × Judges sheet.now.bytes.now result.answer.verdict result.answer.figures }
{
    let answer = verdict::judge_sheet(sheet);
    let opening = match answer.verdict {
        Verdict::Passed(_, _) => {
            writing::write_run(run, sheet);
            Ok(())
        }
        Verdict::Failed(t) => Err(Cause::Fails.at(t.0)),
        Verdict::Unreadable(refusal) => Err(refusal),
    };
    JudgedOpening { opening, answer }
}

// Opens a run in a slice that is long enough. A refused call writes nothing.
pub fn open_judged(bytes: &[u8], run: &mut [u32]) -> JudgedOpening
    requires { run_numbers ≤ length run.old }
    ensures { Opens bytes.now run.old run.new (told result.opening) × Judges bytes.now result.answer.verdict result.answer.figures }
{
    match Sheet::of(bytes) {
        Ok(sheet) => open_sheet(&sheet, run),
        Err(refusal) => JudgedOpening {
            opening: Err(refusal),
            answer: Answer::unreadable(refusal),
        },
    }
}

// Opens a run: any bytes, any slice. A refused call writes nothing.
pub fn open(bytes: &[u8], run: &mut [u32]) -> Result<(), Refusal>
    ensures { Opens bytes.now run.old run.new (told result) }
{
    if run.len() < RUN_NUMBERS {
        return Err(Cause::RunTooShort.at(0));
    }
    open_judged(bytes, run).opening
}
