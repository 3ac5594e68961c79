// The first line: a run is opened on the sheet, and the verdict or the refusal is put into the page.
ghost use Rattle.std.specs.Prelude.{◌≡◌, ◌+◌, ◌≤◌, length};
ghost use Rattle.console.specs.Text.{line_bytes};
ghost use Rattle.verdict.specs.Verdict.{told, Judges};
ghost use Rattle.opening.specs.Open.{opened, answer_by};
ghost use Rattle.slotrun.specs.Shows.{FirstIs, Begins};

use crate::lines;
use console::text::Text;
use layout::RUN_NUMBERS;
use refusal::Refusal;
use verdict::{Answer, Verdict};

// Where the number of sessions stands in a sheet.
const COUNT_AT: usize = 7;

// Puts the line of a sheet that passes, and answers how many sessions it has.
fn pass<const N: usize>(bytes: &[u8], answer: Answer, page: &mut Text<N>) -> Result<usize, Refusal>
    requires { Judges bytes.now answer.verdict answer.figures × (answer_by (told answer.verdict) ≡ opened) × (length page.old + line_bytes ≤ N) }
    ensures { FirstIs opened bytes.now page.old page.new result }
{
    let Verdict::Passed(slack, t) = answer.verdict else {
        unreachable!()
    };
    let count = words::byte(bytes, COUNT_AT) as usize;
    lines::put_passed(page, slack, t, &answer.figures, count);
    Ok(count)
}

// Opens a run on the sheet and puts the first line into the page. The answer is the number of sessions, or the refusal.
pub fn begin<const N: usize>(
    bytes: &[u8],
    run: &mut [u32; RUN_NUMBERS],
    page: &mut Text<N>,
) -> Result<usize, Refusal>
    requires { length page.old + line_bytes ≤ N }
    ensures { Begins bytes.now run.old page.old run.new page.new result }
{
    let opened = opening::open_judged(bytes, run);
    if let Err(refusal) = opened.opening {
        page.put_refused(refusal.number(), refusal.place);
        return Err(refusal);
    }
    pass(bytes, opened.answer, page)
}
