// The entry points for C: opening, a slot and the verdict, by numbers and slices alone. Each puts its answer into a lent slice; where a slice for it is too short it does nothing and gives false.
#![tactic(auto)]

ghost use Rattle.clib.specs.Told.{OpensInto, SlotsInto, JudgesInto};

use verdict::Verdict;

mod numbers;

// The numbers of an answer to opening or a slot, of a tally, and of an answer to judging.
const ANSWER_NUMBERS: usize = 2;

const TALLY_NUMBERS: usize = 6;

const JUDGED_NUMBERS: usize = 19;

// The figures stand behind the case and its two numbers.
const FIGURES_AT: usize = 3;

// Opens a run. The answer is 0 and 0, or the refusal's number and place.
#[unsafe(no_mangle)]
pub extern "C" fn pohlatant_open(bytes: &[u8], run: &mut [u32], answer: &mut [u32]) -> bool
    ensures { OpensInto bytes.now run.old answer.old run.new answer.new result }
{
    if answer.len() < ANSWER_NUMBERS {
        return false;
    }
    let told = match opening::open(bytes, run) {
        Ok(()) => [0, 0],
        Err(refusal) => [refusal.number(), refusal.place],
    };
    numbers::put(answer, 0, &told);
    true
}

// One slot. The tally's six totals stand in the order offered, taken in, over, no room, sent, waiting. The answer is 0 and how many packets were sent, or the refusal's number and place.
#[unsafe(no_mangle)]
pub extern "C" fn pohlatant_slot(
    run: &mut [u32],
    offers: &[u8],
    outcomes: &mut [u32],
    sent: &mut [u32],
    tally: &mut [u32],
    answer: &mut [u32],
) -> bool
    ensures { SlotsInto run.old offers.now outcomes.old sent.old tally.old answer.old run.new outcomes.new sent.new tally.new answer.new result }
{
    if tally.len() < TALLY_NUMBERS {
        return false;
    }
    if answer.len() < ANSWER_NUMBERS {
        return false;
    }
    let before = numbers::tally_of(tally);
    let slotted = run::slot_by_value(run, offers, outcomes, sent, before);
    let told = match slotted.answer {
        Ok(count) => [0, count],
        Err(refusal) => [refusal.number(), refusal.place],
    };
    numbers::put(tally, 0, &slotted.tally.totals());
    numbers::put(answer, 0, &told);
    true
}

// Judges a sheet. The answer is the case with two numbers (0, slack and its slot count; 1, the failing slot count and 0; 2, the refusal's number and place) and the sixteen figures.
#[unsafe(no_mangle)]
pub extern "C" fn pohlatant_judge(bytes: &[u8], answer: &mut [u32]) -> bool
    ensures { JudgesInto bytes.now answer.old answer.new result }
{
    if answer.len() < JUDGED_NUMBERS {
        return false;
    }
    let judged = verdict::judge(bytes);
    let told = match judged.verdict {
        Verdict::Passed(slack, t) => [0, slack.0, t.0],
        Verdict::Failed(t) => [1, t.0, 0],
        Verdict::Unreadable(refusal) => [2, refusal.number(), refusal.place],
    };
    numbers::put(answer, FIGURES_AT, &numbers::figures_of(judged.figures));
    numbers::put(answer, 0, &told);
    true
}
