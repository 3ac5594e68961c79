// The run of a link, slot by slot, in a lent slice of numbers.
#![tactic(auto)]

ghost use Rattle.run.specs.Why.{Why};
ghost use Rattle.run.specs.Slot.{told, why_of, Steps};
ghost use Rattle.run.specs.Exact.{Promises};

use intakes::OUTCOME_NUMBERS;
use layout::{CAPACITY_AT, COUNT_AT, DONE_AT, MOST_SLOTS, PERIOD_AT, RUN_NUMBERS};
use refusal::{Cause, Refusal};
use send::NOTE_NUMBERS;
use tally::Tally;

pub mod intakes;
pub mod tally;

// What a slot answers, how many packets were sent or why it is refused, and the tally after it.
#[derive(Clone, Copy)]
pub struct Slotted {
    pub answer: Result<u32, Refusal>,
    pub tally: Tally,
}

// May a slot be run, but for the tally? Else the first of the refusals 13 to 17 that applies.
fn may_run(run: &[u32], offers: &[u8], outcomes: usize, sent: usize) -> Result<(), Cause>
    ensures { Why run.now offers.now outcomes sent (why_of result) }
{
    if run.len() < RUN_NUMBERS {
        return Err(Cause::RunTooShort);
    }
    if !guard::opened(run) {
        return Err(Cause::NoRun);
    }
    let count = run[COUNT_AT] as usize;
    let capacity = run[CAPACITY_AT] as usize;
    if offers.len() != count {
        return Err(Cause::Offers);
    }
    if outcomes < OUTCOME_NUMBERS * count {
        return Err(Cause::ResultsTooShort);
    }
    if sent < NOTE_NUMBERS * capacity {
        return Err(Cause::ResultsTooShort);
    }
    let left = run[DONE_AT] < MOST_SLOTS;
    if !left {
        return Err(Cause::SlotsDone);
    }
    Ok(())
}

// One slot: how many packets were sent, and the tally after it; or why it is refused, and then nothing is written.
fn step(
    run: &mut [u32],
    offers: &[u8],
    outcomes: &mut [u32],
    sent: &mut [u32],
    tally: Tally,
) -> Result<(u32, Tally), Cause>
    ensures { Steps run.old offers.now outcomes.old sent.old tally run.new outcomes.new sent.new result }
{
    may_run(run, offers, outcomes.len(), sent.len())?;
    let capacity = run[CAPACITY_AT];
    let period = run[PERIOD_AT] as usize;
    let done = run[DONE_AT];
    let sums = tally::sum_up(run, offers);
    let after = tally::brought_up(tally, sums, capacity).ok_or(Cause::TallyFull)?;
    intakes::intake_all(run, offers, outcomes, period, done);
    let k = send::send(run, sent, offers.len(), capacity as usize);
    run[DONE_AT] = done + 1;
    Ok((k as u32, after))
}

// One slot: any slices, any tally. A refused call writes nothing and gives the tally back as it came.
pub fn slot_by_value(
    run: &mut [u32],
    offers: &[u8],
    outcomes: &mut [u32],
    sent: &mut [u32],
    tally: Tally,
) -> Slotted
    ensures { Promises run.old offers.now outcomes.old sent.old tally run.new outcomes.new sent.new result.tally (told result.answer) }
{
    match step(run, offers, outcomes, sent, tally) {
        Ok((count, after)) => Slotted {
            answer: Ok(count),
            tally: after,
        },
        Err(cause) => Slotted {
            answer: Err(Refusal::from(cause)),
            tally,
        },
    }
}

// One slot: any slices, any tally. A refused call leaves the slices and the tally as they came.
pub fn slot(
    run: &mut [u32],
    offers: &[u8],
    outcomes: &mut [u32],
    sent: &mut [u32],
    tally: &mut Tally,
) -> Result<u32, Refusal>
    ensures { Promises run.old offers.now outcomes.old sent.old tally.old run.new outcomes.new sent.new tally.new (told result) }
{
    let before = *tally;
    let slotted = slot_by_value(run, offers, outcomes, sent, before);
    let after = slotted.tally;
    *tally = after;
    slotted.answer
}
