// The test of refusal 14: is there an opened run in the slice? It reads any numbers at all, and no sum of it can wrap on them.
#![tactic(auto)]

ghost use Rattle.std.specs.Prelude.{◌≡◌, ℕ, ◌+◌, ◌≤◌, ◌<◌, length, slice_index, EachIndex};
ghost use Rattle.sheet.specs.Limits.{longest_period, most_sessions};
ghost use Rattle.layout.specs.Layout.{run_numbers, block_numbers, block};
ghost use Rattle.layout.specs.Sound.{most_slots, Numbers, Sound};
ghost use Rattle.guard.specs.Tells.{Tells};
ghost use Rattle.guard.specs.Opened.{Opened};
ghost use Rattle.guard.specs.Test.{Steps, Climbing, Fixed};

use layout::{
    CAPACITY_AT, COUNT_AT, DONE_AT, ENVELOPE_AHEAD_AT, ENVELOPE_AT, ENVELOPE_LENGTH_AT,
    ENVELOPE_RATE_AT, MARK, MARK_AT, MOST_SLOTS, PERIOD_AT, ROOM_AT, SENT_AT, SERVICE_AHEAD_AT,
    SERVICE_AT, SERVICE_LENGTH_AT, SERVICE_RATE_AT, TAKEN_AT,
};
use sheet::limits::{
    LARGEST_RATE, LARGEST_ROOM, LARGEST_VALUE, LONGEST_PERIOD, LONGEST_TABLE, MOST_CAPACITY,
    MOST_SESSIONS,
};

// Nothing that lies ahead passes this.
const MOST_AHEAD: u32 = 64001000;

// None of the numbers is above `most`.
fn small(numbers: &[u32], most: u32) -> bool
    ensures { Tells result (EachIndex numbers.now (λ i. slice_index numbers.now i ≤ most)) }
{
    // no way out of the loop: so several numbers are looked at in one step
    let mut all = true;
    for number in numbers {
        all &= *number <= most;
    }
    all
}

// The numbers never fall.
fn rises(numbers: &[u32]) -> bool
    ensures { Tells result (Steps numbers.now (length numbers.now)) }
{
    // no way out of this loop either
    let mut all = true;
    for pair in numbers.windows(2) {
        all &= pair[0] <= pair[1];
    }
    all
}

// The numbers are a table that never falls, nor at its join with this rate, and none is above `most`.
fn climbs(numbers: &[u32], period: usize, rate: u32, most: u32) -> bool
    requires { (1 ≤ period) × (period ≤ length numbers.now) }
    ensures { Tells result (Climbing numbers.now period rate most) }
{
    let length = numbers.len();
    let last = numbers[length - 1];
    // a difference: the sum at the join could wrap
    let step = last.saturating_sub(numbers[length - period]);
    let bounded = last <= most && step <= rate;
    bounded && rises(numbers)
}

// The lengths of a block's tables, its room and its rates.
fn fixed(block: &[u32], period: u32) -> bool
    requires { length block.now ≡ block_numbers }
    ensures { Tells result (Fixed block.now period) }
{
    let lengths = period..=LONGEST_TABLE;
    lengths.contains(&block[SERVICE_LENGTH_AT])
        && lengths.contains(&block[ENVELOPE_LENGTH_AT])
        && block[ROOM_AT] <= LARGEST_ROOM
        && (1..=LARGEST_RATE).contains(&block[SERVICE_RATE_AT])
        && block[ENVELOPE_RATE_AT] <= LARGEST_RATE
}

// A block's plain numbers.
fn numbers(block: &[u32], period: u32, done: u32) -> bool
    requires { (length block.now ≡ block_numbers) × (done ≤ most_slots) }
    ensures { Tells result (Numbers block.now period done) }
{
    let taken = block[TAKEN_AT];
    let sent = block[SENT_AT];
    // a difference: the sum of those sent and the room could wrap
    fixed(block, period)
        && sent <= taken
        && sent <= MOST_CAPACITY * done
        && taken.saturating_sub(sent) <= block[ROOM_AT]
        && taken <= block[ENVELOPE_AHEAD_AT]
}

// One block: its numbers and its four tables.
fn sound(block: &[u32], period: usize, done: u32) -> bool
    requires { (length block.now ≡ block_numbers) × (1 ≤ period) × (period ≤ longest_period) × (done ≤ most_slots) }
    ensures { Tells result (Sound block.now period done) }
{
    if !numbers(block, period as u32, done) {
        return false;
    }
    let service = block[SERVICE_LENGTH_AT] as usize;
    let envelope = block[ENVELOPE_LENGTH_AT] as usize;
    small(&block[SERVICE_AT..SERVICE_AT + service], LARGEST_VALUE)
        && small(&block[ENVELOPE_AT..ENVELOPE_AT + envelope], LARGEST_VALUE)
        && climbs(
            &block[SERVICE_AHEAD_AT..SERVICE_AHEAD_AT + service],
            period,
            block[SERVICE_RATE_AT],
            MOST_AHEAD,
        )
        && climbs(
            &block[ENVELOPE_AHEAD_AT..ENVELOPE_AHEAD_AT + envelope],
            period,
            block[ENVELOPE_RATE_AT],
            MOST_AHEAD,
        )
}

// The blocks of the first `count` sessions.
fn sound_blocks(run: &[u32], count: usize, period: usize, done: u32) -> bool
    requires { (count ≤ most_sessions) × (run_numbers ≤ length run.now) × (1 ≤ period) × (period ≤ longest_period) × (done ≤ most_slots) }
    ensures { Tells result ((i : ℕ) → i < count → Sound (block run.now i) period done) }
{
    for session in 0..count {
        if !sound(layout::block(run, session), period, done) {
            return false;
        }
    }
    true
}

// Is there an opened run in the slice?
pub fn opened(run: &[u32]) -> bool
    requires { run_numbers ≤ length run.now }
    ensures { Tells result (Opened run.now) }
{
    run[MARK_AT] == MARK
        && (1..=MOST_CAPACITY).contains(&run[CAPACITY_AT])
        && (1..=LONGEST_PERIOD).contains(&run[PERIOD_AT])
        && (1..=MOST_SESSIONS).contains(&run[COUNT_AT])
        && run[DONE_AT] <= MOST_SLOTS
        && sound_blocks(
            run,
            run[COUNT_AT] as usize,
            run[PERIOD_AT] as usize,
            run[DONE_AT],
        )
}
