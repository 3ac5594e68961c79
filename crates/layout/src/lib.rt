// Where each number of a run stands in its slice: a head, and a block for each of sixteen sessions. One lent slice of numbers holds the whole run, the form
// that 01 names; so a block is a part of it and no struct.
#![tactic(auto)]

ghost use Rattle.std.specs.Prelude.{◌≡◌, ◌+◌, ◌<◌, ◌≤◌, length};
ghost use Rattle.sheet.specs.Limits.{most_sessions};
ghost use Rattle.layout.specs.Layout.{run_numbers, block_numbers, block_at, block};

use std::ops::Range;

pub const RUN_NUMBERS: usize = 12288;

pub const HEAD_NUMBERS: usize = 256;

pub const BLOCK_NUMBERS: usize = 752;

// The head.
pub const MARK: u32 = 1396917572;

pub const MARK_AT: usize = 0;

pub const CAPACITY_AT: usize = 1;

pub const PERIOD_AT: usize = 2;

pub const COUNT_AT: usize = 3;

pub const DONE_AT: usize = 4;

// A block.
pub const SERVICE_LENGTH_AT: usize = 0;

pub const ENVELOPE_LENGTH_AT: usize = 1;

pub const ROOM_AT: usize = 2;

pub const SERVICE_RATE_AT: usize = 3;

pub const ENVELOPE_RATE_AT: usize = 4;

pub const TAKEN_AT: usize = 5;

pub const SENT_AT: usize = 6;

pub const SERVICE_AT: usize = 16;

pub const ENVELOPE_AT: usize = 80;

pub const SERVICE_AHEAD_AT: usize = 144;

pub const ENVELOPE_AHEAD_AT: usize = 208;

pub const DEADLINES_AT: usize = 272;

// The deadline of packet N stands at (N-1) mod 256.
pub const RING: u32 = 256;

// A run has at most so many slots.
pub const MOST_SLOTS: u32 = 1000000;

// Where the block of a session stands; sessions count from 0. A block to be written is lent by it, as no function is proved that lends a part of a slice to be written.
pub fn block_range(session: usize) -> Range<usize>
    requires { session < most_sessions }
    ensures { result ≡ record { start = block_at session; end = block_at session + block_numbers } }
{
    let start = HEAD_NUMBERS + session * BLOCK_NUMBERS;
    start..start + BLOCK_NUMBERS
}

// The block of a session.
pub fn block(run: &[u32], session: usize) -> &[u32]
    requires { (session < most_sessions) × (run_numbers ≤ length run.now) }
    ensures value { result.now ≡ block run.now session }
    ensures len { length result.now ≡ block_numbers }
{
    &run[block_range(session)]
}
