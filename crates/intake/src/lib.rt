// The intake of one session: what is taken in of the packets offered in a slot, their deadlines, and what lies ahead one slot further.
#![tactic(auto)]

ghost use Rattle.std.specs.Prelude.{◌≡◌, ◌+◌, ◌<◌, ◌≤◌, min, length, get_or};
ghost use Rattle.curve.specs.Lookup.{curve_with};
ghost use Rattle.intake.specs.Advance.{Advances, advanced};
ghost use Rattle.intake.specs.Share.{admitted, share_of, free_of};
ghost use Rattle.intake.specs.Append.{appended};
ghost use Rattle.intake.specs.Intake.{intake_of};
ghost use Rattle.layout.specs.Sound.{Sound, most_slots};
ghost use Rattle.layout.specs.Layout.{block_numbers, room_at, taken_at, sent_at, envelope_ahead_at};

use curve::table::Numbers;
use curve::{Packets, Slots};
use layout::{
    DEADLINES_AT, ENVELOPE_AHEAD_AT, ENVELOPE_AT, ENVELOPE_LENGTH_AT, ENVELOPE_RATE_AT, RING,
    ROOM_AT, SENT_AT, SERVICE_AHEAD_AT, SERVICE_AT, SERVICE_LENGTH_AT, SERVICE_RATE_AT, TAKEN_AT,
};

// How the packets offered in a slot are shared out, in packets: taken in, above the headroom, within it but with no room.
#[derive(Clone, Copy)]
pub struct Share {
    pub taken: u32,
    pub over: u32,
    pub no_room: u32,
}

// What lies ahead of a curve, one slot further: `own` is the curve's own table, and `total` packets are taken in.
fn advance(own: &[u32], ahead: &mut [u32], period: usize, rate: u32, total: u32)
    requires { Advances own.now ahead.old period rate total }
    ensures { ahead.new ≡ advanced period (curve_with ahead.old rate) total own.now }
{
    // past the table the tail law gives the number after the last
    let join = ahead[ahead.len() - period] + rate;
    let end = ahead.len() - 1;
    for j in 0..end {
        ahead[j] = ahead[j + 1].min(total + own[j]);
    }
    // the last number stands apart: so the loop asks nothing, and several numbers are made in one step
    ahead[end] = join.min(total + own[end]);
}

// Of the offered packets those above the headroom are turned away, then those above the free room.
fn admit(offered: u32, headroom: u32, free: u32) -> Share
    ensures { result ≡ admitted offered headroom free }
{
    let within = offered.min(headroom);
    let taken = within.min(free);
    Share {
        taken,
        over: offered - within,
        no_room: within - taken,
    }
}

// What a block would take in of the offered packets; nothing is written.
pub fn shares(block: &[u32], offered: u32) -> Share
    requires block_len { length block.now ≡ block_numbers }
    requires taken_at_bound { get_or block.now taken_at 0 ≤ get_or block.now envelope_ahead_at 0 }
    requires sent_at_bound { get_or block.now sent_at 0 ≤ get_or block.now taken_at 0 }
    requires taken_at_bound_2 { get_or block.now taken_at 0 ≤ get_or block.now sent_at 0 + get_or block.now room_at 0 }
    ensures { result ≡ share_of block.now offered }
{
    // packets taken in so far, and those of them that wait
    let taken = block[TAKEN_AT];
    let waiting = taken - block[SENT_AT];
    admit(
        offered,
        block[ENVELOPE_AHEAD_AT] - taken,
        block[ROOM_AT] - waiting,
    )
}

// The deadlines of the next `taken` packets go into the ring; `done` slots are done. The block, the period and the slots done stay apart: a struct of them would be made anew round each lent block, and its fact be said of it as it is said of them.
fn append(block: &mut [u32], period: usize, done: u32, taken: u32)
    requires { Sound block.old period done × (done < most_slots) × (taken ≤ free_of block.old) }
    ensures { block.new ≡ appended block.old period done taken }
{
    let from = SERVICE_AHEAD_AT;
    let length = block[SERVICE_LENGTH_AT];
    let to = from + length as usize;
    let period = Slots(period as u32);
    let rate = Packets(block[SERVICE_RATE_AT]);
    let before = block[TAKEN_AT];
    // deadlines never fall: each look-up begins where the one before it ended
    let mut start: usize = 0;
    'packets: for q in 0..taken {
        // the packet's number; packets count from 1
        let packet = before + (q + 1);
        let ahead = Numbers(&block[from..to]);
        let slots = curve::delay_from(&ahead, period, rate, Packets(packet), start).0;
        // its deadline is a slot: those done, and as many more
        let place = DEADLINES_AT + ((packet - 1) % RING) as usize;
        block[place] = done + slots;
        start = (slots - 1).min(length) as usize;
    }
}

// One slot's intake of one session, after `done` slots: the shares of the offered packets, the deadlines of those taken in, and what lies ahead one slot further.
pub fn intake(block: &mut [u32], period: usize, done: u32, offered: u32) -> Share
    requires { Sound block.old period done × (done < most_slots) }
    ensures { (block.new ≡ intake_of block.old period done offered) × (result ≡ share_of block.old offered) }
{
    let service = block[SERVICE_LENGTH_AT] as usize;
    let envelope = block[ENVELOPE_LENGTH_AT] as usize;
    let service_rate = block[SERVICE_RATE_AT];
    let envelope_rate = block[ENVELOPE_RATE_AT];
    let share = shares(block, offered);
    // packets taken in, with this slot's
    let total = block[TAKEN_AT] + share.taken;
    append(block, period, done, share.taken);
    block[TAKEN_AT] = total;
    // the curves' own tables, and what lies ahead of them
    let (own, ahead) = block.split_at_mut(SERVICE_AHEAD_AT);
    advance(
        &own[SERVICE_AT..SERVICE_AT + service],
        &mut ahead[..service],
        period,
        service_rate,
        total,
    );
    let (_, ahead) = ahead.split_at_mut(ENVELOPE_AHEAD_AT - SERVICE_AHEAD_AT);
    advance(
        &own[ENVELOPE_AT..ENVELOPE_AT + envelope],
        &mut ahead[..envelope],
        period,
        envelope_rate,
        total,
    );
    share
}
