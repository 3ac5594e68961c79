// The tally of a run: a slot's sums, told before anything is written, and the six totals brought up to date.
ghost use Rattle.std.specs.Prelude.{◌≡◌, ◌+◌, ◌≤◌, min, length};
ghost use Rattle.run.specs.Totals.{six_totals, tally_of};
ghost use Rattle.run.specs.Summed.{AllSharing, sums_of, Small};
ghost use Rattle.run.specs.Brought.{most_total, brought_up};

use layout::{SENT_AT, TAKEN_AT};

// The six totals, in packets.
#[derive(Clone, Copy)]
pub struct Tally {
    pub offered: u32,
    pub taken_in: u32,
    pub over: u32,
    pub no_room: u32,
    pub sent: u32,
    pub waiting: u32,
}

// Before a run's first slot.
pub const NO_PACKETS: Tally = Tally {
    offered: 0,
    taken_in: 0,
    over: 0,
    no_room: 0,
    sent: 0,
    waiting: 0,
};

// The tally of six totals, in the order in which they are told.
impl From<[u32; 6]> for Tally {
    ghost from_gives = { λ totals tally. tally ≡ tally_of totals };

    fn from(totals: [u32; 6]) -> Tally {
        let [offered, taken_in, over, no_room, sent, waiting] = totals;
        Tally {
            offered,
            taken_in,
            over,
            no_room,
            sent,
            waiting,
        }
    }
}

impl Tally {
    // The six totals in that order.
    pub fn totals(self) -> [u32; 6]
        ensures { result ≡ six_totals self }
    {
        [
            self.offered,
            self.taken_in,
            self.over,
            self.no_room,
            self.sent,
            self.waiting,
        ]
    }
}

// A slot's sums over all sessions, in packets; `waiting` are those that wait before the slot. Five names are a tally's too: a struct of their own would only nest the six totals that callers read.
#[derive(Clone, Copy)]
pub struct Sums {
    pub offered: u32,
    pub taken_in: u32,
    pub over: u32,
    pub no_room: u32,
    pub waiting: u32,
}

// The slot's sums over all sessions, to each of which a number of packets is offered; nothing is written.
pub fn sum_up(run: &[u32], offers: &[u8]) -> Sums
    requires { AllSharing run.now (length offers.now) }
    ensures { (result ≡ sums_of run.now offers.now (length offers.now)) × Small result }
{
    let mut sums = Sums {
        offered: 0,
        taken_in: 0,
        over: 0,
        no_room: 0,
        waiting: 0,
    };
    for (session, offer) in offers.iter().enumerate() {
        let block = layout::block(run, session);
        let offered = u32::from(*offer);
        let share = intake::shares(block, offered);
        sums.offered += offered;
        sums.taken_in += share.taken;
        sums.over += share.over;
        sums.no_room += share.no_room;
        sums.waiting += block[TAKEN_AT] - block[SENT_AT];
    }
    sums
}

// The tally brought up to date by a slot's sums: five totals are added to, the packets waiting are set. None where a total would pass what 32 bits hold.
pub fn brought_up(tally: Tally, sums: Sums, capacity: u32) -> Option<Tally>
    requires { sums.waiting + sums.taken_in ≤ most_total }
    ensures { result ≡ brought_up tally sums capacity }
{
    let waiting = sums.waiting + sums.taken_in;
    let sent = capacity.min(waiting);
    Some(Tally {
        offered: tally.offered.checked_add(sums.offered)?,
        taken_in: tally.taken_in.checked_add(sums.taken_in)?,
        over: tally.over.checked_add(sums.over)?,
        no_room: tally.no_room.checked_add(sums.no_room)?,
        sent: tally.sent.checked_add(sent)?,
        waiting: waiting - sent,
    })
}
