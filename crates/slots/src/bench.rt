// What a script works on: the slices that the calls are lent, and the settings for them.
ghost use Rattle.std.specs.Prelude.{◌≡◌, length, min, take};
ghost use Rattle.guard.specs.Tells.{Tells};
ghost use Rattle.slots.specs.Same.{SameFrom};
ghost use Rattle.slots.specs.Sets.{SameLengths, Sets};

use crate::command::{Command, command_of};
use crate::settings::Settings;
use refusal::Refusal;
use run::Slotted;
use run::tally::NO_PACKETS;
use std::io::{self, Write};
use text::print;

// The slices: a run, sixteen sessions' outcomes and 64 packets sent, and 8 numbers more each. Fixed arrays: no memory is asked for.
const RUN_ROOM: usize = 12296;

const OUTCOMES_ROOM: usize = 56;

const SENT_ROOM: usize = 200;

// The most bytes that a line holds; a longer sheet is cut off there, and is refused all the same.
pub const LINE_ROOM: usize = 8192;

// What stands in the result slices before a slot: no slot writes it, since its numbers are far smaller.
pub const FILLER: u32 = 4294967295;

// The numbers of a slice that a call is lent: `n`, or all of them.
fn lent(numbers: &mut [u32], n: usize) -> &mut [u32]
    ensures { result.now ≡ take (min n (length numbers.old)) numbers.old }
{
    let n = n.min(numbers.len());
    &mut numbers[..n]
}

#[derive(Drop)]
pub struct Bench {
    pub run: [u32; RUN_ROOM],
    // The run's slice as it was before the last call.
    pub before: [u32; RUN_ROOM],
    pub outcomes: [u32; OUTCOMES_ROOM],
    pub sent: [u32; SENT_ROOM],
    pub set: Settings,
}

impl Bench {
    // All of each slice is lent, and the tally begins at zero.
    pub fn new() -> Bench
        ensures { result.set ≡ record { run = 12296; outcomes = 56; sent = 200; tally = record { offered = 0; taken_in = 0; over = 0; no_room = 0; sent = 0; waiting = 0 } } }
    {
        Bench {
            run: [0; RUN_ROOM],
            before: [0; RUN_ROOM],
            outcomes: [0; OUTCOMES_ROOM],
            sent: [0; SENT_ROOM],
            set: Settings {
                run: RUN_ROOM,
                outcomes: OUTCOMES_ROOM,
                sent: SENT_ROOM,
                tally: NO_PACKETS,
            },
        }
    }

    // Is the run's slice as it was before the last call, from a number on?
    pub fn is_kept(&self, from: usize) -> bool
        ensures { Tells result (SameFrom self.now.run self.now.before from) }
    {
        RUN_ROOM <= from || self.run[from..] == self.before[from..]
    }

    fn note_run(&mut self)
        ensures { (self.new.before ≡ self.old.run) × (self.new.run ≡ self.old.run) × (self.new.set ≡ self.old.set) }
    {
        self.before.copy_from_slice(&self.run);
    }

    pub fn open(&mut self, sheet: &[u8]) -> Result<(), Refusal>
        ensures { (self.new.before ≡ self.old.run) × (self.new.set ≡ self.old.set) }
    {
        self.note_run();
        opening::open(sheet, lent(&mut self.run, self.set.run))
    }

    // One slot; the tally that it leaves is set for the next.
    fn slot(&mut self, offers: &[u8]) -> Slotted
        ensures { (self.new.set.tally ≡ result.tally) × SameLengths self.old.set self.new.set × (self.new.before ≡ self.old.before) }
    {
        let Bench {
            run,
            outcomes,
            sent,
            set,
            ..
        } = self;
        let slotted = run::slot_by_value(
            lent(run, set.run),
            offers,
            lent(outcomes, set.outcomes),
            lent(sent, set.sent),
            set.tally,
        );
        set.tally = slotted.tally;
        slotted
    }

    // Some slots with the same offers. Before the last the run is noted, and the result slices are filled.
    pub fn slots(&mut self, times: u32, offers: &[u8]) -> Slotted
        ensures { (self.new.set.tally ≡ result.tally) × SameLengths self.old.set self.new.set }
    {
        for _ in 1..times {
            let _ = self.slot(offers);
        }
        self.note_run();
        self.outcomes.fill(FILLER);
        self.sent.fill(FILLER);
        self.slot(offers)
    }

    // Runs a command, or tells that a line is none.
    fn run<W: Write>(&mut self, to: &mut W, command: Option<Command<'_>>) -> io::Result<()>
        ensures { Sets self.old.set command.entry self.new.set }
    {
        match command {
            Some(Command::Sheet(sheet)) => return self.show_opening(to, sheet),
            Some(Command::Slots(times, offers)) => return self.show_slots(to, times.get(), offers),
            Some(Command::Lengths(lengths)) => self.set = self.set.with_lengths(lengths),
            Some(Command::Tally(totals)) => self.set = self.set.with_tally(totals),
            Some(Command::Put(place, value)) if place < RUN_ROOM => self.run[place] = value,
            Some(Command::Zeros) => self.run.fill(0),
            Some(Command::Put(..)) | None => return print::write_unclear(to),
        }
        Ok(())
    }

    // Runs the command of a line; the room takes the bytes that it has.
    pub fn run_line<W: Write>(
        &mut self,
        to: &mut W,
        line: &[u8],
        room: &mut [u8; LINE_ROOM],
    ) -> io::Result<()> {
        self.run(to, command_of(line, room))
    }
}
