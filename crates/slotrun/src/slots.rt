// The slots of the stream, in blocks: each slot is run, and the packets that it sends are printed.
ghost use Rattle.std.specs.Prelude.{◌≡◌, List, [], ℕ, ◌+◌, ◌<◌, ◌≤◌, length};
ghost use Rattle.std.specs.declared.result.Result.{Result};
ghost use Rattle.slotrun.specs.Text.{from_zero};
ghost use Rattle.slotrun.specs.declared.slots.Over.{Over};
ghost use Rattle.slotrun.specs.Shows.{slot_bytes, Shows};
ghost use Rattle.slotrun.specs.Turns.{Goes, HandsOn};

use crate::input::Block;
use crate::lines::{self, NOTES};
use console::failure;
use console::output::{PAGE_BYTES, Page};
use layout::{DONE_AT, RUN_NUMBERS};
use refusal::Refusal;
use run::tally::{NO_PACKETS, Tally};

// Every read brings a byte at least, and a run's 1,000,000 slots and one more, which is refused, have no more than these.
const MOST_READS: usize = 16000016;

// A slot has at most sixteen sessions, and three numbers are told of each. They stand in a fixed array, the form that `slot` takes.
const OUTCOMES: usize = 48;

// The lines of a slot take no more than this: 64 lines, or a refusal.
const SLOT_BYTES: usize = 16384;

// Why a run is over: of an Option, none would have to say that it ended.
#[derive(Clone, Copy)]
pub enum Over {
    // A slot was refused.
    Refused(Refusal),
    // The input ended or failed, or text was lost.
    Ended,
}

// A run with its tally, and the page in which its print-out waits.
#[derive(Drop)]
pub struct Printout {
    rt: HostRuntime,
    pub run: [u32; RUN_NUMBERS],
    tally: Tally,
    pub page: Page<PAGE_BYTES>,
}

impl Printout {
    // Nothing done yet.
    pub fn new(rt: HostRuntime) -> Self
        ensures { (result.page.text ≡ []) × (result.tally ≡ from_zero) }
    {
        Printout {
            rt,
            run: [0; RUN_NUMBERS],
            tally: NO_PACKETS,
            page: Page::new(),
        }
    }

    // Writes what waits in the page.
    pub fn write_out(&mut self)
        ensures { self.new.page.text ≡ [] }
    {
        let rt = self.rt;
        self.page.write_out(&rt, &mut rt.stdout(), &mut rt.stderr());
    }

    // Runs a slot, and puts what it sends or its refusal into the page.
    fn put_slot(&mut self, offers: &[u8]) -> Result<(), Over>
        requires { length self.old.page.text + slot_bytes ≤ 65536 }
        ensures { Shows self.old.run offers.now self.old.tally self.old.page.text self.new.run self.new.tally self.new.page.text result }
    {
        let mut outcomes = [0u32; OUTCOMES];
        let mut notes = [0u32; NOTES];
        let slotted = run::slot_by_value(
            &mut self.run,
            offers,
            &mut outcomes,
            &mut notes,
            self.tally,
        );
        self.tally = slotted.tally;
        match slotted.answer {
            Ok(sent) => {
                let slot = self.run[DONE_AT];
                lines::put_packets(&mut self.page.text, slot, &notes, sent);
                Ok(())
            }
            Err(refusal) => {
                self.page.text.put_refused(refusal.number(), refusal.place);
                Err(Over::Refused(refusal))
            }
        }
    }

    // Runs a slot and prints what it comes to; the page then has room for the next.
    fn run_slot(&mut self, offers: &[u8]) -> Result<(), Over>
        requires { length self.old.page.text + slot_bytes ≤ 65536 }
        ensures room { length self.new.page.text + slot_bytes ≤ 65536 }
        ensures shows { (text : List ℕ) × (ended : Result Unit Over) × Shows self.old.run offers.now self.old.tally self.old.page.text self.new.run self.new.tally text ended × HandsOn ended result }
    {
        let rt = self.rt;
        let done = self.put_slot(offers);
        self.page
            .make_room(&rt, &mut rt.stdout(), &mut rt.stderr(), SLOT_BYTES);
        done?;
        if self.page.lost {
            return Err(Over::Ended);
        }
        Ok(())
    }

    // Runs the whole slots of a block.
    fn run_block(&mut self, block: &Block) -> Result<(), Over>
        requires { length self.old.page.text + slot_bytes ≤ 65536 }
        ensures { length self.new.page.text + slot_bytes ≤ 65536 }
    {
        for offers in block.slots() {
            self.run_slot(offers)?;
        }
        Ok(())
    }

    // Prints the end, where so many bytes of an unfinished slot are left, and with it all that waits in the page.
    fn print_end(&mut self, held: usize)
        requires { length self.old.page.text + 512 ≤ 65536 }
    {
        lines::put_ending(&mut self.page.text, held, self.tally);
        self.write_out();
    }

    // Writes what is ready, waits for input, and runs the slots that come.
    fn take_turn(&mut self, block: &mut Block) -> Result<(), Over>
        requires { block.old.have < block.old.count }
        ensures { Goes block.new.count 65536 block.new.have (length self.new.page.text) result }
    {
        let rt = self.rt;
        self.write_out();
        if self.page.lost {
            return Err(Over::Ended);
        }
        match block.read(rt) {
            Ok(0) => {
                self.print_end(block.have());
                Err(Over::Ended)
            }
            Ok(_) => {
                let ran = self.run_block(block);
                if ran.is_err() {
                    self.print_end(0);
                }
                block.keep_rest();
                ran
            }
            Err(error) => {
                failure::tell(&mut rt.stderr(), b"standard input", &error);
                Err(Over::Ended)
            }
        }
    }

    // Runs the slots of standard input to its end, for a sheet of so many sessions, and prints what they send and the total. The answer is the
    // refusal that ended the run, if one did.
    pub fn run_slots(&mut self, count: usize) -> Result<(), Refusal>
        requires { (1 ≤ count) × (count ≤ 16) }
    {
        let mut block = Block::new(count);
        for _ in 0..MOST_READS {
            match self.take_turn(&mut block) {
                Ok(()) => {}
                Err(Over::Refused(refusal)) => return Err(refusal),
                Err(Over::Ended) => return Ok(()),
            }
        }
        Ok(())
    }
}
