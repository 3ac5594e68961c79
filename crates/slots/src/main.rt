// Opens runs and runs their slots from a script on standard input, and writes what each call answers and leaves: what a person can check against 01 by eye.
//
// The script has no more than 65,536 bytes; what follows is not read. It has one command to a line. A line that starts with '#' is written
// out as it stands, and an empty line is passed over. BYTES are words of hex digits (crates/text/src/hex.rt); numbers are decimal.
//   sheet BYTES                  opens a run on the sheet of these bytes
//   slot BYTES                   one slot; the bytes are the offers, one of each session
//   repeat N BYTES               N slots with these offers, of which only the last is answered
//   lengths RUN OUTCOMES SENT    how many numbers of each slice are lent from here on; all of them, 12296 56 200, at the start and where more are named
//   tally O T V N S W            sets the totals: offered, taken in, over, no room, sent and waiting; all 0 at the start
//   put PLACE VALUE              writes a number into the run's slice
//   zeros                        makes the run's slice all zeros, as at the start
// A line that is none of these gives "unclear". A sheet's answer is "opened" or "refused N PLACE"; a slot's is "sent K" or "refused N 0", then the
// outcomes (taken in, over and no room of each session), the packets sent (session, packet and deadline of each) and the tally, with its totals
// in the order above. Both result slices hold 4294967295 throughout before the slot, and all that is not so after it is shown. Last comes "kept" where
// the run's slice is as it was before, past 12,288 numbers after an answer and throughout after a refusal; else "touched".
#![tactic(auto)]

mod bench;
mod command;
mod settings;
mod shown;

use bench::{Bench, LINE_ROOM};
use text::{lines, read};

// The most bytes of a script that are read.
const TEXT_BYTES: usize = 65536;

fn main(rt: HostRuntime) {
    let mut text = [0u8; TEXT_BYTES];
    let got = read::read_full(&mut rt.stdin(), &mut text);
    let mut bench = Bench::new();
    let mut room = [0u8; LINE_ROOM];
    // Nobody is there to be told what could not be written.
    let _ = lines::run_lines(
        &mut rt.stdout(),
        &text[..got],
        |to, line| bench.run_line(to, line, &mut room),
    );
}
