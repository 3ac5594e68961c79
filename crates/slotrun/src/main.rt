// `slotrun` reads a sheet and then M bytes a slot from standard input, and prints the passed line, a line for each packet sent, and the total.
//
// A sheet that can't be run gives the one line "refused N PLACE". An unfinished last slot is dropped, and "cut" is printed before the total. A
// refused slot prints its refusal and the total, and ends the run. The sheet, the run, a block of slots and a page of text are all that is held.
// Why something is refused, or what fails, is told in words on standard error.
#![tactic(auto)]

mod first;
mod input;
mod lines;
mod slots;

use console::{arguments, failure};
use refusal::Refusal;
use slots::Printout;

// Prints the lines of a sheet and the slots after it. The answer is the refusal of the sheet or of a slot, if there was one.
fn run_stream(rt: HostRuntime, bytes: &[u8]) -> Result<(), Refusal> {
    let mut printout = Printout::new(rt);
    match first::begin(bytes, &mut printout.run, &mut printout.page.text) {
        Ok(count) => printout.run_slots(count),
        Err(refusal) => {
            printout.write_out();
            Err(refusal)
        }
    }
}

fn main(rt: HostRuntime) {
    if arguments::is_given(&rt, 1) {
        arguments::tell_unknown(
            &rt,
            &mut rt.stderr(),
            1,
            b" (slotrun takes none; bytes come as '< FILE', hex text as a FILE.hex)\n",
        );
        return;
    }
    let mut bytes = [0u8; input::SHEET_BYTES];
    match input::read_sheet(rt, &mut bytes) {
        Ok(n) => {
            let sheet = &bytes[..n];
            if let Err(refusal) = run_stream(rt, sheet) {
                reasons::tell(&mut rt.stderr(), sheet, refusal.number(), refusal.place);
            }
        }
        Err(error) => failure::tell(&mut rt.stderr(), b"standard input", &error),
    }
}
