// The commands of a script, as its lines name them.
use std::num::NonZeroU32;
use text::{hex, lines, number};

// Numbers and bytes as the line has them; the bytes stand in the room that was lent for them.
#[derive(Clone, Copy)]
pub enum Command<'a> {
    Sheet(&'a [u8]),
    // How many slots, and the offers of each.
    Slots(NonZeroU32, &'a [u8]),
    // The numbers lent of the run's slice, the outcomes' and the packets'.
    Lengths([u32; 3]),
    Tally([u32; 6]),
    // A place in the run's slice, and the number for it.
    Put(usize, u32),
    Zeros,
}

// The command of a line, or nothing where it is none.
pub fn command_of<'a>(line: &[u8], room: &'a mut [u8]) -> Option<Command<'a>> {
    let (word, rest) = lines::cut_before(line, |b| *b == b' ');
    match word {
        b"sheet" => {
            let n = hex::line_bytes(rest, room)?;
            Some(Command::Sheet(&room[..n]))
        }
        b"slot" => {
            let n = hex::line_bytes(rest, room)?;
            Some(Command::Slots(NonZeroU32::MIN, &room[..n]))
        }
        b"repeat" => {
            let (times, offers) = number::next_number(rest)?;
            let times = NonZeroU32::new(times)?;
            let n = hex::line_bytes(offers, room)?;
            Some(Command::Slots(times, &room[..n]))
        }
        b"lengths" => Some(Command::Lengths(number::numbers(rest)?)),
        b"tally" => Some(Command::Tally(number::numbers(rest)?)),
        b"put" => {
            let [place, value] = number::numbers::<2>(rest)?;
            Some(Command::Put(place as usize, value))
        }
        b"zeros" => Some(Command::Zeros),
        _ => None,
    }
}
