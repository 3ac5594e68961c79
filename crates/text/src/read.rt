// The reading of a text from standard input.
ghost use Rattle.text.specs.Lines.{Counts};

use std::io::Read;

// Reads until the room is full, the input ends or a read fails, and answers how many bytes came; how far a read goes is known only afterwards. Not `console`'s
// `read_full`: here what came before a failed read still counts, and nothing is waited for.
pub fn read_full<R: Read>(input: &mut R, room: &mut [u8]) -> usize
    ensures { Counts result room.new }
{
    let mut done = 0;
    while done < room.len() {
        match input.read(&mut room[done..]) {
            Ok(n @ 1..) => done += n,
            _ => return done,
        }
    }
    done
}
