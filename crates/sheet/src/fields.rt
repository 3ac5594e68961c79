// A session taken apart: its curves, whose tables lie in the bytes that start with it, and its room.
ghost use Rattle.std.specs.Prelude.{◌≤◌, length};
ghost use Rattle.sheet.specs.Bytes.{record_bytes, session_of};
ghost use Rattle.sheet.specs.Told.{SessionIn, Lies};

use crate::limits::FIXED_BYTES;
use curve::table::Words;
use curve::{Curve, Packets};

#[derive(Clone, Copy)]
pub struct Session<'a> {
    pub service: Curve<'a>,
    pub envelope: Curve<'a>,
    pub room: Packets,
}

// The session whose bytes start with `rest` and are all there.
pub fn fields(rest: &[u8]) -> Session<'_>
    requires { record_bytes rest.now ≤ length rest.now }
    ensures is { SessionIn (session_of rest.now) result }
    ensures lies { Lies rest.now result }
{
    let join = FIXED_BYTES + 2 * words::byte(rest, 0) as usize;
    let to = join + 2 * words::byte(rest, 1) as usize;
    Session {
        service: Curve {
            table: Words(&rest[FIXED_BYTES..join]),
            rate: Packets(words::word(rest, 3)),
        },
        envelope: Curve {
            table: Words(&rest[join..to]),
            rate: Packets(words::word(rest, 5)),
        },
        room: Packets(words::byte(rest, 2) + 1),
    }
}
