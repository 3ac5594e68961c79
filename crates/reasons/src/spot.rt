// Which session a place of the sheet's bytes belongs to, and what stands at a place. Past the end of the bytes there are zeros, so every place has an answer.
ghost use Rattle.std.specs.Prelude.{◌≡◌, ◌+◌, ◌<◌, ◌≤◌, length, drop};
ghost use Rattle.words.specs.Words.{byte_at};
ghost use Rattle.sheet.specs.Bytes.{record_bytes};
ghost use Rattle.reasons.specs.Spot.{Holds};

use sheet::limits::{FIXED_BYTES, HEAD_BYTES, MOST_SESSIONS};

// Where the version, c, the period and the number of sessions stand in a sheet.
pub const VERSION_AT: u32 = 4;

pub const CAPACITY_AT: u32 = 5;

pub const PERIOD_AT: u32 = 6;

pub const COUNT_AT: u32 = 7;

// A session, counted from 0, and where its bytes start.
#[derive(Clone, Copy)]
pub struct Spot {
    pub index: u32,
    pub start: u32,
}

// The byte at a place, 0 past the end.
pub fn byte_at(bytes: &[u8], place: u32) -> u32
    ensures { (result ≡ byte_at bytes.now place) × (result < 256) }
{
    bytes.get(place as usize).copied().map_or(0, u32::from)
}

// The number of two bytes at a place, 0 past the end.
pub fn word_at(bytes: &[u8], place: u32) -> u32
    ensures { result < 65536 }
{
    let at = place as usize;
    if bytes.len() <= at + 1 {
        return 0;
    }
    words::word(bytes, at)
}

// The bytes that the session at `start` has by its lengths.
pub fn record_at(bytes: &[u8], start: u32) -> u32
    requires { start < 65536 }
    ensures { (result ≡ record_bytes (drop start bytes.now)) × (result ≤ 1027) }
{
    FIXED_BYTES as u32 + 2 * byte_at(bytes, start) + 2 * byte_at(bytes, start + 1)
}

// The session that a place belongs to.
pub fn session_at(bytes: &[u8], place: u32) -> Spot
    ensures { Holds bytes.now place result }
{
    let mut start = HEAD_BYTES as u32;
    for index in 0..MOST_SESSIONS - 1 {
        let after = start + record_at(bytes, start);
        if place < after {
            return Spot { index, start };
        }
        start = after;
    }
    Spot {
        index: MOST_SESSIONS - 1,
        start,
    }
}
