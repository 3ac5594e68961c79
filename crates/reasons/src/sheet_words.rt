// The words for what is wrong with a sheet as a whole: its head, bytes left over, and a sheet that does not pass.
ghost use Rattle.std.specs.Prelude.{◌≡◌, [], ◌+◌, ◌≤◌, length};

use crate::pieces::{put_place, put_right, put_with, small};
use crate::spot::{CAPACITY_AT, COUNT_AT, PERIOD_AT, VERSION_AT, byte_at};
use console::text::Text;
use sheet::limits::{
    HEAD_BYTES, LENGTH_BYTES, LONGEST_PERIOD, MOST_CAPACITY, MOST_FOLLOWING, MOST_SESSIONS, VERSION,
};

// The number of bytes that the sheet says follow its length.
fn following(bytes: &[u8]) -> u32 {
    if bytes.len() < LENGTH_BYTES {
        return 0;
    }
    words::long(bytes, 0)
}

// "a length of 34, at byte 0: "
fn put_length<const N: usize>(line: &mut Text<N>, bytes: &[u8])
    requires { (line.old ≡ []) × (256 ≤ N) }
    ensures { length line.new ≤ 64 }
{
    put_with(line, b"a length of ", following(bytes), b"");
    put_place(line, 0);
}

// Too few bytes for a head.
pub fn put_short<const N: usize>(line: &mut Text<N>, bytes: &[u8])
    requires { (line.old ≡ []) × (256 ≤ N) }
    ensures { length line.new + 1 ≤ N }
{
    if LENGTH_BYTES <= bytes.len() && following(bytes) as usize == bytes.len() - LENGTH_BYTES {
        let least = (HEAD_BYTES - LENGTH_BYTES) as u32;
        put_length(line, bytes);
        put_with(line, b"at least ", least, b" bytes follow");
        return;
    }
    let there = small(bytes.len());
    put_with(line, b"the input ends after ", there, b" bytes: ");
    put_with(line, b"a sheet has at least ", HEAD_BYTES as u32, b"");
}

// A length that is too large, or not that of the bytes after it.
pub fn put_other_length<const N: usize>(line: &mut Text<N>, bytes: &[u8])
    requires { (line.old ≡ []) × (256 ≤ N) }
    ensures { length line.new + 1 ≤ N }
{
    put_length(line, bytes);
    if MOST_FOLLOWING < following(bytes) {
        put_with(line, b"at most ", MOST_FOLLOWING, b" bytes follow");
        return;
    }
    let there = small(bytes.len()).saturating_sub(LENGTH_BYTES as u32);
    put_with(line, b"", there, b" bytes follow");
}

// A byte of the head, what it means, and the numbers that are right.
fn put_head_byte<const N: usize>(
    line: &mut Text<N>,
    bytes: &[u8],
    what: &[u8],
    place: u32,
    high: u32,
)
    requires { (line.old ≡ []) × (256 ≤ N) × (length what.now ≤ 32) }
    ensures { length line.new + 1 ≤ N }
{
    put_with(line, what, byte_at(bytes, place), b"");
    put_place(line, place);
    put_right(line, 1, high);
}

// Another version.
pub fn put_version<const N: usize>(line: &mut Text<N>, bytes: &[u8])
    requires { (line.old ≡ []) × (256 ≤ N) }
    ensures { length line.new + 1 ≤ N }
{
    put_head_byte(line, bytes, b"a version of ", VERSION_AT, VERSION);
}

// A capacity that is out of range.
pub fn put_capacity<const N: usize>(line: &mut Text<N>, bytes: &[u8])
    requires { (line.old ≡ []) × (256 ≤ N) }
    ensures { length line.new + 1 ≤ N }
{
    put_head_byte(line, bytes, b"a capacity c of ", CAPACITY_AT, MOST_CAPACITY);
}

// A period that is out of range.
pub fn put_period<const N: usize>(line: &mut Text<N>, bytes: &[u8])
    requires { (line.old ≡ []) × (256 ≤ N) }
    ensures { length line.new + 1 ≤ N }
{
    put_head_byte(line, bytes, b"a period of ", PERIOD_AT, LONGEST_PERIOD);
}

// A number of sessions that is out of range.
pub fn put_sessions<const N: usize>(line: &mut Text<N>, bytes: &[u8])
    requires { (line.old ≡ []) × (256 ≤ N) }
    ensures { length line.new + 1 ≤ N }
{
    let what = b"a number of sessions of ";
    put_head_byte(line, bytes, what, COUNT_AT, MOST_SESSIONS);
}

// Bytes after the last session.
pub fn put_left_over<const N: usize>(line: &mut Text<N>, bytes: &[u8], place: u32)
    requires { (line.old ≡ []) × (256 ≤ N) }
    ensures { length line.new + 1 ≤ N }
{
    let over = small(bytes.len()).saturating_sub(place);
    put_with(line, b"", over, b" bytes after session ");
    put_with(line, b"", byte_at(bytes, COUNT_AT), b"");
    put_place(line, place);
    line.put_text(b"a smaller length, or more sessions");
}

// A sheet that does not pass, at a slot count.
pub fn put_failed<const N: usize>(line: &mut Text<N>, bytes: &[u8], t: u32)
    requires { (line.old ≡ []) × (256 ≤ N) }
    ensures { length line.new + 1 ≤ N }
{
    let c = byte_at(bytes, CAPACITY_AT);
    put_with(
        line,
        b"the sheet does not pass: in ",
        t,
        b" slots the sessions ",
    );
    put_with(
        line,
        b"can be owed more than the link sends, ",
        c,
        b" a slot: ",
    );
    line.put_text(b"a later or smaller service, a smaller envelope, or a larger c");
}
