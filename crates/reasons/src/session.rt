// The words for what is wrong with a session.
ghost use Rattle.std.specs.Prelude.{◌≡◌, [], ◌+◌, ◌<◌, ◌≤◌, length};
ghost use Rattle.reasons.specs.Spot.{Holds};

use crate::pieces::{put_place, put_right, put_with, small};
use crate::spot::{PERIOD_AT, byte_at, record_at, session_at, word_at};
use console::text::Text;
use sheet::limits::{FIXED_BYTES, LARGEST_RATE, LARGEST_VALUE, LONGEST_TABLE};

// Where the rates stand in a session's bytes.
const SERVICE_RATE_AT: u32 = 3;

const ENVELOPE_RATE_AT: u32 = 5;

// Which of a session's two curves.
#[derive(Clone, Copy)]
enum Kind {
    Service,
    Envelope,
}

// One of a session's two curves: where its values start and how many they are, and where its rate stands.
#[derive(Clone, Copy)]
struct Curve {
    kind: Kind,
    from: u32,
    count: u32,
    rate_at: u32,
    ghost near: { (from < 131072) × (count < 256) },
}

// A session of a sheet, counted from 0, where its bytes start, and the place in them that is wrong.
#[derive(Clone, Copy)]
pub struct Session<'a> {
    bytes: &'a [u8],
    index: u32,
    start: u32,
    place: u32,
    ghost near: { (index < 16) × (start < 65536) },
}

impl<'a> Session<'a> {
    // The session that a place belongs to.
    pub fn at(bytes: &'a [u8], place: u32) -> Session<'a>
        ensures { Holds bytes.now place (record { index = result.index; start = result.start }) × (result.bytes.now ≡ bytes.now) × (result.place ≡ place) }
    {
        let spot = session_at(bytes, place);
        Session {
            bytes,
            index: spot.index,
            start: spot.start,
            place,
        }
    }

    // "session 2, envelope: "
    fn put_whose<const N: usize>(&self, line: &mut Text<N>, kind: Kind)
        requires { (line.old ≡ []) × (256 ≤ N) }
        ensures { length line.new ≤ 32 }
    {
        match kind {
            Kind::Service => put_with(line, b"session ", self.index + 1, b", service: "),
            Kind::Envelope => put_with(line, b"session ", self.index + 1, b", envelope: "),
        }
    }

    // The bytes that it takes: its fixed ones, or all where those are there.
    fn needed(&self, have: u32) -> u32
        ensures { result ≤ 1027 }
    {
        if have < FIXED_BYTES as u32 {
            return FIXED_BYTES as u32;
        }
        record_at(self.bytes, self.start)
    }

    // A session that is cut off.
    pub fn put_cut_off<const N: usize>(&self, line: &mut Text<N>)
        requires { (line.old ≡ []) × (256 ≤ N) }
        ensures { length line.new + 1 ≤ N }
    {
        let have = small(self.bytes.len()).saturating_sub(self.start);
        let needed = self.needed(have);
        put_with(line, b"session ", self.index + 1, b"");
        put_place(line, self.start);
        put_with(line, b"", needed, b" bytes are needed and ");
        put_with(line, b"", have, b" are left: ");
        line.put_text(b"a larger length, fewer sessions or shorter tables");
    }

    // A table's length that is out of range.
    pub fn put_table_length<const N: usize>(&self, line: &mut Text<N>)
        requires { (line.old ≡ []) × (256 ≤ N) }
        ensures { length line.new + 1 ≤ N }
    {
        let kind = if self.start < self.place {
            Kind::Envelope
        } else {
            Kind::Service
        };
        self.put_whose(line, kind);
        let values = byte_at(self.bytes, self.place);
        put_with(line, b"a table of ", values, b" values");
        put_place(line, self.place);
        put_right(line, byte_at(self.bytes, PERIOD_AT), LONGEST_TABLE);
    }

    // A rate that is out of range.
    pub fn put_rate<const N: usize>(&self, line: &mut Text<N>)
        requires { (line.old ≡ []) × (256 ≤ N) }
        ensures { length line.new + 1 ≤ N }
    {
        let (kind, low) = if self.start + SERVICE_RATE_AT < self.place {
            (Kind::Envelope, 0)
        } else {
            (Kind::Service, 1)
        };
        self.put_whose(line, kind);
        put_with(line, b"a rate of ", word_at(self.bytes, self.place), b"");
        put_place(line, self.place);
        put_right(line, low, LARGEST_RATE);
    }

    // A join that falls, at a rate, or a value that is wrong.
    pub fn put_values<const N: usize>(&self, line: &mut Text<N>)
        requires { (line.old ≡ []) × (256 ≤ N) }
        ensures { length line.new + 1 ≤ N }
    {
        let curve = self.curve();
        self.put_whose(line, curve.kind);
        if self.place < self.start + FIXED_BYTES as u32 {
            self.put_join(line, curve);
        } else {
            self.put_value(line, curve);
        }
    }

    // The curve whose rate or one of whose values stands at the place.
    fn curve(&self) -> Curve {
        let services = byte_at(self.bytes, self.start);
        let from = self.start + FIXED_BYTES as u32;
        let after = from + 2 * services;
        let rate_at = self.start + ENVELOPE_RATE_AT;
        if self.place < after && self.place != rate_at {
            return Curve {
                kind: Kind::Service,
                from,
                count: services,
                rate_at: self.start + SERVICE_RATE_AT,
            };
        }
        Curve {
            kind: Kind::Envelope,
            from: after,
            count: byte_at(self.bytes, self.start + 1),
            rate_at,
        }
    }

    // What a curve has at its join: the value a period before the table's end and the rate.
    fn at_join(&self, curve: Curve) -> u32
        ensures { result < 131072 }
    {
        let before = curve.count.saturating_sub(byte_at(self.bytes, PERIOD_AT));
        word_at(self.bytes, curve.from + 2 * before) + word_at(self.bytes, curve.rate_at)
    }

    // The last value of a curve's table.
    fn last_of(&self, curve: Curve) -> u32
        ensures { result < 65536 }
    {
        word_at(self.bytes, curve.from + 2 * curve.count.saturating_sub(1))
    }

    // A join that falls, behind the words for whose it is.
    fn put_join<const N: usize>(&self, line: &mut Text<N>, curve: Curve)
        requires { (length line.old ≤ 32) × (256 ≤ N) }
        ensures { length line.new + 1 ≤ N }
    {
        put_with(line, b"", self.at_join(curve), b" at the join is below ");
        put_with(line, b"", self.last_of(curve), b"");
        put_place(line, curve.rate_at);
        line.put_text(b"a longer table, or a higher rate");
    }

    // A value that is too large, or falls, behind the words for whose it is.
    fn put_value<const N: usize>(&self, line: &mut Text<N>, curve: Curve)
        requires { (length line.old ≤ 32) × (256 ≤ N) }
        ensures { length line.new + 1 ≤ N }
    {
        let which = self.place.saturating_sub(curve.from) / 2 + 1;
        let value = word_at(self.bytes, self.place);
        put_with(line, b"value ", which, b" is ");
        put_with(line, b"", value, b"");
        if LARGEST_VALUE < value {
            put_place(line, self.place);
            put_right(line, 0, LARGEST_VALUE);
            return;
        }
        let before = word_at(self.bytes, self.place.saturating_sub(2));
        put_with(line, b" and the one before it ", before, b"");
        put_place(line, self.place);
        line.put_text(b"a curve never falls");
    }
}
