// A sheet that reads: its bytes with what was read of them, and its sessions by their index.
ghost use Rattle.std.specs.Prelude.{◌≡◌, ◌<◌, ◌≤◌, MatchResult};
ghost use Rattle.sheet.specs.Limits.{most_capacity, longest_period, most_sessions};
ghost use Rattle.sheet.specs.Sheet.{session};
ghost use Rattle.sheet.specs.Bytes.{sheet_of};
ghost use Rattle.sheet.specs.Told.{Reads, SessionIn};
ghost use Rattle.sheet.specs.Ready.{Ready};

use crate::fields::{Session, fields};
use crate::{Reading, read};
use curve::{Packets, Slots};
use refusal::Refusal;

#[derive(Clone, Copy)]
pub struct Sheet<'a> {
    pub bytes: &'a [u8],
    pub reading: Reading,
    ghost ready: { Ready bytes.now reading.starts reading.count reading.capacity.0 reading.period.0 },
}

impl<'a> Sheet<'a> {
    // The sheet that these bytes are: any bytes, any length.
    pub fn of(bytes: &'a [u8]) -> Result<Sheet<'a>, Refusal>
        ensures { MatchResult result (λ s. (s.bytes.now ≡ bytes.now) × Reads bytes.now (Ok s.reading)) (λ e. Reads bytes.now (Err e)) }
    {
        let reading = read(bytes)?;
        Ok(Sheet { bytes, reading })
    }

    // c
    pub fn capacity(&self) -> Packets
        ensures is { result ≡ self.now.reading.capacity }
        ensures range { (1 ≤ result.0) × (result.0 ≤ most_capacity) }
    {
        self.reading.capacity
    }

    // P
    pub fn period(&self) -> Slots
        ensures is { result ≡ self.now.reading.period }
        ensures range { (1 ≤ result.0) × (result.0 ≤ longest_period) }
    {
        self.reading.period
    }

    // M
    pub fn count(&self) -> usize
        ensures is { result ≡ self.now.reading.count }
        ensures range { (1 ≤ result) × (result ≤ most_sessions) }
    {
        self.reading.count
    }

    // Session i, counted from 0.
    pub fn session(&self, i: usize) -> Session<'a>
        requires { i < self.now.reading.count }
        ensures { SessionIn (session (sheet_of self.now.bytes.now) i) result }
    {
        fields(&self.bytes[self.reading.starts[i]..])
    }
}
