// The reader: sheet bytes to the link's numbers and the places where its sessions start, or a refusal with its place. It reads in place and copies no table.
#![tactic(auto)]

ghost use Rattle.sheet.specs.Clears.{HeadReads};
ghost use Rattle.sheet.specs.Told.{Reads};

use crate::limits::HEAD_BYTES;
use curve::{Packets, Slots};
use refusal::{Cause, Refusal};

pub mod fields;
mod head;
pub mod limits;
mod sessions;
pub mod whole;

// What a sheet's bytes say: the link's numbers, and where its sessions start.
#[derive(Clone, Copy)]
pub struct Reading {
    pub capacity: Packets,
    pub period: Slots,
    pub count: usize,
    // Where each session starts, 0 past the last: sixteen places, since no memory is asked for.
    pub starts: [usize; 16],
}

// Refusals 7 to 11, and what bytes say whose head is right.
fn read_sessions(bytes: &[u8]) -> Result<Reading, Refusal>
    requires { HeadReads bytes.now }
    ensures { Reads bytes.now result }
{
    let capacity = Packets(words::byte(bytes, 5));
    let period = Slots(words::byte(bytes, 6));
    let count = words::byte(bytes, 7) as usize;
    let mut starts = [0usize; 16];
    let mut at: usize = HEAD_BYTES;
    'sessions: for i in 0..count {
        let rest = &bytes[at..];
        sessions::check_session(rest, period, at as u32)?;
        starts[i] = at;
        at += sessions::record_bytes(rest);
    }
    if at < bytes.len() {
        return Err(Cause::LeftOver.at(at as u32));
    }
    Ok(Reading {
        capacity,
        period,
        count,
        starts,
    })
}

// Reads a sheet: any bytes, any length.
pub fn read(bytes: &[u8]) -> Result<Reading, Refusal>
    ensures { Reads bytes.now result }
{
    head::check_head(bytes)?;
    read_sessions(bytes)
}
