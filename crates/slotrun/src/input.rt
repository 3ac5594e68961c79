// Standard input in two sorts of pieces: the sheet, whose length is told in its first bytes, and blocks of slots.
ghost use Rattle.std.specs.Prelude.{◌≡◌, ◌+◌, ◌-◌, ◌<◌, ◌≤◌, length, take, IfOk};
ghost use Rattle.std.specs.Slice.Iter.{chunks_exact_size, chunks_exact_rest};
ghost use Rattle.console.specs.Got.{Within};
ghost use Rattle.slotrun.specs.Moved.{Moved};

use console::input::{read_full, read_some};
use sheet::limits::{LENGTH_BYTES, MOST_FOLLOWING};
use std::io::Result;
use std::slice::ChunksExact;

// The longest sheet; no more is read as one.
pub const SHEET_BYTES: usize = 4216;

// A block holds so many slots, of at most sixteen bytes each.
const BLOCK_SLOTS: usize = 4096;

const BLOCK_BYTES: usize = 65536;

// Reads a sheet: its length, and as many bytes as that says, but no more than the longest sheet has. Fewer come where the stream ends early; the
// reader of sheets refuses those.
pub fn read_sheet(rt: HostRuntime, bytes: &mut [u8]) -> Result<usize>
    requires { 4216 ≤ length bytes.old }
    ensures { Within 0 4216 result }
{
    let n = read_full(&rt, &mut rt.stdin(), &mut bytes[..LENGTH_BYTES], 0)?;
    if n < LENGTH_BYTES {
        return Ok(n);
    }
    let following = words::long(bytes, 0).min(MOST_FOLLOWING);
    let end = LENGTH_BYTES + following as usize;
    read_full(&rt, &mut rt.stdin(), &mut bytes[..end], LENGTH_BYTES)
}

// Slots of `count` bytes, one after the other, as far as they are here; in a fixed array, since no memory is asked for.
#[derive(Drop)]
pub struct Block {
    bytes: [u8; BLOCK_BYTES],
    count: usize,
    have: usize,
    ghost few: { (1 ≤ count) × (count ≤ 16) },
    ghost fits: { have ≤ 65536 },
}

impl Block {
    // No slot yet, for a sheet of so many sessions.
    pub fn new(count: usize) -> Self
        requires { (1 ≤ count) × (count ≤ 16) }
        ensures { result.have ≡ 0 }
    {
        Block {
            bytes: [0; BLOCK_BYTES],
            count,
            have: 0,
        }
    }

    // Reads on behind the first bytes of an unfinished slot until something comes, and answers how much; no bytes are the end.
    pub fn read(&mut self, rt: HostRuntime) -> Result<usize>
        requires { self.old.have < self.old.count }
        ensures { Within 0 65536 result × IfOk result (λ n. self.new.have ≡ self.old.have + n) }
    {
        let end = self.count * BLOCK_SLOTS;
        let n = read_some(&rt, &mut rt.stdin(), &mut self.bytes[self.have..end])?;
        self.have += n;
        Ok(n)
    }

    // The whole slots.
    pub fn slots(&self) -> ChunksExact<'_, u8>
        ensures size { chunks_exact_size result ≡ self.now.count }
        ensures rest { chunks_exact_rest result ≡ take self.now.have self.now.bytes }
    {
        self.bytes[..self.have].chunks_exact(self.count)
    }

    // How many bytes are here: of an unfinished slot alone, once `keep_rest` was called.
    pub fn have(&self) -> usize
        ensures { result ≡ self.now.have }
    {
        self.have
    }

    // Moves the bytes of an unfinished slot to the front.
    pub fn keep_rest(&mut self)
        ensures { self.new.have < self.new.count }
    {
        let from = self.have - self.have % self.count;
        self.have = keep_rest(&mut self.bytes, from, self.have);
    }
}

// Moves the bytes from `from` to `to`, an unfinished slot, to the front of the block, and answers how many they are.
fn keep_rest(block: &mut [u8], from: usize, to: usize) -> usize
    requires { (from ≤ to) × (to ≤ length block.old) }
    ensures { (result ≡ to - from) × Moved block.old from result block.new }
{
    block.copy_within(from..to, 0);
    to - from
}
