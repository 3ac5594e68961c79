// The limits that 01 sets to a sheet's numbers, each named once.
pub const VERSION: u32 = 1;

// c, P and the number of sessions are at least 1 and at most these.
pub const MOST_CAPACITY: u32 = 64;

pub const LONGEST_PERIOD: u32 = 16;

pub const MOST_SESSIONS: u32 = 16;

// Table lengths lie in P..64, values in 0..500.
pub const LONGEST_TABLE: u32 = 64;

pub const LARGEST_VALUE: u32 = 500;

// Service rates lie in 1..256, envelope rates in 0..256, rooms in 1..256.
pub const LARGEST_RATE: u32 = 256;

pub const LARGEST_ROOM: u32 = 256;

// The bytes of the length itself, the most that may follow it, the bytes before the first session, and a session's before its tables.
pub const LENGTH_BYTES: usize = 4;

pub const MOST_FOLLOWING: u32 = 4212;

pub const HEAD_BYTES: usize = 8;

pub const FIXED_BYTES: usize = 7;
