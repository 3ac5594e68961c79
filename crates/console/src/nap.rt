// A short sleep, for a program that waits for its input or output without using the processor.
use std::thread;
use std::time::{Clock, Duration};

// A hundredth of a second.
const NANOSECONDS: u64 = 10000000;

// Sleeps for a hundredth of a second.
pub fn nap<C: Clock>(clock: &C) {
    thread::sleep(clock, Duration::from_nanos(NANOSECONDS));
}
