// When a call of the system that failed is to be made again, and how often at the most.
ghost use Rattle.std.specs.Prelude.{◌≡◌};
ghost use Rattle.std.specs.IoError.{error_kind};
ghost use Rattle.console.specs.Again.{may_pass, CallsAt, Retried};

use crate::nap::nap;
use std::io::{Error, ErrorKind, Result};
use std::time::Clock;

// A call is made no more often than this, which is some five thousand years of naps: every loop of ours ends.
pub const MOST_TRIES: u64 = 17592186044416;

// Whether the call that failed so is to be made again: at once where a signal interrupted it, after a nap where nothing was ready.
pub fn again<C: Clock>(clock: &C, error: &Error) -> bool
    ensures { result ≡ may_pass (error_kind error.now) }
{
    match error.kind() {
        ErrorKind::WouldBlock => {
            nap(clock);
            true
        }
        ErrorKind::Interrupted => true,
        _ => false,
    }
}

// Makes a call on a stream and some room, and makes it again as long as it fails in a way that may pass.
pub fn retry<C: Clock, S, T, F: Fn(&mut S, &mut [u8]) -> Result<T>>(
    clock: &C,
    stream: &mut S,
    room: &mut [u8],
    call: F,
) -> Result<T>
    requires { F.IsAlwaysCallable call }
    ensures { Retried (CallsAt (λ x z r y w. F.post call x z r y w)) (stream.old, room.old) result (stream.new, room.new) }
{
    for _ in 1..MOST_TRIES {
        match call(stream, room) {
            Err(error) if again(clock, &error) => {}
            done => return done,
        }
    }
    call(stream, room)
}
