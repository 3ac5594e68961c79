// Refusals 1 to 6, of a sheet's first eight bytes, and the test of a range.
ghost use Rattle.std.specs.Prelude.{◌≡◌};
ghost use Rattle.sheet.specs.Refusal.{first, outside};
ghost use Rattle.sheet.specs.Reading.{head_lines};
ghost use Rattle.sheet.specs.Told.{fault};

use crate::limits::{
    HEAD_BYTES, LENGTH_BYTES, LONGEST_PERIOD, MOST_CAPACITY, MOST_FOLLOWING, MOST_SESSIONS, VERSION,
};
use refusal::{Cause, Refusal};

#[tactic(auto, unfolding(crate::specs::Refusal::outside))]
// Whether x lies outside low..high.
pub fn outside(low: u32, high: u32, x: u32) -> bool
    ensures { result ≡ outside low high x }
{
    !(low..=high).contains(&x)
}

// Refusals 1 to 6.
#[tactic(auto, unfolding(crate::specs::Refusal::first, crate::specs::Refusal::outside, crate::specs::Reading::head_lines))]
pub fn check_head(bytes: &[u8]) -> Result<(), Refusal>
    ensures { fault result ≡ first (head_lines bytes.now) }
{
    let n = bytes.len();
    if n < HEAD_BYTES {
        return Err(Cause::TooShort.at(0));
    }
    let following = words::long(bytes, 0);
    if MOST_FOLLOWING < following || following as usize != n - LENGTH_BYTES {
        return Err(Cause::Length.at(0));
    }
    if words::byte(bytes, 4) != VERSION {
        return Err(Cause::Version.at(4));
    }
    if outside(1, MOST_CAPACITY, words::byte(bytes, 5)) {
        return Err(Cause::Capacity.at(5));
    }
    if outside(1, LONGEST_PERIOD, words::byte(bytes, 6)) {
        return Err(Cause::Period.at(6));
    }
    if outside(1, MOST_SESSIONS, words::byte(bytes, 7)) {
        return Err(Cause::Sessions.at(7));
    }
    Ok(())
}
