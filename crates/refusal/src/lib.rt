// The refusals that 01 numbers: why a call is refused, and where in the sheet.
#![tactic(auto)]

ghost use Rattle.std.specs.Prelude.{◌≡◌, Some};
ghost use Rattle.refusal.specs.Numbers.{number_of};
ghost use Rattle.refusal.specs.Text.{refused_text};

use std::error::Error;
use std::fmt;

// Why a call is refused: the lines of 01's table, in its order.
#[derive(Clone, Copy, Debug, PartialEq, Eq)]
pub enum Cause {
    // Fewer bytes than a sheet's head has.
    TooShort,
    // The length of the sheet is too large, or differs from the bytes after it.
    Length,
    Version,
    // c, P or the number of sessions is out of range.
    Capacity,
    Period,
    Sessions,
    // A session's record runs past the end.
    CutOff,
    TableLength,
    Rate,
    // A value is too large or falls, or a join falls.
    Value,
    // Bytes stand after the last session.
    LeftOver,
    // The sheet does not pass.
    Fails,
    // The run's slice is too short.
    RunTooShort,
    // There is no opened run in the slice.
    NoRun,
    // The offers are not one of each session.
    Offers,
    // A slice for the results is too short.
    ResultsTooShort,
    // The run's slots are done.
    SlotsDone,
    // A total of the tally would pass what 32 bits hold.
    TallyFull,
}

// A refusal: why, and the place in the sheet's bytes; for a sheet that does not pass, the least failing slot count. 0 where there is none, as 01 has it.
#[derive(Clone, Copy, Debug, PartialEq, Eq)]
pub struct Refusal {
    pub cause: Cause,
    pub place: u32,
}

impl Cause {
    // The number that 01 gives.
    pub fn number(self) -> u32
        ensures { result ≡ number_of self }
    {
        match self {
            Cause::TooShort => 1,
            Cause::Length => 2,
            Cause::Version => 3,
            Cause::Capacity => 4,
            Cause::Period => 5,
            Cause::Sessions => 6,
            Cause::CutOff => 7,
            Cause::TableLength => 8,
            Cause::Rate => 9,
            Cause::Value => 10,
            Cause::LeftOver => 11,
            Cause::Fails => 12,
            Cause::RunTooShort => 13,
            Cause::NoRun => 14,
            Cause::Offers => 15,
            Cause::ResultsTooShort => 16,
            Cause::SlotsDone => 17,
            Cause::TallyFull => 18,
        }
    }

    // The refusal of this cause at a place.
    pub fn at(self, place: u32) -> Refusal
        ensures { result ≡ record { cause = self; place = place } }
    {
        Refusal { cause: self, place }
    }
}

impl Refusal {
    // The number that 01 gives its cause.
    pub fn number(self) -> u32
        ensures { result ≡ number_of self.cause }
    {
        self.cause.number()
    }
}

// A refusal that has no place.
impl From<Cause> for Refusal {
    ghost from_gives = { λ cause r. r ≡ record { cause = cause; place = 0 } };

    fn from(cause: Cause) -> Refusal {
        cause.at(0)
    }
}

impl fmt::Display for Refusal {
    ghost output = { λ r. Some (refused_text (number_of r.cause) r.place) };

    fn fmt<W: fmt::Write>(&self, f: &mut fmt::Formatter<W>) -> fmt::Result {
        let number = self.number();
        let place = self.place;
        write!(f, "refused {number} {place}")
    }
}

impl Error for Refusal {}
