// The refusals: why a routine gives no answer. Each has a number, which people and callers from C see.
#![tactic(auto)]

ghost use Rattle.std.specs.Prelude.{◌≡◌, ◌<◌, ℕ, refl};
ghost use Rattle.refusal.specs.Refusals.{number_of};

use std::error::Error;
use std::fmt;

#[derive(Clone, Copy, Debug, PartialEq, Eq)]
pub enum Refusal {
    // an input number is infinite or not a number; for the root also below 0
    NotFinite,
    // mu is not in 2^28 ≤ mu < 2^36
    MuOutOfRange,
    // a position component is 2^29 or more in size, or the length is not in 2^18 ≤ r < 2^29
    PositionOutOfRange,
    // a velocity component is over 2^7 in size
    VelocityOutOfRange,
    // a time over 2^28 in size; a transfer's also: not over 0
    TimeOutOfRange,
    // a derived number is out of its range, or a bracket to go on from is amiss
    DerivedOutOfRange,
    // the time is too long
    TooLong,
    // the time is too short
    TooShort,
    // the result is out of range
    ResultOutOfRange,
    // the angle is too small, or no angle
    AngleTooSmall,
    // a record is cut short
    CutShort,
    // its length is wrong
    WrongLength,
    // its kind is unknown
    UnknownKind,
    // a field that is not allowed, or a case that there is not
    NotAllowed,
    // a lent buffer is too short
    NoRoom,
    // an elevation over 3,599 tenths of a degree
    ElevationOutOfRange,
    // an axis that is no unit vector
    NotUnit,
    // the line meets no point so far out
    NoCrossing,
    // a straight fall
    StraightFall,
    // a vehicle that is not set
    NotSet,
    // two vehicles about two bodies
    TwoBodies,
    // a radius or a fraction of the settings out of its range
    SettingOutOfRange,
    // no such version of the settings
    NoVersion,
    // already 64 versions
    NoVersionLeft,
    // the next manoeuvre less than 60,000 cs after the burn
    TooSoon,
    // no orbit at that height
    NoOrbit,
    // no such speed
    NoSpeed,
    // the pericentre is too low
    TooLow,
    // the limit on trials is reached
    NotFinished,
    // bytes that are no settings
    NoSettings,
}

impl Refusal {
    pub fn number(self) -> u32
        ensures value { result ≡ number_of self }
        ensures small { result < 31 }
    {
        match self {
            Refusal::NotFinite => 1,
            Refusal::MuOutOfRange => 2,
            Refusal::PositionOutOfRange => 3,
            Refusal::VelocityOutOfRange => 4,
            Refusal::TimeOutOfRange => 5,
            Refusal::DerivedOutOfRange => 6,
            Refusal::TooLong => 7,
            Refusal::TooShort => 8,
            Refusal::ResultOutOfRange => 9,
            Refusal::AngleTooSmall => 10,
            Refusal::CutShort => 11,
            Refusal::WrongLength => 12,
            Refusal::UnknownKind => 13,
            Refusal::NotAllowed => 14,
            Refusal::NoRoom => 15,
            Refusal::ElevationOutOfRange => 16,
            Refusal::NotUnit => 17,
            Refusal::NoCrossing => 18,
            Refusal::StraightFall => 19,
            Refusal::NotSet => 20,
            Refusal::TwoBodies => 21,
            Refusal::SettingOutOfRange => 22,
            Refusal::NoVersion => 23,
            Refusal::NoVersionLeft => 24,
            Refusal::TooSoon => 25,
            Refusal::NoOrbit => 26,
            Refusal::NoSpeed => 27,
            Refusal::TooLow => 28,
            Refusal::NotFinished => 29,
            Refusal::NoSettings => 30,
        }
    }
}

// What a refusal is given or handed on as: a case of `Refusal`, or any number. The routines of this project refuse with
// cases; a caller that has a refusal from elsewhere hands it in by its number.
pub trait Numbered: Copy {
    ghost use Rattle.refusal.specs.declared.Refusal.{Refusal};

    ghost given_as: { Refusal → Self };

    ghost its_number: { Self → ℕ };

    fn of(refusal: Refusal) -> Self
        ensures { result ≡ given_as refusal };

    fn to_number(self) -> u32
        ensures { result ≡ its_number self };

    ghost same_number: { (r : Refusal) → its_number (given_as r) ≡ number_of r };
}

impl Numbered for Refusal {
    ghost given_as = { λ r. r };

    ghost its_number = { number_of };

    ghost same_number = { λ r. refl };

    fn of(refusal: Refusal) -> Refusal {
        refusal
    }

    fn to_number(self) -> u32 {
        self.number()
    }
}

impl Numbered for u32 {
    ghost given_as = { number_of };

    ghost its_number = { λ n. n };

    ghost same_number = { λ r. refl };

    fn of(refusal: Refusal) -> u32 {
        refusal.number()
    }

    fn to_number(self) -> u32 {
        self
    }
}

impl fmt::Display for Refusal {
    fn fmt<W: fmt::Write>(&self, f: &mut fmt::Formatter<W>) -> fmt::Result {
        write!(f, "refused {}", self.number())
    }
}

impl Error for Refusal {}
