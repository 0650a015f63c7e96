// Why a call refuses. Every refusal of the library is a case of this one enum, and has one number.
ghost use Rattle.std.specs.Prelude.{◌≡◌};
ghost use Rattle.mesh.specs.Numbers.{NumberOf, number_of};

use std::error::Error;
use std::fmt;

#[derive(Clone, Copy, PartialEq, Eq, Debug)]
pub enum Refusal {
    InputEnds = 1,
    UnknownLetter = 2,
    OutOfRange = 3,
    OutOfPlace = 4,
    OneSet = 5,
    LinkOutside = 6,
    LinkTwice = 7,
    GapUnlinked = 8,
    ShortBuffer = 9,
    ZeroState = 10,
    Outside = 11,
    Occupied = 12,
    EmptyBuffer = 13,
    Damaged = 14,
    Arrived = 15,
    NotPermitted = 16,
    LeavesStack = 17,
    NotArrived = 18,
}

impl Refusal {
    pub fn number(self) -> u8
        ensures { result ≡ number_of self }
    {
        self as u8
    }
}

// A number that no refusal has.
#[derive(Clone, Copy, PartialEq, Eq, Debug)]
pub struct UnknownNumber(pub u8);

impl TryFrom<u8> for Refusal {
    type Error = UnknownNumber;

    ghost try_from_gives = { NumberOf };

    fn try_from(number: u8) -> Result<Refusal, UnknownNumber> {
        match number {
            1 => Ok(Refusal::InputEnds),
            2 => Ok(Refusal::UnknownLetter),
            3 => Ok(Refusal::OutOfRange),
            4 => Ok(Refusal::OutOfPlace),
            5 => Ok(Refusal::OneSet),
            6 => Ok(Refusal::LinkOutside),
            7 => Ok(Refusal::LinkTwice),
            8 => Ok(Refusal::GapUnlinked),
            9 => Ok(Refusal::ShortBuffer),
            10 => Ok(Refusal::ZeroState),
            11 => Ok(Refusal::Outside),
            12 => Ok(Refusal::Occupied),
            13 => Ok(Refusal::EmptyBuffer),
            14 => Ok(Refusal::Damaged),
            15 => Ok(Refusal::Arrived),
            16 => Ok(Refusal::NotPermitted),
            17 => Ok(Refusal::LeavesStack),
            18 => Ok(Refusal::NotArrived),
            _ => Err(UnknownNumber(number)),
        }
    }
}

impl fmt::Display for Refusal {
    fn fmt<W: fmt::Write>(&self, f: &mut fmt::Formatter<W>) -> fmt::Result {
        write!(f, "refused {}", self.number())
    }
}

impl Error for Refusal {}
