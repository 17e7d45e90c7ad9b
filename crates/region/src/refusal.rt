// Why a call or a turn is refused, and the numbers that tell it to a host.
ghost use Rattle.std.specs.Prelude.{◌≡◌, if◌then◌else◌};
ghost use Rattle.region.specs.Refusal.{Decodes, code_of, number_of};

use std::error::Error;
use std::fmt;

// The first that applies is the one that is told.
#[derive(Clone, Copy, Debug, PartialEq, Eq, Hash)]
pub enum Refusal {
    // a shape outside the ranges, or a permission that is none
    BadShape = 1,
    // a slice not of the exact length
    BadLength = 2,
    BadThread = 3,
    BadItem = 4,
    // too few bytes for the answers of a schedule
    ShortAnswers = 5,
    BadSchedule = 6,
    // a region that is not readable
    Unreadable = 7,
    NotPermitted = 8,
    ThreadBusy = 9,
    NoFreeCell = 10,
    // a node's counter has its last value
    CounterSpent = 11,
    BadRecords = 12,
    // a script that does not show the refusal to be cut down to
    NotShown = 16,
}

// A number that no refusal has.
#[derive(Clone, Copy, Debug, PartialEq, Eq, Hash)]
pub struct NoRefusal(pub u32);

impl From<Refusal> for u32 {
    ghost from_gives = { λ refusal n. n ≡ number_of refusal };

    #[inline]
    fn from(refusal: Refusal) -> u32 {
        refusal as u32
    }
}

impl TryFrom<u32> for Refusal {
    type Error = NoRefusal;

    ghost try_from_gives = { Decodes };

    fn try_from(number: u32) -> Result<Refusal, NoRefusal> {
        Ok(match number {
            1 => Refusal::BadShape,
            2 => Refusal::BadLength,
            3 => Refusal::BadThread,
            4 => Refusal::BadItem,
            5 => Refusal::ShortAnswers,
            6 => Refusal::BadSchedule,
            7 => Refusal::Unreadable,
            8 => Refusal::NotPermitted,
            9 => Refusal::ThreadBusy,
            10 => Refusal::NoFreeCell,
            11 => Refusal::CounterSpent,
            12 => Refusal::BadRecords,
            16 => Refusal::NotShown,
            _ => return Err(NoRefusal(number)),
        })
    }
}

impl fmt::Display for Refusal {
    fn fmt<W: fmt::Write>(&self, f: &mut fmt::Formatter<W>) -> fmt::Result {
        write!(f, "refused {}", u32::from(*self))
    }
}

impl Error for Refusal {}

// What a call answers to a host: 0 where it is done, else its refusal's number.
#[inline]
pub fn code_of(answer: Result<(), Refusal>) -> u32
    ensures { result ≡ code_of answer }
{
    match answer {
        Ok(()) => 0,
        Err(refusal) => refusal.into(),
    }
}

// The refusal unless the test holds: `require(test, refusal)?`.
#[inline]
pub fn require(test: bool, refusal: Refusal) -> Result<(), Refusal>
    ensures { result ≡ (if test then Ok tt else Err refusal) }
{
    if test { Ok(()) } else { Err(refusal) }
}
