// The reasons for which an input is refused, shared by all crates. Which inputs get which is said where they are refused.
#![tactic(auto)]

ghost use Rattle.std.specs.Prelude.{◌≡◌};
ghost use Rattle.refusals.specs.Number.{number_of, Reads};

#[derive(Clone, Copy, Debug, PartialEq, Eq)]
pub enum Refusal {
    UnknownCalendar = 1,
    YearOutOfRange = 2,
    NoSuchMonth = 3,
    NoSuchDay = 4,
    DayOutOfRange = 5,
    CodeOutOfLimits = 6,
    NoLine = 7,
    MalformedFrame = 8,
    WrongDay = 9,
    LineOutOfLimits = 10,
    BufferTooShort = 11,
    WrongWeekday = 13,
    CalendarEnded = 17,
}

// The refusal's number in the table of answer numbers.
impl From<Refusal> for u8 {
    ghost from_gives = { λ why n. n ≡ number_of why };

    fn from(why: Refusal) -> u8 {
        why as u8
    }
}

// The same as a field of a struct that C gets.
impl From<Refusal> for u64 {
    ghost from_gives = { λ why n. n ≡ number_of why };

    fn from(why: Refusal) -> u64 {
        u64::from(u8::from(why))
    }
}

// A number that no refusal has.
#[derive(Clone, Copy, Debug, PartialEq, Eq)]
pub struct UnknownNumber(pub u64);

// The refusal that has the number.
impl TryFrom<u64> for Refusal {
    type Error = UnknownNumber;

    ghost try_from_gives = { Reads };

    fn try_from(number: u64) -> Result<Refusal, UnknownNumber> {
        match number {
            1 => Ok(Refusal::UnknownCalendar),
            2 => Ok(Refusal::YearOutOfRange),
            3 => Ok(Refusal::NoSuchMonth),
            4 => Ok(Refusal::NoSuchDay),
            5 => Ok(Refusal::DayOutOfRange),
            6 => Ok(Refusal::CodeOutOfLimits),
            7 => Ok(Refusal::NoLine),
            8 => Ok(Refusal::MalformedFrame),
            9 => Ok(Refusal::WrongDay),
            10 => Ok(Refusal::LineOutOfLimits),
            11 => Ok(Refusal::BufferTooShort),
            13 => Ok(Refusal::WrongWeekday),
            17 => Ok(Refusal::CalendarEnded),
            _ => Err(UnknownNumber(number)),
        }
    }
}
