// What the families of calendars find: a position of a year, and the date of a day. Each is an Option: None where the year has no such position, and for a day
// that has no date. What is found is said by relations of it to the calendar and what was asked (`LengthAt`, `MonthAt`, `PlaceAt`), which no type of a result can
// hold. The year and the position that a family is asked for stay two arguments: a struct of them would be built for one call and taken apart in it.
#![tactic(auto)]

ghost use Rattle.std.specs.Prelude.{◌≡◌, cond, ltb, ◌*◌, ◌^◌, ◌+◌, ◌≤◌, min};
ghost use Rattle.counting.specs.Years.{year_at};
ghost use Rattle.refusals.specs.Number.{number_of};
ghost use Rattle.parts.specs.Packed.{Unpacked};

use refusals::Refusal;

// The last day that has a date.
pub const LAST_DAY: u64 = 5373484;

// A position of a year: the day that it begins on, and its length.
#[derive(Clone, Copy, Debug, PartialEq, Eq)]
pub struct Month {
    pub start: u64,
    pub days: u64,
}

// The date of a day.
#[derive(Clone, Copy, Debug, PartialEq, Eq)]
pub struct Place {
    pub year: i64,
    pub month: u64,
    pub day: u64,
}

// The day of a date, or why there is none, as one number: a day as it is, a refusal's number 2^32 high. A Result of the two is handed over through memory, where this
// is handed over in a register: tried, and it cost 2 ns of 7 (docs/DECISIONS.md).
#[derive(Clone, Copy, Debug, PartialEq, Eq)]
pub struct PackedDay {
    pub number: u64,
}

impl PackedDay {
    pub fn refused(why: Refusal) -> PackedDay
        ensures { result.number ≡ number_of why * 2 ^ 32 }
    {
        PackedDay {
            number: u64::from(why) << 32,
        }
    }

    // Whether there is a day, which is then the number.
    pub fn is_day(self) -> bool
        ensures { result ≡ ltb self.number (2 ^ 32) }
    {
        self.number < 0x1_0000_0000
    }

    pub fn to_result(self) -> Result<u64, Refusal>
        ensures { Unpacked self.number result }
    {
        match Refusal::try_from(self.number >> 32) {
            Ok(why) => Err(why),
            Err(_) => Ok(self.number),
        }
    }
}

// One of two numbers: a number that comes out of a test, where a branch would be mispredicted.
pub fn pick(first: bool, a: u64, b: u64) -> u64
    ensures { (result ≡ cond first a b) × (result ≤ a + b) × (min a b ≤ result) }
{
    if first {
        return a;
    }
    b
}

// A date in the year that is i years after the year first.
pub fn place_in(first: i32, i: u32, month: u64, day: u64) -> Place
    ensures { (result.year ≡ year_at first i) × (result.month ≡ month) × (result.day ≡ day) }
{
    Place {
        year: i64::from(first) + i64::from(i),
        month,
        day,
    }
}
