// The calendars for C, C++ and Rust (`include/ijok.h`). An answer is returned as a struct by value, its number first, so that no result buffer can be too
// short.
#![tactic(auto)]

ghost use Rattle.std.specs.Prelude.{◌≡◌, ◌/◌, ◌%◌};
ghost use Rattle.calendar_rules.specs.Answers.{day_answer_with, date_answer, position_answer};
ghost use Rattle.calendars.specs.Paper.{date_paper, position_paper};
ghost use Rattle.c_dates.specs.Fields.{day_fields, date_fields, position_fields};

use calendars::{Date, Position};
use listing::Calendar;
use parts::PackedDay;
use refusals::Refusal;

// struct ijok_day
#[repr(C)]
#[derive(Drop)]
pub struct DayFields {
    pub number: u64,
    pub day: u64,
}

// struct ijok_date
#[repr(C)]
#[derive(Drop)]
pub struct DateFields {
    pub number: u64,
    pub year: i64,
    pub month: u64,
    pub day: u64,
    pub weekday: u64,
}

// struct ijok_position
#[repr(C)]
#[derive(Drop)]
pub struct PositionFields {
    pub number: u64,
    pub kind: u64,
    pub days: u64,
}

// enum ijok_kind: numbers, since C gets them.
const NONE: u64 = 0;

const MONTH: u64 = 1;

const STRIP: u64 = 2;

const HEBREW: u64 = Calendar::Hebrew as u64;

impl From<Result<Date, Refusal>> for DateFields {
    ghost from_gives = { λ answer fields. date_fields fields ≡ date_paper answer };

    fn from(answer: Result<Date, Refusal>) -> DateFields {
        match answer {
            Ok(date) => DateFields {
                number: 0,
                year: date.year,
                month: date.month,
                day: date.day,
                weekday: date.weekday,
            },
            Err(why) => DateFields {
                number: u64::from(why),
                year: 0,
                month: 0,
                day: 0,
                weekday: 0,
            },
        }
    }
}

impl From<Result<Position, Refusal>> for PositionFields {
    ghost from_gives = { λ answer fields. fields ≡ position_fields (position_paper answer) };

    fn from(answer: Result<Position, Refusal>) -> PositionFields {
        let (number, kind, days) = match answer {
            Ok(Position::Month(days)) => (0, MONTH, days),
            Ok(Position::Strip(days)) => (0, STRIP, days),
            Ok(Position::None) => (0, NONE, 0),
            Err(why) => (u64::from(why), NONE, 0),
        };
        PositionFields { number, kind, days }
    }
}

impl From<PackedDay> for DayFields {
    ghost from_gives = { λ found fields. (fields.number ≡ found.number / 4294967296) × (fields.day ≡ found.number % 4294967296) };

    fn from(found: PackedDay) -> DayFields {
        DayFields {
            number: found.number / 0x1_0000_0000,
            day: found.number % 0x1_0000_0000,
        }
    }
}

// The day of a date: by its one number. Hebrew dates are asked for apart: the Hebrew part stays a function of its own, and the other calendars need not save the
// registers that it uses.
#[unsafe(no_mangle)]
pub extern "C" fn ijok_date_to_day(
    calendar: u64,
    year: i64,
    month: u64,
    day: u64,
    weekday: u64,
) -> DayFields
    ensures { day_fields result ≡ day_answer_with calendar year month day weekday }
{
    if calendar == HEBREW {
        return DayFields::from(weekdays::hebrew_day(year, month, day, weekday));
    }
    DayFields::from(weekdays::packed_day(calendar, year, month, day, weekday))
}

// The date of a day.
#[unsafe(no_mangle)]
pub extern "C" fn ijok_day_to_date(calendar: u64, day: u64) -> DateFields
    ensures { date_fields result ≡ date_answer calendar day }
{
    DateFields::from(calendars::day_to_date(calendar, day))
}

// What a position of a year is, and its length.
#[unsafe(no_mangle)]
pub extern "C" fn ijok_position(calendar: u64, year: i64, position: u64) -> PositionFields
    ensures { result ≡ position_fields (position_answer calendar year position) }
{
    PositionFields::from(calendars::position_of(calendar, year, position))
}
