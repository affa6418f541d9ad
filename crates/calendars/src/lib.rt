// The sixteen calendars: the day of a date, the date of a day, and what a position of a year is. Each is found by a crate of its own (`weekdays`, `dating`,
// `measuring`); here it becomes an answer.
#![tactic(auto)]

ghost use Rattle.std.specs.Prelude.{◌≡◌, Ok, Err};
ghost use Rattle.calendar_rules.specs.Answers.{day_answer_with, date_answer, position_answer};
ghost use Rattle.asking.specs.Steps.{none_number, none_there};
ghost use Rattle.calendars.specs.Paper.{day_paper, date_paper, position_paper};

use listing::Calendar;
use refusals::Refusal;

const HEBREW: u64 = Calendar::Hebrew as u64;

// The position of a Hebrew year that has days in leap years only.
const LEAP_MONTH: u64 = 7;

// No calendar has more positions.
pub const MOST_POSITIONS: u64 = 20;

// A date. Years are signed, and year 0 exists; months and days are counted from 1. Weekdays are 1 Monday to 7 Sunday; 0 hands in none,
// a number and no Option, as `day_answer_with` and the C interface have it.
#[derive(Clone, Copy, Debug, PartialEq, Eq)]
pub struct Date {
    pub year: i64,
    pub month: u64,
    pub day: u64,
    pub weekday: u64,
}

// What a position of a year is: a month of so many days, a strip of so many loose days, or none this year.
#[derive(Clone, Copy, Debug, PartialEq, Eq)]
pub enum Position {
    Month(u64),
    Strip(u64),
    None,
}

impl Position {
    // Its days; 0 where it is none.
    pub fn days(self) -> u64
        ensures { result ≡ (position_paper (Ok self)).days }
    {
        match self {
            Position::Month(days) | Position::Strip(days) => days,
            Position::None => 0,
        }
    }
}

// The day of a date, its Julian day number. (The calendar is no part of the date: any number is answered.) The refusals 1, 2, 3, 4, 17, 5, 13 are tried.
pub fn date_to_day(calendar: u64, date: Date) -> Result<u64, Refusal>
    ensures { day_paper result ≡ day_answer_with calendar date.year date.month date.day date.weekday }
{
    let found = weekdays::packed_day(calendar, date.year, date.month, date.day, date.weekday);
    found.to_result()
}

// A position without days: position 7 of a common Hebrew year is none, any other there is not.
fn no_days(calendar: u64, year: i64, position: u64) -> Result<Position, Refusal>
    ensures { position_paper result ≡ none_there calendar position (none_number calendar year) }
{
    match listing::no_month(calendar, year) {
        Refusal::NoSuchMonth if calendar == HEBREW && position == LEAP_MONTH => Ok(Position::None),
        why => Err(why),
    }
}

// What a position of a year is, and its length. The refusals 1, 2, 3 are tried.
#[tactic(auto, using(asking::proofs::Answers::days_none))]
pub fn position_of(calendar: u64, year: i64, position: u64) -> Result<Position, Refusal>
    ensures { position_paper result ≡ position_answer calendar year position }
{
    let Some(days) = measuring::days(calendar, year, position) else {
        return no_days(calendar, year, position);
    };
    let is_strip = listing::strip(calendar) == Some(position);
    if is_strip {
        return Ok(Position::Strip(days));
    }
    Ok(Position::Month(days))
}

// Why a day has no date.
#[tactic(auto, using(asking::proofs::Answers::date_refused, asking::proofs::Arms::listed_some, asking::proofs::Arms::unlisted))]
fn no_date(calendar: u64, day: u64) -> Refusal
    requires { (date_answer calendar day).month ≡ 0 }
    ensures { date_paper (Err result) ≡ date_answer calendar day }
{
    if !listing::is_listed(calendar) {
        return Refusal::UnknownCalendar;
    }
    if listing::LAST_DAY < day {
        return Refusal::DayOutOfRange;
    }
    if listing::last_day(calendar) < day {
        return Refusal::CalendarEnded;
    }
    Refusal::DayOutOfRange
}

// The date of a day. The refusals 1, 5, 17 are tried.
#[tactic(auto, using(asking::proofs::Answers::date_given))]
pub fn day_to_date(calendar: u64, day: u64) -> Result<Date, Refusal>
    ensures { date_paper result ≡ date_answer calendar day }
{
    let Some(found) = dating::place(calendar, day) else {
        return Err(no_date(calendar, day));
    };
    Ok(Date {
        year: found.year,
        month: found.month,
        day: found.day,
        weekday: weekdays::weekday_of(day),
    })
}
