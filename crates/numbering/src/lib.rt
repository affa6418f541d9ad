// The day of a date. It is handed over as one number, since a large function with two callers is called. The families of calendars are crates of their own; here
// each calendar is given its family and its first day, and the refusals are tried in their order: 1, 2, 3, 4, 17, 5. A test in the form that a date meets comes
// first, so that the compiler puts what follows next to it. A calendar is asked for by its number, and the parts of a date are arguments, as C hands them over: any
// are asked, and the clause `day_answer calendar year month day` answers them.
#![tactic(auto)]

ghost use Rattle.std.specs.Prelude.{◌≡◌, ◌≤◌, negsuc};
ghost use Rattle.counting.specs.Years.{year_at};
ghost use Rattle.calendar_rules.specs.Answers.{day_answer};
ghost use Rattle.parts.specs.Found.{MonthAt};
ghost use Rattle.listing.specs.Kinds.{row_of};
ghost use Rattle.listing.specs.declared.Calendar.TheVariants.{Julian, Gregorian, Hebrew};
ghost use Rattle.asking.specs.Steps.{Sought, in_range, end_tried, packed_day};

use listing::{Calendar, LAST_DAY, LAST_YEAR, YEARS_BEFORE_1};
use march::{Macedonian, Syrian};
use parts::{Month, PackedDay};
use refusals::Refusal;

const REPUBLICAN: u64 = Calendar::Republican as u64;

const JULIAN: u64 = Calendar::Julian as u64;

const GREGORIAN: u64 = Calendar::Gregorian as u64;

const HEBREW: u64 = Calendar::Hebrew as u64;

// ---- the calendars

// A position, counted from 0, of the year that is i years after year 1. The calendars are listed in dating and measuring too: a family answers each question with
// another function, and a row of a table would hold functions. (10, 11 and 18 have functions of their own: were those of 10 and 18 called from here too,
// they would not be put where they are called, and a date of calendar 10 took a fifth longer.)
fn month_at(calendar: Calendar, i: u16, p: u64) -> Option<Month>
    requires { (calendar ≡ Julian → ⊥) × (calendar ≡ Gregorian → ⊥) × (calendar ≡ Hebrew → ⊥) }
    ensures { MonthAt (row_of calendar) i p result }
{
    match calendar {
        Calendar::Egyptian => thirties::plain_month(thirties::EGYPTIAN, i, p),
        Calendar::Armenian => thirties::plain_month(thirties::ARMENIAN, i, p),
        Calendar::Khwarizmian => thirties::plain_month(thirties::KHWARIZMIAN, i, p),
        Calendar::Persian => thirties::persian_month(i, p),
        Calendar::Ethiopian => thirties::coptic_month(thirties::ETHIOPIAN, i, p),
        Calendar::Coptic => thirties::coptic_month(thirties::COPTIC, i, p),
        Calendar::Republican => thirties::coptic_month(thirties::REPUBLICAN, i, p),
        Calendar::Macedonian => march::month_at::<Macedonian>(i, p),
        Calendar::Syrian => march::month_at::<Syrian>(i, p),
        Calendar::Julian | Calendar::Gregorian | Calendar::Hebrew => None,
        Calendar::IslamicA => islamic::month_at(islamic::ISLAMIC_A, i, p),
        Calendar::IslamicB => islamic::month_at(islamic::ISLAMIC_B, i, p),
        Calendar::Bahai => bahai::month_at(i, p),
        Calendar::Saka => saka::month_at(i, p),
    }
}

// The same of the year that is y years after -4712.
fn month_in(c: u64, y: u16, p: u64) -> Option<Month>
    requires { (c ≡ 11 → ⊥) × (c ≡ 18 → ⊥) × (y ≤ 24712) }
    ensures { Sought c (year_at (negsuc 4711) y) (λ K i. MonthAt K i p result) result }
{
    if c != JULIAN {
        let early = y < YEARS_BEFORE_1;
        if early {
            return None;
        }
        let Ok(calendar) = Calendar::try_from(c) else {
            return None;
        };
        return month_at(calendar, y - YEARS_BEFORE_1, p);
    }
    march::month_at::<march::Julian>(y, p)
}

// ---- the refusals

// A day, 5 tried.
fn in_time(n: u64) -> PackedDay
    ensures { result.number ≡ in_range n }
{
    if LAST_DAY < n {
        return PackedDay::refused(Refusal::DayOutOfRange);
    }
    PackedDay { number: n }
}

// A Republican day, 17 tried: a day that is out of range is after the end.
fn before_end(n: u64) -> PackedDay
    ensures { result.number ≡ end_tried 7 (in_range n) }
{
    if listing::last_day(REPUBLICAN) < n {
        return PackedDay::refused(Refusal::CalendarEnded);
    }
    PackedDay { number: n }
}

// A day of any calendar, 17 and 5 tried.
#[tactic(auto, using(asking::proofs::Answers::end_of_other))]
fn limited(calendar: u64, n: u64) -> PackedDay
    ensures { result.number ≡ end_tried calendar (in_range n) }
{
    if calendar == REPUBLICAN {
        return before_end(n);
    }
    in_time(n)
}

fn gregorian_day(year: i64, month: u64, day: u64) -> PackedDay
    ensures { result.number ≡ packed_day (day_answer 11 year month day) }
{
    if listing::year_inside(year) {
        if (month == 0) | (12 < month) {
            return PackedDay::refused(Refusal::NoSuchMonth);
        }
        return march::gregorian_day(listing::since(year), month - 1, day);
    }
    PackedDay::refused(Refusal::YearOutOfRange)
}

pub fn hebrew_day(year: i64, month: u64, day: u64) -> PackedDay
    ensures { result.number ≡ packed_day (day_answer 18 year month day) }
{
    if (year < 1) | (LAST_YEAR < year) {
        return PackedDay::refused(Refusal::YearOutOfRange);
    }
    if month == 0 {
        return PackedDay::refused(Refusal::NoSuchMonth);
    }
    let Some(m) = hebrew_days::month_at((year - 1) as u16, month - 1) else {
        return PackedDay::refused(Refusal::NoSuchMonth);
    };
    if (day == 0) | (m.days < day) {
        return PackedDay::refused(Refusal::NoSuchDay);
    }
    in_time(m.start + (day - 1))
}

// All others.
fn other_day(calendar: u64, year: i64, month: u64, day: u64) -> PackedDay
    requires { (calendar ≡ 11 → ⊥) × (calendar ≡ 18 → ⊥) }
    ensures { result.number ≡ packed_day (day_answer calendar year month day) }
{
    if listing::year_inside(year) {
        if month == 0 {
            return PackedDay::refused(listing::no_month(calendar, year));
        }
        let Some(m) = month_in(calendar, listing::since(year), month - 1) else {
            return PackedDay::refused(listing::no_month(calendar, year));
        };
        if (day == 0) | (m.days < day) {
            return PackedDay::refused(Refusal::NoSuchDay);
        }
        return limited(calendar, m.start + (day - 1));
    }
    PackedDay::refused(listing::no_month(calendar, year))
}

// Any calendar.
pub fn packed_day(calendar: u64, year: i64, month: u64, day: u64) -> PackedDay
    ensures { result.number ≡ packed_day (day_answer calendar year month day) }
{
    if calendar == GREGORIAN {
        return gregorian_day(year, month, day);
    }
    if calendar == HEBREW {
        return hebrew_day(year, month, day);
    }
    other_day(calendar, year, month, day)
}
