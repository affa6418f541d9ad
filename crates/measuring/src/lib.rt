// The length of a position in a year. The families of calendars are crates of their own; here each calendar is given its family. (`dating` and `numbering` have a
// match of their own: three questions, for each of which a family has another function.)
#![tactic(auto)]

ghost use Rattle.std.specs.Prelude.{◌≤◌, negsuc};
ghost use Rattle.counting.specs.Years.{year_at};
ghost use Rattle.calendar_rules.specs.Answers.{position_answer};
ghost use Rattle.months.specs.Parts.{IsLength, LengthAt};
ghost use Rattle.listing.specs.Kinds.{row_of};
ghost use Rattle.asking.specs.Steps.{Answered, Sought};

use listing::Calendar;
use march::{Julian, Macedonian, Syrian};

// The length of a position, counted from 0, of the year that is i years after the calendar's first.
fn length_of(calendar: Calendar, i: u16, p: u64) -> Option<u64>
    ensures { LengthAt (row_of calendar) i p result }
{
    match calendar {
        Calendar::Egyptian | Calendar::Armenian | Calendar::Khwarizmian => {
            thirties::plain_length(p)
        }
        Calendar::Persian => thirties::persian_length(p),
        Calendar::Ethiopian | Calendar::Coptic => thirties::coptic_length(i, p),
        // (By itself, since it has an end, which changes no year: with the two before it, the proof didn't close.)
        Calendar::Republican => thirties::coptic_length(i, p),
        Calendar::Macedonian => march::length_at::<Macedonian>(i, p),
        Calendar::Syrian => march::length_at::<Syrian>(i, p),
        Calendar::Julian => march::length_at::<Julian>(i, p),
        Calendar::Gregorian => march::gregorian_length(i, p),
        Calendar::IslamicA | Calendar::IslamicB => islamic::length_at(i, p),
        Calendar::Bahai => bahai::length_at(i, p),
        Calendar::Saka => saka::length_at(i, p),
        Calendar::Hebrew => hebrew_days::length_at(i, p),
    }
}

// The same of the calendar that has a number, if one has.
fn length_by_number(c: u64, i: u16, p: u64) -> Option<u64>
    ensures { Answered c (λ K. LengthAt K i p result) result }
{
    let calendar = Calendar::try_from(c).ok()?;
    length_of(calendar, i, p)
}

// The same of the year that is y years after -4712, the first year of the Julian and the Gregorian calendar; that of the others is year 1. By the number, since a
// number of no calendar comes here too.
fn length_in(c: u64, y: u16, p: u64) -> Option<u64>
    requires { y ≤ 24712 }
    ensures { Sought c (year_at (negsuc 4711) y) (λ K i. LengthAt K i p result) result }
{
    if c == Calendar::Julian as u64 {
        return length_of(Calendar::Julian, y, p);
    }
    if c == Calendar::Gregorian as u64 {
        return length_of(Calendar::Gregorian, y, p);
    }
    let i = y.checked_sub(listing::YEARS_BEFORE_1)?;
    length_by_number(c, i, p)
}

// The length of a position in a year; None where it has no days or is refused.
pub fn days(calendar: u64, year: i64, position: u64) -> Option<u64>
    ensures { IsLength (position_answer calendar year position).days result }
{
    if !listing::year_inside(year) {
        return None;
    }
    // Not `checked_sub`: the compiler makes its difference of the test's bit, in a register that still holds a part of the last answer, so that each call waits
    // for the one before.
    if position == 0 {
        return None;
    }
    length_in(calendar, listing::since(year), position - 1)
}
