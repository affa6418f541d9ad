// The date of a day. The families of calendars are crates of their own; here each calendar is given its family and its first day.
#![tactic(auto)]

ghost use Rattle.std.specs.Prelude.{◌≤◌};
ghost use Rattle.counting.specs.Answers.{last_day, last_of};
ghost use Rattle.calendar_rules.specs.Calendars.{republican};
ghost use Rattle.calendar_rules.specs.Answers.{date_answer};
ghost use Rattle.parts.specs.Found.{PlaceTo};
ghost use Rattle.listing.specs.Kinds.{row_of};
ghost use Rattle.asking.specs.Steps.{IsDate};

use listing::Calendar;
use march::{Julian, Macedonian, Syrian};
use parts::Place;

// The date of a day in the Republican calendar, which ended.
fn republican_date(day: u32) -> Option<Place>
    ensures { PlaceTo republican (last_of republican) day result }
{
    if listing::last_day(Calendar::Republican as u64) < u64::from(day) {
        return None;
    }
    thirties::coptic_date(thirties::REPUBLICAN, day)
}

// The date of a day that is not too late.
fn place_on(calendar: Calendar, day: u32) -> Option<Place>
    requires { day ≤ last_day }
    ensures { PlaceTo (row_of calendar) (last_of (row_of calendar)) day result }
{
    match calendar {
        Calendar::Egyptian => thirties::plain_date(thirties::EGYPTIAN, day),
        Calendar::Armenian => thirties::plain_date(thirties::ARMENIAN, day),
        Calendar::Khwarizmian => thirties::plain_date(thirties::KHWARIZMIAN, day),
        Calendar::Persian => thirties::persian_date(day),
        Calendar::Ethiopian => thirties::coptic_date(thirties::ETHIOPIAN, day),
        Calendar::Coptic => thirties::coptic_date(thirties::COPTIC, day),
        Calendar::Republican => republican_date(day),
        Calendar::Macedonian => march::date_on::<Macedonian>(day),
        Calendar::Syrian => march::date_on::<Syrian>(day),
        Calendar::Julian => march::date_on::<Julian>(day),
        Calendar::Gregorian => march::gregorian_date(day),
        Calendar::IslamicA => islamic::date_on(islamic::ISLAMIC_A, day),
        Calendar::IslamicB => islamic::date_on(islamic::ISLAMIC_B, day),
        Calendar::Bahai => bahai::date_on(day),
        Calendar::Saka => saka::date_on(day),
        Calendar::Hebrew => hebrew_days::date_on(day),
    }
}

// The date of a day; None where it is refused.
// (With `.ok()?` in place of the match: tried, and the proof didn't close.)
pub fn place(calendar: u64, day: u64) -> Option<Place>
    ensures { IsDate (date_answer calendar day) result }
{
    if listing::LAST_DAY < day {
        return None;
    }
    match Calendar::try_from(calendar) {
        Ok(calendar) => place_on(calendar, day as u32),
        Err(_) => None,
    }
}
