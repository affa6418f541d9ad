// Weekdays, 1 Monday to 7 Sunday: that of a day, and one that is handed in with a date.
#![tactic(auto)]

ghost use Rattle.std.specs.Prelude.{◌≡◌};
ghost use Rattle.counting.specs.Answers.{weekday_of};
ghost use Rattle.calendar_rules.specs.Answers.{day_answer_with};
ghost use Rattle.asking.specs.Steps.{packed_day, packed_tried};

use parts::PackedDay;
use refusals::Refusal;

// The weekday of a day. Where the product is right, as for every day that has a date, the remainder comes from the fraction of day / 7.
pub fn weekday_of(day: u64) -> u64
    ensures { result ≡ weekday_of day }
{
    if day < 0x4000_0000 {
        let fraction = day * 613566757 % 0x1_0000_0000;
        return fraction * 7 / 0x1_0000_0000 + 1;
    }
    day % 7 + 1
}

// The day of a date, with a weekday tried on it last: 13 where it is neither 0 nor the day's.
fn tried(found: PackedDay, weekday: u64) -> PackedDay
    ensures { result.number ≡ packed_tried weekday found.number }
{
    if weekday == 0 {
        return found;
    }
    if found.is_day() && weekday_of(found.number) != weekday {
        return PackedDay::refused(Refusal::WrongWeekday);
    }
    found
}

// The day of a Hebrew date with a weekday.
#[inline(never)]
pub fn hebrew_day(year: i64, month: u64, day: u64, weekday: u64) -> PackedDay
    ensures { result.number ≡ packed_day (day_answer_with 18 year month day weekday) }
{
    tried(numbering::hebrew_day(year, month, day), weekday)
}

// The day of a date with a weekday, 0 for none, as `day_answer_with` and the C interface have it. Plain arguments, as C hands them over (`calendars::Date` stands
// above).
pub fn packed_day(calendar: u64, year: i64, month: u64, day: u64, weekday: u64) -> PackedDay
    ensures { result.number ≡ packed_day (day_answer_with calendar year month day weekday) }
{
    tried(numbering::packed_day(calendar, year, month, day), weekday)
}
