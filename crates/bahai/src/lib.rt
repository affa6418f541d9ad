// The Bahai calendar, 14: eighteen positions of 19 days, one of 4 or 5, and one of 19 again. Counted from the last, where the extra day comes at the end, its
// years are nineteen positions of 19 days and the short one, and of the Gregorian kind: the extra day of year Y falls in the Gregorian year Y + 1844, and the
// first year, which is year 1, is the year 6644 from -4800. Positions are counted from 0. No trait with the other families:
// crate thirties says why.
#![tactic(auto)]

ghost use Rattle.std.specs.Prelude.{cond, ◌≡◌, ◌+◌, ◌-◌, ◌*◌, ◌≤◌, ◌<◌, ltb, get_or};
ghost use Rattle.calendar_rules.specs.Calendars.{bahai};
ghost use Rattle.months.specs.BahaiSaka.{from_last};
ghost use Rattle.months.specs.Leap.{gregorian_long};
ghost use Rattle.months.specs.Parts.{LengthAt};
ghost use Rattle.parts.specs.Found.{MonthAt, PlaceAt};

use gregorian_years::YearDay;
use parts::{Month, Place};

// What the days are less than those counted from -4800.
const DAYS_BEFORE: u32 = 32043;

// A position as so counted: its year, and its place in that year.
#[derive(Clone, Copy, Debug, PartialEq, Eq)]
struct Counted {
    year: u32,
    position: u64,
    ghost small: { position < 20 },
}

// Position p of the year that is i years after the first.
fn counted_position(i: u16, p: u64) -> Counted
    requires { p < 20 }
    ensures year { result.year ≡ 6644 + i + cond (ltb (p + 1) 20) 0 1 }
    ensures position { result.position ≡ p + 1 - 20 * cond (ltb (p + 1) 20) 0 1 }
{
    let wrap = parts::pick(p + 1 < 20, 0, 1);
    Counted {
        year: 6644 + u32::from(i) + (wrap as u32),
        position: p + 1 - 20 * wrap,
    }
}

// Its length: the rule is looked at only for the short one.
fn counted_length(at: Counted) -> u64
    ensures { (result ≡ get_or (from_last (gregorian_long at.year)) at.position 0) × (1 ≤ result) }
{
    if at.position != 19 {
        return 19;
    }
    4 + gregorian_years::extra_days(at.year)
}

pub fn length_at(i: u16, p: u64) -> Option<u64>
    ensures { LengthAt bahai i p result }
{
    if 19 < p {
        return None;
    }
    let at = counted_position(i, p);
    Some(counted_length(at))
}

// A position of the year that is i years after the first.
pub fn month_at(i: u16, p: u64) -> Option<Month>
    ensures { MonthAt bahai i p result }
{
    if 19 < p {
        return None;
    }
    let at = counted_position(i, p);
    Some(Month {
        start: gregorian_years::year_start(at.year) + 19 * at.position - u64::from(DAYS_BEFORE),
        days: counted_length(at),
    })
}

// The date of a day: its position without division.
pub fn date_on(day: u32) -> Option<Place>
    ensures { PlaceAt bahai day result }
{
    if day < 2394647 {
        return None;
    }
    let YearDay { year, rest } = gregorian_years::year_of(day, DAYS_BEFORE);
    let p = 27 * rest / 512;
    let d = rest - 19 * p + 1;
    let wrap = parts::pick(p != 0, 1, 0);
    Some(parts::place_in(-6644, year + (wrap as u32), parts::pick(p != 0, p, 20), d))
}
