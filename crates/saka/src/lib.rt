// The Saka calendar, 15: a position of 30 or 31 days, five of 31 and six of 30. Counted from the second, where the extra day comes at the end, its years are of
// the Gregorian kind: the extra day of year Y falls in the Gregorian year Y + 78, and the first year, which is year 1, begins in the year 4878 from -4800.
// Positions are counted from 0. No trait with the other families: crate thirties says why.
#![tactic(auto)]

ghost use Rattle.std.specs.Prelude.{cond, ◌≡◌, ◌+◌, ◌≤◌, ◌<◌, ltb};
ghost use Rattle.calendar_rules.specs.Calendars.{saka};
ghost use Rattle.months.specs.BahaiSaka.{saka_length};
ghost use Rattle.months.specs.Leap.{gregorian_long};
ghost use Rattle.months.specs.Parts.{LengthAt};
ghost use Rattle.parts.specs.Found.{MonthAt, PlaceAt};

use gregorian_years::YearDay;
use parts::{Month, Place};

// What the days are less than those counted from -4800.
const DAYS_BEFORE: u32 = 31993;

// The year so counted that position p of the year i years after the first is in.
fn counted_year(i: u16, p: u64) -> u32
    requires { p < 12 }
    ensures { result ≡ 4878 + i + cond (ltb (p + 11) 12) 0 1 }
{
    let wrap = parts::pick(p + 11 < 12, 0, 1);
    4878 + u32::from(i) + (wrap as u32)
}

// The length of position p, in year z so counted.
fn counted_length(z: u32, p: u64) -> u64
    requires { p < 12 }
    ensures { (result ≡ saka_length (gregorian_long z) p) × (1 ≤ result) }
{
    let first = 30 + gregorian_years::extra_days(z);
    let usual = parts::pick(p < 6, 31, 30);
    parts::pick(p == 0, first, usual)
}

pub fn length_at(i: u16, p: u64) -> Option<u64>
    ensures { LengthAt saka i p result }
{
    if 11 < p {
        return None;
    }
    Some(counted_length(counted_year(i, p), p))
}

// A position of the year that is i years after the first.
pub fn month_at(i: u16, p: u64) -> Option<Month>
    ensures { MonthAt saka i p result }
{
    if 11 < p {
        return None;
    }
    let z = counted_year(i, p);
    let m = parts::pick(p == 0, 12, p);
    let early = parts::pick(m < 6, m, 6);
    Some(Month {
        start: gregorian_years::year_start(z) + (30 * m + early - 31) - u64::from(DAYS_BEFORE),
        days: counted_length(z, p),
    })
}

// The date of a day: its position without division, as a number of 1024ths and two more, so that none is below 0.
pub fn date_on(day: u32) -> Option<Place>
    ensures { PlaceAt saka day result }
{
    if day < 1749995 {
        return None;
    }
    let YearDay { year, rest } = gregorian_years::year_of(day, DAYS_BEFORE);
    let scaled = parts::pick(rest < 155, 33 * rest + 2052, 34 * rest + 1922);
    let q = scaled / 1024 - 2;
    let early = parts::pick(q < 5, q, 5);
    let d = rest - (30 * q + early) + 1;
    let wrap = parts::pick(q == 11, 1, 0);
    Some(parts::place_in(
        -4878,
        year + (wrap as u32),
        parts::pick(q == 11, 1, q + 2),
        d,
    ))
}
