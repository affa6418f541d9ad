// The Islamic calendars, 12 and 13: eleven leap years in thirty, and months of 30 and 29 days in turn, which lie on the line 59, 2, 1. Positions are counted
// from 0. No trait with the other families: crate thirties says why.
#![tactic(auto)]

ghost use Rattle.std.specs.Prelude.{◌≤◌, IfSome};
ghost use Rattle.months.specs.Parts.{LengthIn, islamic_from};
ghost use Rattle.parts.specs.Found.{MonthAt, PlaceAt};

use parts::{Month, Place};

// The first days.
pub const ISLAMIC_A: u32 = 1948439;

pub const ISLAMIC_B: u32 = 1948440;

pub fn length_at(i: u16, p: u64) -> Option<u64>
    ensures { LengthIn islamic_from i p result × IfSome result (λ _. p ≤ 11) }
{
    if 11 < p {
        return None;
    }
    let last = parts::pick(19 <= (10631 * u64::from(i) + 14) % 30, 30, 29);
    Some(parts::pick(p == 11, last, 30 - p % 2))
}

// A position of the year that is i years after the first.
pub fn month_at(first: u32, i: u16, p: u64) -> Option<Month>
    ensures { MonthAt (islamic_from first) i p result }
{
    let days = length_at(i, p)?;
    let start = u64::from(first) + (10631 * u64::from(i) + 14) / 30 + (59 * p + 1) / 2;
    Some(Month { start, days })
}

// The date of a day. The quotient is held to the last position, for the last day of a leap year.
pub fn date_on(first: u32, day: u32) -> Option<Place>
    ensures { PlaceAt (islamic_from first) day result }
{
    let n = day.checked_sub(first)?;
    let t = 30 * u64::from(n) + 15;
    let rest = t % 10631 / 30;
    let q = 2 * rest / 59;
    let p = parts::pick(q < 11, q, 11);
    Some(parts::place_in(1, (t / 10631) as u32, p + 1, rest - (59 * p + 1) / 2 + 1))
}
