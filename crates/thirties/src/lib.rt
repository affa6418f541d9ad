// Calendars of twelve positions of 30 days and a shorter one: 1 to 3, where it is the last; 4, where it is the ninth; 5 to 7, where it is the last and
// longer in a leap year. A position of the year that is i years after the first, and the date of a day: the day of the year is the remainder of the
// division that gives the year, and its position lies on the line 30, 1, 0. Positions are counted from 0. No trait for the three
// questions here and in the other families: only some are asked for a first day, only some lengths by the year, and each calendar would be a type for what is one
// argument.
#![tactic(auto)]

ghost use Rattle.std.specs.Prelude.{cond, ◌≡◌, ◌+◌, ◌/◌, ◌%◌, ◌≤◌, ◌<◌, eqb, min, IfSome, MatchOption, pos};
ghost use Rattle.counting.specs.Years.{year_at};
ghost use Rattle.calendar_rules.specs.Calendars.{persian};
ghost use Rattle.months.specs.Parts.{LengthEver, LengthYearly, LengthIn, plain_from, coptic_from};
ghost use Rattle.parts.specs.Found.{MonthAt, PlaceAt};

use parts::{Month, Place};

// The first days.
pub const EGYPTIAN: u32 = 1448638;

pub const ARMENIAN: u32 = 1922868;

pub const KHWARIZMIAN: u32 = 1952068;

const PERSIAN: u32 = 1952063;

pub const ETHIOPIAN: u32 = 1724221;

pub const COPTIC: u32 = 1825030;

pub const REPUBLICAN: u32 = 2375840;

// The length of a position where one has so many days and all others have 30.
fn thirty_but(short: u64, days: u64, p: u64) -> Option<u64>
    ensures { MatchOption result (12 < p) (λ n. (p ≤ 12) × (n ≡ cond (eqb p short) days 30) × (min days 30 ≤ n)) }
{
    if 12 < p {
        return None;
    }
    Some(parts::pick(p == short, days, 30))
}

// The date of a day of the year that is i years after year 1, where the positions before it have 30 days.
fn by_thirties(i: u32, rest: u64) -> Place
    ensures { (result.year ≡ year_at (pos 1) i) × (result.month ≡ rest / 30 + 1) × (result.day ≡ rest % 30 + 1) }
{
    parts::place_in(1, i, rest / 30 + 1, rest % 30 + 1)
}

// ---- 1 to 3

pub fn plain_length(p: u64) -> Option<u64>
    ensures { LengthEver plain_from p result × IfSome result (λ _. p ≤ 12) }
{
    thirty_but(12, 5, p)
}

pub fn plain_month(first: u32, i: u16, p: u64) -> Option<Month>
    ensures { MonthAt (plain_from first) i p result }
{
    let days = plain_length(p)?;
    let start = u64::from(first) + 365 * u64::from(i) + 30 * p;
    Some(Month { start, days })
}

pub fn plain_date(first: u32, day: u32) -> Option<Place>
    ensures { PlaceAt (plain_from first) day result }
{
    let n = day.checked_sub(first)?;
    Some(by_thirties(n / 365, u64::from(n % 365)))
}

// ---- 4: the days after the short position are counted as if it had 30

pub fn persian_length(p: u64) -> Option<u64>
    ensures { LengthYearly persian p result × IfSome result (λ _. p ≤ 12) }
{
    thirty_but(8, 5, p)
}

pub fn persian_month(i: u16, p: u64) -> Option<Month>
    ensures { MonthAt persian i p result }
{
    let days = persian_length(p)?;
    let short = parts::pick(8 < p, 25, 0);
    let start = u64::from(PERSIAN) + 365 * u64::from(i) + (30 * p - short);
    Some(Month { start, days })
}

pub fn persian_date(day: u32) -> Option<Place>
    ensures { PlaceAt persian day result }
{
    let n = day.checked_sub(PERSIAN)?;
    let left = u64::from(n % 365);
    let rest = parts::pick(244 < left, left + 25, left);
    Some(by_thirties(n / 365, rest))
}

// ---- 5 to 7: one leap year in four

pub fn coptic_length(i: u16, p: u64) -> Option<u64>
    ensures { LengthIn coptic_from i p result × IfSome result (λ _. p ≤ 12) }
{
    let last = 5 + ((u64::from(i) + 1) % 4 + 1) / 4;
    thirty_but(12, last, p)
}

pub fn coptic_month(first: u32, i: u16, p: u64) -> Option<Month>
    ensures { MonthAt (coptic_from first) i p result }
{
    let days = coptic_length(i, p)?;
    let start = u64::from(first) + (1461 * u64::from(i) + 1) / 4 + 30 * p;
    Some(Month { start, days })
}

pub fn coptic_date(first: u32, day: u32) -> Option<Place>
    ensures { PlaceAt (coptic_from first) day result }
{
    let n = day.checked_sub(first)?;
    let t = 4 * u64::from(n) + 2;
    Some(by_thirties((t / 1461) as u32, t % 1461 / 4))
}
