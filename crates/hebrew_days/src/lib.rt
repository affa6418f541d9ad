// The Hebrew calendar, 18: a position of a year, and the date of a day. A year's first day and kind are those of crate gates. Positions are counted from 0.
// No trait with the other families: crate thirties says why.
#![tactic(auto)]

ghost use Rattle.std.specs.Prelude.{◌≡◌, ◌-◌, ◌≤◌, ◌<◌, pos};
ghost use Rattle.counting.specs.Answers.{years, last_day};
ghost use Rattle.hebrew.proofs.Calendar.{YearOf};
ghost use Rattle.calendar_rules.specs.Calendars.{hebrew};
ghost use Rattle.months.specs.Parts.{LengthAt, DateIs};
ghost use Rattle.parts.specs.Found.{MonthAt, PlaceTo};
ghost use Rattle.months.specs.Hebrew.{short, month_before, month_of};

use gates::{FIRST_DAY, Year};
use parts::{LAST_DAY, Month, Place};

// The lengths of the positions: common deficient, regular, abundant, then leap deficient, regular, abundant.
const KINDS: [[u8; 13]; 6] = [
    [30, 29, 29, 29, 30, 29, 0, 30, 29, 30, 29, 30, 29],
    [30, 29, 30, 29, 30, 29, 0, 30, 29, 30, 29, 30, 29],
    [30, 30, 30, 29, 30, 29, 0, 30, 29, 30, 29, 30, 29],
    [30, 29, 29, 29, 30, 30, 29, 30, 29, 30, 29, 30, 29],
    [30, 29, 30, 29, 30, 30, 29, 30, 29, 30, 29, 30, 29],
    [30, 30, 30, 29, 30, 30, 29, 30, 29, 30, 29, 30, 29],
];

// By how much the days before a month are less than 30 each, four bits a month: six words, where a table would have 84 numbers.
const SHORTFALLS: [u64; 6] = [
    0x7665544332100,
    0x6554433221100,
    0x5443322110000,
    0x76655443332100,
    0x65544332221100,
    0x54433221110000,
];

// The days before the months of a year of a kind, whose word is looked up once.
#[derive(Clone, Copy, Debug, PartialEq, Eq)]
struct Months {
    kind: u64,
    word: u64,
    ghost below: { kind < 6 },
    ghost word_is: { word ≡ short kind },
}

impl Months {
    fn of(year: Year) -> Months
        ensures { result.kind ≡ year.kind }
    {
        Months {
            kind: year.kind,
            word: SHORTFALLS[year.kind as usize],
        }
    }

    // The days before month q.
    fn before(self, q: u64) -> u64
        requires { q < 14 }
        ensures { result ≡ month_before self.kind q }
    {
        30 * q - (self.word >> (4 * q)) % 16
    }
}

// ---- a position of the year that is i years after the first

// The month of a position: the place that is no month in a common year is not counted.
fn month_of(year: Year, p: u64) -> u64
    requires { p ≤ 12 }
    ensures { (result ≡ month_of year.leap p) × (result < 13) }
{
    parts::pick(6 < p, p + year.leap, p + 1) - 1
}

pub fn length_at(i: u16, p: u64) -> Option<u64>
    ensures { LengthAt hebrew i p result }
{
    if 12 < p {
        return None;
    }
    let year = gates::year_after(i);
    let days = u64::from(KINDS[year.kind as usize][p as usize]);
    (days != 0).then_some(days)
}

// The seventh position of a common year is none. The length is what the days before the next month are more.
pub fn month_at(i: u16, p: u64) -> Option<Month>
    ensures { MonthAt hebrew i p result }
{
    if 12 < p {
        return None;
    }
    let year = gates::year_after(i);
    let none = p + 8 * year.leap == 6;
    if none {
        return None;
    }
    let q = month_of(year, p);
    let months = Months::of(year);
    let here = months.before(q);
    let next = months.before(q + 1);
    Some(Month {
        start: year.start + here,
        days: next - here,
    })
}

// ---- the date of a day

// A day of a year.
fn date_in(year: Year, day: u64) -> Place
    requires { YearOf day year.number }
    ensures { DateIs (years hebrew) (pos 1) (day - 347998) result.year result.month result.day }
{
    let rest = day - year.start;
    let q = rest / 32;
    let months = Months::of(year);
    let here = months.before(q);
    let there = months.before(q + 1);
    let p = parts::pick(there <= rest, q + 1, q);
    let start = parts::pick(there <= rest, there, here);
    let late = parts::pick(6 + 13 * year.leap <= p, 1, 0);
    parts::place_in(0, year.number as u32, p + late + 1, rest - start + 1)
}

// The year of a day: by one division, and the year before where that is one too high; for the days up to the last, whose years the products are right for.
fn year_on(day: u64) -> Year
    requires { (347998 ≤ day) × (day ≤ 5373484) }
    ensures { YearOf day result.number }
{
    let i = (day - 347970) * 98496 / 35975351;
    let year = gates::year_after(i as u16);
    if day < year.start {
        return gates::year_after((i - 1) as u16);
    }
    year
}

pub fn date_on(day: u32) -> Option<Place>
    ensures { PlaceTo hebrew last_day day result }
{
    let n = u64::from(day);
    if n < FIRST_DAY || LAST_DAY < n {
        return None;
    }
    Some(date_in(year_on(n), n))
}
