// The calendars that are counted from March, where the leap day is the last: 8 to 10 with every fourth year leap, 11 by the Gregorian rule. Years are counted
// from March of -4800; months lie on the line 153, 5, 2. Positions are counted from 0.
#![tactic(auto)]

ghost use Rattle.std.specs.Prelude.{cond, ◌||◌, ◌≡◌, ℕ, ◌+◌, ◌-◌, ◌*◌, ◌/◌, ◌%◌, ◌^◌, ◌≤◌, ◌<◌, ℤ, negsuc, eqb, ltb};
ghost use Rattle.counting.specs.Answers.{Calendar};
ghost use Rattle.calendar_rules.specs.Calendars.{macedonian, syrian, julian, gregorian};
ghost use Rattle.months.specs.Leap.{gregorian_long};
ghost use Rattle.months.specs.March.{next_march, OfJulianKind, MarchDate, month_length};
ghost use Rattle.months.specs.Parts.{LengthAt, PackedAt};
ghost use Rattle.parts.specs.Found.{MonthAt, PlaceAt};
ghost use Rattle.months.proofs.MarchDates.{macedonian_kind, syrian_kind, julian_kind};

use parts::{LAST_DAY, Month, PackedDay, Place};
use refusals::Refusal;

// The constants of the Julian calendar that the Gregorian shares: its first year from March, the months from March to its beginning, and the year of its dates.
const JULIAN_YEAR: u16 = 87;

const JULIAN_TURN: u64 = 10;

const JULIAN_BEFORE: i32 = -4800;

// What the days are less than those counted from March of -4800.
const JULIAN_DAYS_BEFORE: u64 = 32082;

const GREGORIAN_DAYS_BEFORE: u32 = 32044;

// A month of the years that are counted from March: its year, and how many months after March it is.
#[derive(Clone, Copy, Debug, PartialEq, Eq)]
struct MarchMonth {
    year: u32,
    month: u64,
    ghost small: { month < 12 },
}

// Position p of the year that is i years after the first, where years begin turn months after March, the first in the year first.
fn month_of(first: u16, turn: u64, i: u16, p: u64) -> MarchMonth
    requires { (turn < 12) × (p < 12) }
    ensures year { result.year ≡ first + i + next_march turn p }
    ensures month { result.month ≡ p + turn - 12 * next_march turn p }
{
    let next = parts::pick(p + turn < 12, 0, 1);
    MarchMonth {
        year: u32::from(first) + u32::from(i) + (next as u32),
        month: p + turn - 12 * next,
    }
}

// The days before a month, on the line 153, 5, 2: for these numbers by a multiplication that needs no division.
fn days_before(at: MarchMonth) -> u64
    ensures { result ≡ (153 * at.month + 2) / 5 }
{
    let q = at.month;
    (979 * q + 16) / 32
}

// The length of a month, given that of February. The bits are those of the months of 31 days: a word in a register, where a table would be loaded.
fn month_length(february: u64, at: MarchMonth) -> u64
    requires { february ≤ 29 }
    ensures { result ≡ cond (eqb at.month 11) february (30 + 1717 / 2 ^ at.month % 2) }
{
    let q = at.month;
    parts::pick(q == 11, february, 30 + (0x6b5 >> q) % 2)
}

// The date of a day, given its year from March and the days of that year before it.
fn date_in(before: i32, turn: u64, z: u32, rest: u64) -> Place
    requires { (turn < 12) × (z < 4294967295) × (rest ≤ 365) }
    ensures { MarchDate before turn z rest result.year result.month result.day }
{
    let p = (5 * rest + 2) / 153;
    let d = rest - (153 * p + 2) / 5 + 1;
    if turn <= p {
        return parts::place_in(before, z + 1, p + 1 - turn, d);
    }
    parts::place_in(before, z, p + 13 - turn, d)
}

// ---- Julian kind: every fourth year is leap

// A calendar of this kind by its constants: its years begin TURN months after March, the first in YEAR, counted from March of -4800, on FIRST_DAY. BEFORE is the
// year of its dates before that in year 0.
pub trait JulianKind {
    const YEAR: u16;

    const TURN: u64;

    const BEFORE: i32;

    const FIRST_DAY: u32;

    ghost YEAR: { ℕ };

    ghost TURN: { ℕ };

    ghost BEFORE: { ℤ };

    ghost FIRST_DAY: { ℕ };

    ghost calendar: { Calendar };

    ghost of_kind: { OfJulianKind calendar YEAR TURN BEFORE FIRST_DAY };
}

pub struct Macedonian;

impl JulianKind for Macedonian {
    const YEAR: u16 = 4489;

    const TURN: u64 = 6;

    const BEFORE: i32 = -4489;

    const FIRST_DAY: u32 = 1607709;

    ghost YEAR = { 4489 };

    ghost TURN = { 6 };

    ghost BEFORE = { negsuc 4488 };

    ghost FIRST_DAY = { 1607709 };

    ghost calendar = { macedonian };

    ghost of_kind = { macedonian_kind };
}

pub struct Syrian;

impl JulianKind for Syrian {
    const YEAR: u16 = 4489;

    const TURN: u64 = 7;

    const BEFORE: i32 = -4489;

    const FIRST_DAY: u32 = 1607739;

    ghost YEAR = { 4489 };

    ghost TURN = { 7 };

    ghost BEFORE = { negsuc 4488 };

    ghost FIRST_DAY = { 1607739 };

    ghost calendar = { syrian };

    ghost of_kind = { syrian_kind };
}

pub struct Julian;

impl JulianKind for Julian {
    const YEAR: u16 = JULIAN_YEAR;

    const TURN: u64 = JULIAN_TURN;

    const BEFORE: i32 = JULIAN_BEFORE;

    const FIRST_DAY: u32 = 0;

    ghost YEAR = { 87 };

    ghost TURN = { 10 };

    ghost BEFORE = { negsuc 4799 };

    ghost FIRST_DAY = { 0 };

    ghost calendar = { julian };

    ghost of_kind = { julian_kind };
}

// The length of the February that ends year z.
fn february(z: u32) -> u64
    ensures { result ≡ cond (eqb (z % 4) 3) 29 28 }
{
    28 + (u64::from(z) % 4 + 1) / 4
}

// The length of a position of the year that is i years after the first.
pub fn length_at<K: JulianKind>(i: u16, p: u64) -> Option<u64>
    ensures { LengthAt K.calendar i p result }
{
    if 11 < p {
        return None;
    }
    let month = month_of(K::YEAR, K::TURN, i, p);
    Some(month_length(february(month.year), month))
}

// Such a position.
pub fn month_at<K: JulianKind>(i: u16, p: u64) -> Option<Month>
    ensures { MonthAt K.calendar i p result }
{
    if 11 < p {
        return None;
    }
    let at = month_of(K::YEAR, K::TURN, i, p);
    let days = month_length(february(at.year), at);
    Some(Month {
        start: 1461 * u64::from(at.year) / 4 + days_before(at) - JULIAN_DAYS_BEFORE,
        days,
    })
}

// The date of a day.
pub fn date_on<K: JulianKind>(day: u32) -> Option<Place>
    ensures { PlaceAt K.calendar day result }
{
    if day < K::FIRST_DAY {
        return None;
    }
    let t = 4 * (u64::from(day) + JULIAN_DAYS_BEFORE) + 3;
    Some(date_in(K::BEFORE, K::TURN, (t / 1461) as u32, t % 1461 / 4))
}

// ---- Gregorian: another rule of leap years, and no constant, so that its functions stand beside the generic ones

pub fn gregorian_length(i: u16, p: u64) -> Option<u64>
    ensures { LengthAt gregorian i p result }
{
    if 11 < p {
        return None;
    }
    let at = month_of(JULIAN_YEAR, JULIAN_TURN, i, p);
    Some(month_length(28 + gregorian_years::extra_days(at.year), at))
}

// Whether a month has no such day: the century rule is looked at only for a 29 February.
fn no_day(at: MarchMonth, day: u64) -> bool
    ensures { result ≡ (eqb day 0 || ltb (month_length (gregorian_long at.year) at.month) day) }
{
    let q = at.month;
    let usual = month_length(28, at);
    if (day != 0) & (day <= usual) {
        return false;
    }
    if (q != 11) | (day != 29) {
        return true;
    }
    gregorian_years::extra_days(at.year) == 0
}

// A day of a position of the year that is i years after the first, with 3, 4 and 5 tried. By itself, and not
// from a position as in the other calendars, since the length of February is seldom needed.
pub fn gregorian_day(i: u16, p: u64, day: u64) -> PackedDay
    ensures { PackedAt gregorian i p day result.number }
{
    if 11 < p {
        return PackedDay::refused(Refusal::NoSuchMonth);
    }
    let at = month_of(JULIAN_YEAR, JULIAN_TURN, i, p);
    if no_day(at, day) {
        return PackedDay::refused(Refusal::NoSuchDay);
    }
    let n = gregorian_years::year_start(at.year) + days_before(at)
        - u64::from(GREGORIAN_DAYS_BEFORE)
        + (day - 1);
    if LAST_DAY < n {
        return PackedDay::refused(Refusal::DayOutOfRange);
    }
    PackedDay { number: n }
}

pub fn gregorian_date(day: u32) -> Option<Place>
    ensures { PlaceAt gregorian day result }
{
    if day < 38 {
        return None;
    }
    let y = gregorian_years::year_of(day, GREGORIAN_DAYS_BEFORE);
    Some(date_in(JULIAN_BEFORE, JULIAN_TURN, y.year, y.rest))
}
