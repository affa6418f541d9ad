// Which numbers are a calendar's, which years it may have, its strip and its last day: what the questions to the calendars try alike.
// A calendar is asked for by its number: any number is asked, and the clauses (`OfListed c`, `none_number c`) answer it.
#![tactic(auto)]

ghost use Rattle.std.specs.Prelude.{◌≡◌, ◌≤◌};
ghost use Rattle.refusals.specs.Number.{number_of};
ghost use Rattle.counting.specs.Answers.{last_day, last_of};
ghost use Rattle.listing.specs.Kinds.{Reads};
ghost use Rattle.asking.specs.Steps.{listed, OfListed, given, none_number, year_inside, years_since};

pub use parts::LAST_DAY;
use refusals::Refusal;

// The years that some calendar may have.
const FIRST_YEAR: i64 = -4712;

pub const LAST_YEAR: i64 = 20000;

// The years from -4712 to year 1.
pub const YEARS_BEFORE_1: u16 = 4713;

// The last day of the Republican calendar.
const REPUBLICAN_END: u64 = 2380687;

// The calendars of the table.
#[derive(Clone, Copy, Debug, PartialEq, Eq)]
pub enum Calendar {
    Egyptian = 1,
    Armenian = 2,
    Khwarizmian = 3,
    Persian = 4,
    Ethiopian = 5,
    Coptic = 6,
    Republican = 7,
    Macedonian = 8,
    Syrian = 9,
    Julian = 10,
    Gregorian = 11,
    IslamicA = 12,
    IslamicB = 13,
    Bahai = 14,
    Saka = 15,
    Hebrew = 18,
}

// All of them, in the order of their numbers.
pub const CALENDARS: [Calendar; 16] = [
    Calendar::Egyptian,
    Calendar::Armenian,
    Calendar::Khwarizmian,
    Calendar::Persian,
    Calendar::Ethiopian,
    Calendar::Coptic,
    Calendar::Republican,
    Calendar::Macedonian,
    Calendar::Syrian,
    Calendar::Julian,
    Calendar::Gregorian,
    Calendar::IslamicA,
    Calendar::IslamicB,
    Calendar::Bahai,
    Calendar::Saka,
    Calendar::Hebrew,
];

// The calendar that has the number.
impl TryFrom<u64> for Calendar {
    type Error = Refusal;

    ghost try_from_gives = { Reads };

    fn try_from(number: u64) -> Result<Calendar, Refusal> {
        match number {
            1 => Ok(Calendar::Egyptian),
            2 => Ok(Calendar::Armenian),
            3 => Ok(Calendar::Khwarizmian),
            4 => Ok(Calendar::Persian),
            5 => Ok(Calendar::Ethiopian),
            6 => Ok(Calendar::Coptic),
            7 => Ok(Calendar::Republican),
            8 => Ok(Calendar::Macedonian),
            9 => Ok(Calendar::Syrian),
            10 => Ok(Calendar::Julian),
            11 => Ok(Calendar::Gregorian),
            12 => Ok(Calendar::IslamicA),
            13 => Ok(Calendar::IslamicB),
            14 => Ok(Calendar::Bahai),
            15 => Ok(Calendar::Saka),
            18 => Ok(Calendar::Hebrew),
            _ => Err(Refusal::UnknownCalendar),
        }
    }
}

// Whether a number is a calendar's.
pub fn is_listed(c: u64) -> bool
    ensures { result ≡ listed c }
{
    Calendar::try_from(c).is_ok()
}

// The first year of a calendar that is listed.
pub fn first_year(c: u64) -> i64
    ensures { OfListed c (λ K. result ≡ K.first_year) }
{
    if (c == Calendar::Julian as u64) | (c == Calendar::Gregorian as u64) {
        return FIRST_YEAR;
    }
    1
}

// The last day that has a date in a calendar that is listed.
#[tactic(auto, using(asking::proofs::Arms::last_ended, asking::proofs::Arms::last_of_all))]
pub fn last_day(c: u64) -> u64
    ensures { (result ≤ last_day) × OfListed c (λ K. result ≡ last_of K) }
{
    if c == Calendar::Republican as u64 {
        return REPUBLICAN_END;
    }
    LAST_DAY
}

// The position that is a strip of loose days in a calendar that is listed; None where it has none.
#[tactic(auto, using(asking::proofs::Arms::strip_persian, asking::proofs::Arms::strip_bahai, asking::proofs::Arms::strip_thirteenth, asking::proofs::Arms::strip_none))]
pub fn strip(c: u64) -> Option<u64>
    ensures { OfListed c (λ K. result ≡ given K.strip) }
{
    if c == Calendar::Persian as u64 {
        return Some(9);
    }
    if c == Calendar::Bahai as u64 {
        return Some(19);
    }
    if c <= Calendar::Republican as u64 {
        return Some(13);
    }
    None
}

// Whether some calendar may have such a year.
pub fn year_inside(year: i64) -> bool
    ensures { result ≡ year_inside year }
{
    !((year < FIRST_YEAR) | (LAST_YEAR < year))
}

// The years from -4712 to such a year, and 0 to any other. With the Hebrew years, the one place where signed years become natural numbers.
pub fn since(year: i64) -> u16
    ensures { result ≡ years_since year }
{
    if year_inside(year) {
        return (year - FIRST_YEAR) as u16;
    }
    0
}

// Why a year has no position that was sought: 1, 2 or 3, whichever is first.
pub fn no_month(c: u64, year: i64) -> Refusal
    ensures { number_of result ≡ none_number c year }
{
    if !is_listed(c) {
        return Refusal::UnknownCalendar;
    }
    if year < first_year(c) {
        return Refusal::YearOutOfRange;
    }
    if LAST_YEAR < year {
        return Refusal::YearOutOfRange;
    }
    Refusal::NoSuchMonth
}
