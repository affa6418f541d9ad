// Easter in the Julian and the Gregorian calendar, for any calendar number and year.
#![tactic(auto)]

ghost use Rattle.std.specs.Prelude.{◌≡◌, ◌≤◌, ◌<◌};
ghost use Rattle.computus.specs.Rule.{gregorian_m, gregorian_n, ordinary, dated, easter_of, in_years, julian_easter, gregorian_easter, easter_answer};
ghost use Rattle.easter.specs.Paper.{date_paper, easter_paper};
ghost use Rattle.easter.specs.Years.{year_from};

use refusals::Refusal;

// The two calendars by their numbers: any number is asked, and `easter_answer` answers it.
const JULIAN: u64 = 10;

const GREGORIAN: u64 = 11;

const LAST_YEAR: u64 = 9999;

#[derive(Clone, Copy, Debug, PartialEq, Eq)]
pub struct MonthDay {
    pub month: u64,
    pub day: u64,
}

// Easter of a year: in calendar 10 (Julian) from year 1, in calendar 11 (Gregorian) from year 1583, in both to year 9999.
#[tactic(auto, unfolding(computus::specs::Rule::easter_answer))]
pub fn easter(calendar: u64, year: i64) -> Result<MonthDay, Refusal>
    ensures { easter_paper result ≡ easter_answer calendar year }
{
    match calendar {
        JULIAN => julian(year),
        GREGORIAN => gregorian(year),
        _ => Err(Refusal::UnknownCalendar),
    }
}

#[tactic(auto, using(crate::proofs::Years::asked_for))]
fn julian(year: i64) -> Result<MonthDay, Refusal>
    ensures { easter_paper result ≡ in_years 1 julian_easter year }
{
    let year = year_from(1, year)?;
    Ok(by_constants(Constants { m: 15, n: 6 }, year))
}

#[tactic(auto, using(crate::proofs::Years::asked_for))]
fn gregorian(year: i64) -> Result<MonthDay, Refusal>
    ensures { easter_paper result ≡ in_years 1583 gregorian_easter year }
{
    let year = year_from(1583, year)?;
    Ok(by_constants(gregorian_constants(year), year))
}

// The year, if it lies from `first` to 9999.
fn year_from(first: u64, year: i64) -> Result<u64, Refusal>
    ensures { result ≡ year_from first year }
{
    match u64::try_from(year) {
        Ok(year) if first <= year && year <= LAST_YEAR => Ok(year),
        _ => Err(Refusal::YearOutOfRange),
    }
}

// The constants of a calendar. The letters here and below are those of the rule (crate computus, specs/Rule.antt).
#[derive(Clone, Copy)]
struct Constants {
    m: u64,
    n: u64,
}

// Those of the Gregorian calendar, which change with the century.
fn gregorian_constants(year: u64) -> Constants
    requires { year ≤ 9999 }
    ensures { (result.m ≡ gregorian_m year) × (result.n ≡ gregorian_n year) }
{
    let s = year / 100;
    let r = s.saturating_sub(17) / 25;
    let p = (s - r) / 3;
    let q = s / 4;
    Constants {
        m: (15 + s - p - q) % 30,
        n: (4 + s - q) % 7,
    }
}

// The date by the constants of its calendar.
fn by_constants(constants: Constants, year: u64) -> MonthDay
    requires { (constants.m < 30) × (constants.n < 7) }
    ensures { date_paper result ≡ easter_of constants.m constants.n year }
{
    let Constants { m, n } = constants;
    let a = year % 19;
    let b = year % 4;
    let c = year % 7;
    let d = (19 * a + m) % 30;
    let e = (2 * b + 4 * c + 6 * d + n) % 7;
    date(m, d, e)
}

#[tactic(auto, unfolding(computus::specs::Rule::dated))]
fn date(m: u64, d: u64, e: u64) -> MonthDay
    requires { (m < 30) × ((d < 30) × (e < 7)) }
    ensures { date_paper result ≡ dated m d e }
{
    match (d, e) {
        // Exception I.
        (29, 6) => MonthDay { month: 4, day: 19 },
        // Exception II.
        (28, 6) if (11 * m + 11) % 30 < 19 => MonthDay { month: 4, day: 18 },
        _ => ordinary_date(d, e),
    }
}

// The date where no exception applies.
fn ordinary_date(d: u64, e: u64) -> MonthDay
    requires { (d < 30) × (e < 7) }
    ensures { date_paper result ≡ ordinary d e }
{
    let day = 22 + d + e;
    if day <= 31 {
        MonthDay { month: 3, day }
    } else {
        MonthDay {
            month: 4,
            day: d + e - 9,
        }
    }
}
