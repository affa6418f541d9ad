// Years of the Gregorian kind, which calendars 11, 14 and 15 have: counted from -4800, which is divisible by 400, each from a position after which its extra day
// is the last. That of year z falls in the Gregorian year z + 1.
#![tactic(auto)]

ghost use Rattle.std.specs.Prelude.{cond, ◌≡◌, ◌+◌, ◌≤◌};
ghost use Rattle.months.specs.Leap.{gregorian_long, gregorian_start, GregorianDay};

// A day: its year, and the days of that year before it.
#[derive(Clone, Copy, Debug, PartialEq, Eq)]
pub struct YearDay {
    pub year: u32,
    pub rest: u64,
}

// 1 if year z has its extra day, else 0. The last year of a century is looked at by itself: one number of two is taken, which costs less than tests joined.
pub fn extra_days(z: u32) -> u64
    ensures { (result ≡ cond (gregorian_long z) 1 0) × (result ≤ 1) }
{
    let y = u64::from(z);
    let century = u64::from(z / 100);
    if y == 100 * century + 99 {
        return (century % 4 + 1) / 4;
    }
    (y % 4 + 1) / 4
}

// The days before year z.
pub fn year_start(z: u32) -> u64
    ensures { result ≡ gregorian_start z }
{
    let century = u64::from(z / 100);
    1461 * u64::from(z) / 4 - century + century / 4
}

// The year of the day that is so many days after another: the century first, and then the year as if every fourth were leap.
pub fn year_of(day: u32, after: u32) -> YearDay
    ensures { GregorianDay (day + after) result.year result.rest }
{
    let n = u64::from(day) + u64::from(after);
    let century = (4 * n + 3) / 146097;
    let t = 4 * (n + century - century / 4) + 3;
    YearDay {
        year: (t / 1461) as u32,
        rest: t % 1461 / 4,
    }
}
