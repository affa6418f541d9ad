// The Hebrew year: its first day and kind by the four gates, that is by where in the week its new moon falls, 6 hours on.
#![tactic(auto)]

ghost use Rattle.std.specs.Prelude.{cond, ◌≡◌, ◌+◌, ◌≤◌};
ghost use Rattle.hebrew.specs.Hebrew.{leap};
ghost use Rattle.months.specs.Hebrew.{HebrewYear, months_to, past_gates};

// The first day of year 1.
pub const FIRST_DAY: u64 = 347998;

// A year: its number, its first day, 1 where it is leap, and its kind. Whether it is leap is a number that enters products, where a bool would be turned into
// one; the kind is an index of tables.
#[derive(Clone, Copy, Debug, PartialEq, Eq)]
pub struct Year {
    pub number: u64,
    pub start: u64,
    pub leap: u64,
    pub kind: u64,
    pub ghost is_year: { HebrewYear number start leap kind },
    pub ghost leap_small: { leap ≤ 1 },
    pub ghost number_small: { number ≤ 65537 },
    pub ghost start_small: { start ≤ 8589934592 },
}

// 13 more than the months before year y.
fn months_to(y: u64) -> u64
    requires { y ≤ 65539 }
    ensures { result ≡ months_to y }
{
    (12969230 * y + 738000) >> 20
}

// 1 where year y is leap.
fn leap_of(y: u64) -> u64
    requires { y ≤ 65538 }
    ensures { (result ≡ cond (leap y) 1 0) × (result ≤ 1) }
{
    months_to(y + 1) - months_to(y) - 12
}

// The days by which a first day is past the one before all gates: one where the new moon is past the gate a, and two for each of the gates b, c and d.
fn gate_days(moon: u64, a: u64, b: u64, c: u64, d: u64) -> u64
    ensures { (result ≡ past_gates moon a b c d) × (result ≤ 7) }
{
    parts::pick(a <= moon, 1, 0)
        + 2 * (parts::pick(b <= moon, 1, 0)
            + parts::pick(c <= moon, 1, 0)
            + parts::pick(d <= moon, 1, 0))
}

// The year that is i years after the first. Both first days come from one new moon: the next is 4 or 5 days and some hours further in the week, past Thursday.
pub fn year_after(i: u16) -> Year
    ensures { result.number ≡ i + 1 }
{
    let number = u64::from(i) + 1;
    let before = leap_of(number - 1);
    let now = leap_of(number);
    let after = leap_of(number + 1);
    let m = months_to(number) * 765433 - 9938545;
    let rest = m % 181440;
    let monday = 25920 - 2651 * before;
    let tuesday = 42324 + 9516 * now;
    let here = gate_days(rest, monday, tuesday, 103680, 155520);
    let there = gate_days(
        rest + 113196 + 39673 * now,
        207360 - 2651 * now,
        155520,
        223764 + 9516 * after,
        285120,
    );
    Year {
        number,
        start: FIRST_DAY + 7 * (m / 181440) + here,
        leap: now,
        kind: there + now + 2 - here,
    }
}
