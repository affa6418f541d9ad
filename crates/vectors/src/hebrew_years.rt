// Compares the length of a Hebrew year with the sum of its positions and, where the next year begins within the day numbers, with the days from its
// first day to the next year's.
use crate::rows::Row;
use crate::tally::Finding;
use calendars::Date;
use refusals::Refusal;

pub(crate) fn compare(row: Row) -> Finding {
    let &[length] = row.rest else {
        return Finding::Differs;
    };
    let calendar = row.calendar;
    let year = row.year;
    if 20000 <= year || days_of_positions(calendar, year) != Ok(length) {
        return Finding::Differs;
    }
    match (first_day(calendar, year), first_day(calendar, year + 1)) {
        (Ok(first), Ok(next)) => Finding::agrees_if(next.checked_sub(first) == Some(length)),
        // Above year 13,759 the next year's first day is past the last day number; no other refusal is right.
        (_, Err(Refusal::DayOutOfRange)) => Finding::AgreesInPart,
        _ => Finding::Differs,
    }
}

fn first_day(calendar: u64, year: i64) -> Result<u64, Refusal> {
    calendars::date_to_day(
        calendar,
        Date {
            year,
            month: 1,
            day: 1,
            weekday: 0,
        },
    )
}

// The sum of the positions' lengths, if none is refused. Thirteen are far from wrapping.
fn days_of_positions(calendar: u64, year: i64) -> Result<u64, Refusal> {
    let mut sum: u64 = 0;
    for position in 1..14 {
        sum = sum.wrapping_add(calendars::position_of(calendar, year, position)?.days());
    }
    Ok(sum)
}
