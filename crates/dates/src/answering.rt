// The answer to a request, whose kind is told by how many numbers it has.
use crate::conversions::{answer_date, answer_day};
use crate::positions::answer_year;
use calendars::Date;
use std::io;
use std::io::Write;

// In place: a result that a call hands on is copied, which would take longer than all else here.
#[inline(always)]
pub(crate) fn no_request(out: &mut impl Write) -> io::Result<()> {
    out.write_all(b"not a request")
}

// The year is the second of the numbers.
pub(crate) fn answer(out: &mut impl Write, numbers: &[u64], year: i64) -> io::Result<()> {
    let (calendar, month, day, weekday) = match *numbers {
        [day] => return answer_day(out, day),
        [calendar, _] => return answer_year(out, calendar, year),
        [calendar, _, month, day] => (calendar, month, day, 0),
        [calendar, _, month, day, weekday] => (calendar, month, day, weekday),
        _ => return no_request(out),
    };
    let date = Date {
        year,
        month,
        day,
        weekday,
    };
    answer_date(out, calendar, date)
}
