// Compares a date and its day number with the conversions, in both directions.
use crate::rows::Row;
use crate::tally::Finding;
use calendars::Date;

pub(crate) fn compare(row: Row) -> Finding {
    let Some((date, number)) = row.dated() else {
        return Finding::Differs;
    };
    Finding::agrees_if(agrees(row.calendar, date, number))
}

// Whether the date has that day, and the day that date, which with its weekday gives the day again.
pub(crate) fn agrees(calendar: u64, date: Date, number: u64) -> bool {
    let Ok(found) = calendars::day_to_date(calendar, number) else {
        return false;
    };
    calendars::date_to_day(calendar, date) == Ok(number)
        && is_same(found, date)
        && calendars::date_to_day(calendar, found) == Ok(number)
}

// Whether the date that was found is the other one, with its weekday where it has one.
fn is_same(found: Date, date: Date) -> bool {
    date == found
        || date
            == Date {
                weekday: 0,
                ..found
            }
}
