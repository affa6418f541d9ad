// Compares an Easter Sunday: the rule's date, and that date with its weekday and its day number in both directions.
use crate::dates;
use crate::rows::Row;
use crate::tally::Finding;
use calendars::Date;
use easter::MonthDay;

const SUNDAY: u64 = 7;

pub(crate) fn compare(row: Row) -> Finding {
    let Some((date, number)) = row.dated() else {
        return Finding::Differs;
    };
    let feast = MonthDay {
        month: date.month,
        day: date.day,
    };
    let sunday = Date {
        weekday: SUNDAY,
        ..date
    };
    // Monday has remainder 0.
    let is_sunday = number % 7 == 6;
    Finding::agrees_if(
        is_sunday
            && easter::easter(row.calendar, date.year) == Ok(feast)
            && dates::agrees(row.calendar, sunday, number),
    )
}
