// Compares a weekday: it is taken with its date and comes back with it, and any other is refused.
use crate::dates;
use crate::rows::Row;
use crate::tally::Finding;
use calendars::Date;
use refusals::Refusal;

// One more than the last weekday.
const NO_WEEKDAY: u64 = 8;

pub(crate) fn compare(row: Row) -> Finding {
    let Some((without, weekday)) = row.dated() else {
        return Finding::Differs;
    };
    let date = Date { weekday, ..without };
    let Ok(number) = calendars::date_to_day(row.calendar, date) else {
        return Finding::Differs;
    };
    Finding::agrees_if(
        dates::agrees(row.calendar, date, number) && others_are_refused(row.calendar, date),
    )
}

fn others_are_refused(calendar: u64, date: Date) -> bool {
    (1..=NO_WEEKDAY).all(|weekday| {
        weekday == date.weekday
            || calendars::date_to_day(calendar, Date { weekday, ..date })
                == Err(Refusal::WrongWeekday)
    })
}
