// Questions to the proved functions, each written with the answer to it, a line each.
use crate::answers::{Answer, Feast, Named, Placed, Plain, Whole};
use calendars::Date;
use std::io::Write;
use std::{fmt, io};

#[derive(Clone, Copy)]
pub(crate) enum Question {
    // The day of a date with no weekday handed in: calendar, year, month, day.
    Day(u64, i64, u64, u64),
    // The same with a weekday.
    DayTried(u64, i64, u64, u64, u64),
    // The date of a day: calendar, day.
    Date(u64, u64),
    // A position of a year: calendar, year, position.
    Position(u64, i64, u64),
    // Easter: calendar, year.
    Easter(u64, i64),
}

impl fmt::Display for Question {
    fn fmt<W: fmt::Write>(&self, f: &mut fmt::Formatter<W>) -> fmt::Result {
        match *self {
            Question::Day(calendar, year, month, day) => {
                let date = Date {
                    year,
                    month,
                    day,
                    weekday: 0,
                };
                let answer = calendars::date_to_day(calendar, date);
                write!(f, "{} {}: {}", Named(calendar), Plain(date), Answer(answer))
            }
            Question::DayTried(calendar, year, month, day, weekday) => {
                let date = Date {
                    year,
                    month,
                    day,
                    weekday,
                };
                let answer = calendars::date_to_day(calendar, date);
                write!(f, "{} {}: {}", Named(calendar), Whole(date), Answer(answer))
            }
            Question::Date(calendar, day) => {
                let answer = calendars::day_to_date(calendar, day).map(Whole);
                write!(f, "{} day {day}: {}", Named(calendar), Answer(answer))
            }
            Question::Position(calendar, year, position) => {
                let answer = calendars::position_of(calendar, year, position).map(Placed);
                write!(
                    f,
                    "{} {year} position {position}: {}",
                    Named(calendar),
                    Answer(answer)
                )
            }
            Question::Easter(calendar, year) => {
                let answer = easter::easter(calendar, year).map(Feast);
                write!(f, "Easter {year} {}: {}", Named(calendar), Answer(answer))
            }
        }
    }
}

// The questions and answers, a line each.
pub(crate) fn show(out: &mut impl Write, questions: &[Question]) -> io::Result<()> {
    for question in questions {
        writeln!(out, "{question}")?;
    }
    Ok(())
}
