// Days, dates, years, Easter and frames.
use crate::output::{write_line, write_refusal};
use calendars::{Date, MOST_POSITIONS};
use easter::MonthDay;
use frames::Frame;
use listing::{CALENDARS, Calendar};
use refusals::Refusal;
use std::io;
use std::io::Write;

// Calendars by their numbers, as `calendars` and `easter` take them.
const JULIAN: u64 = Calendar::Julian as u64;

const GREGORIAN: u64 = Calendar::Gregorian as u64;

// The answer numbers in the order of the table: 0, which is no refusal's, and those of the refusals. `answer_row` takes a number.
const ANSWERS: [u64; 14] = [0, 1, 2, 3, 4, 5, 6, 7, 8, 9, 10, 11, 13, 17];

fn write_day(out: &mut impl Write, answer: Result<u64, Refusal>) -> io::Result<()> {
    write_line(out, |line| answer_lines::day_line(answer, line))
}

// The day in one calendar.
pub(crate) fn answer_day_in(out: &mut impl Write, day: u64, calendar: u64) -> io::Result<()> {
    let answer = calendars::day_to_date(calendar, day);
    write_line(out, |line| answer_lines::date_line(answer, line))
}

// The day and its weekday, and a row for each calendar.
fn write_whole_day(out: &mut impl Write, day: u64) -> io::Result<()> {
    write_day(out, Ok(day))?;
    for calendar in CALENDARS {
        let number = calendar as u64;
        let answer = calendars::day_to_date(number, day);
        write_line(out, |line| answer_lines::calendar_row(number, answer, line))?;
    }
    Ok(())
}

// The Julian calendar has every day: what it refuses, all do.
pub(crate) fn answer_day(out: &mut impl Write, day: u64) -> io::Result<()> {
    match calendars::day_to_date(JULIAN, day) {
        Ok(_) => write_whole_day(out, day),
        Err(why) => write_refusal(out, why),
    }
}

pub(crate) fn answer_date(
    out: &mut impl Write,
    calendar: u64,
    date: Date,
    all: bool,
) -> io::Result<()> {
    match calendars::date_to_day(calendar, date) {
        Ok(day) if all => write_whole_day(out, day),
        answer => write_day(out, answer),
    }
}

fn first_of(year: i64) -> Date {
    Date {
        year,
        month: 1,
        day: 1,
        weekday: 0,
    }
}

// A row for each position up to the first that is refused, the first day and the days of all: in other words than the program `dates` has for it. Twenty
// lengths are far from wrapping.
fn write_positions(out: &mut impl Write, calendar: u64, year: i64) -> io::Result<()> {
    let mut days: u64 = 0;
    for position in 1..=MOST_POSITIONS {
        let answer = calendars::position_of(calendar, year, position);
        let Ok(found) = answer else {
            break;
        };
        write_line(
            out,
            |line| answer_lines::position_row(position, answer, line),
        )?;
        days = days.wrapping_add(found.days());
    }
    let first = calendars::date_to_day(calendar, first_of(year));
    write_line(out, |line| answer_lines::first_day_line(first, line))?;
    writeln!(out, "days {days}")
}

// Where the calendar or the year is refused, so is its first position.
pub(crate) fn answer_months(out: &mut impl Write, calendar: u64, year: i64) -> io::Result<()> {
    match calendars::position_of(calendar, year, 1) {
        Ok(_) => write_positions(out, calendar, year),
        Err(why) => write_refusal(out, why),
    }
}

// The day of Easter; 0 where the year has none, since `easter_row` takes a number, which it then doesn't write.
fn easter_day(calendar: u64, year: i64, answer: Result<MonthDay, Refusal>) -> u64 {
    let Ok(MonthDay { month, day }) = answer else {
        return 0;
    };
    let date = Date {
        year,
        month,
        day,
        weekday: 0,
    };
    calendars::date_to_day(calendar, date).unwrap_or(0)
}

fn write_easter(out: &mut impl Write, calendar: u64, year: i64) -> io::Result<()> {
    let answer = easter::easter(calendar, year);
    let day = easter_day(calendar, year, answer);
    write_line(
        out,
        |line| answer_lines::easter_row(calendar, year, answer, day, line),
    )
}

pub(crate) fn answer_easter(out: &mut impl Write, year: i64) -> io::Result<()> {
    write_easter(out, JULIAN, year)?;
    write_easter(out, GREGORIAN, year)
}

pub(crate) fn answer_frame(out: &mut impl Write, calendar: u64, date: Date) -> io::Result<()> {
    match calendars::date_to_day(calendar, date) {
        Ok(number) => {
            let frame = frames::write(Frame {
                calendar,
                year: u64::from(listing::since(date.year)),
                month: date.month,
                day: date.day,
                number,
            });
            out.write_all(&frame)?;
            writeln!(out)
        }
        Err(why) => write_refusal(out, why),
    }
}

// The calendars with their first days and years.
pub(crate) fn answer_calendars(out: &mut impl Write) -> io::Result<()> {
    for calendar in CALENDARS {
        let number = calendar as u64;
        let year = listing::first_year(number);
        // Every calendar has its first day; `first_row` takes a number.
        let day = calendars::date_to_day(number, first_of(year)).unwrap_or(0);
        write_line(out, |line| answer_lines::first_row(number, day, year, line))?;
    }
    Ok(())
}

// The answer numbers in words.
pub(crate) fn answer_answers(out: &mut impl Write) -> io::Result<()> {
    for number in ANSWERS {
        write_line(out, |line| answer_lines::answer_row(number, line))?;
    }
    Ok(())
}
