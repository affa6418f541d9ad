// The positions of a year.
use crate::output::{ROW, push_refusal, push_text};
use arrayvec::ArrayVec;
use calendars::{MOST_POSITIONS, Position};
use printing::push_number;
use std::io;
use std::io::Write;

fn push_position(row: &mut ArrayVec<u8, ROW>, number: u64, position: Position) {
    push_number(row, number);
    match position {
        Position::Month(days) => push_days(row, b" month ", days),
        Position::Strip(days) => push_days(row, b" strip ", days),
        Position::None => push_text(row, b" none"),
    }
    push_text(row, b"\n");
}

fn push_days(row: &mut ArrayVec<u8, ROW>, kind: &[u8], days: u64) {
    push_text(row, kind);
    push_number(row, days);
}

// A line for each position up to the first that is refused, and the days of all: in other words than almanac has for it. Twenty lengths are far from wrapping.
fn write_positions(out: &mut impl Write, calendar: u64, year: i64) -> io::Result<()> {
    let mut sum = 0u64;
    for number in 1..=MOST_POSITIONS {
        let Ok(position) = calendars::position_of(calendar, year, number) else {
            break;
        };
        let mut row: ArrayVec<u8, ROW> = ArrayVec::new();
        push_position(&mut row, number, position);
        out.write_all(row.as_slice())?;
        sum = sum.wrapping_add(position.days());
    }
    let mut row: ArrayVec<u8, ROW> = ArrayVec::new();
    push_number(&mut row, sum);
    push_text(&mut row, b" days");
    out.write_all(row.as_slice())
}

// Where the calendar or the year is refused, so is its first position.
pub(crate) fn answer_year(out: &mut impl Write, calendar: u64, year: i64) -> io::Result<()> {
    match calendars::position_of(calendar, year, 1) {
        Ok(_) => write_positions(out, calendar, year),
        Err(why) => {
            let mut row: ArrayVec<u8, ROW> = ArrayVec::new();
            push_refusal(&mut row, why);
            out.write_all(row.as_slice())
        }
    }
}
