// The day of a date, and the dates of a day.
ghost use Rattle.std.specs.Prelude.{◌≡◌, ◌+◌, ◌++◌, ◌≤◌, codes, decimal};
ghost use Rattle.arrayvec.specs.ArrayVec.{array_vec_len};
ghost use Rattle.dates.specs.Text.{date_text};

use crate::output::{ROW, push_refusal, push_text};
use arrayvec::ArrayVec;
use calendars::Date;
use listing::{CALENDARS, Calendar};
use printing::{push_number, push_signed, write_number};
use std::io;
use std::io::Write;

pub(crate) fn answer_date(out: &mut impl Write, calendar: u64, date: Date) -> io::Result<()> {
    match calendars::date_to_day(calendar, date) {
        Ok(day) => write_number(out, day),
        Err(why) => {
            let mut row: ArrayVec<u8, ROW> = ArrayVec::new();
            push_refusal(&mut row, why);
            out.write_all(row.as_slice())
        }
    }
}

fn push_next(row: &mut ArrayVec<u8, ROW>, n: u64)
    ensures bytes { array_vec_len row.old + 21 ≤ 128 → row.new.items ≡ row.old.items ++ (codes " " ++ decimal n) }
    ensures short { array_vec_len row.old + 21 ≤ 128 → array_vec_len row.new ≤ array_vec_len row.old + 21 }
{
    let _ = row.try_push(b' ');
    push_number(row, n);
}

fn push_date(row: &mut ArrayVec<u8, ROW>, date: Date)
    ensures { array_vec_len row.old + 83 ≤ 128 → row.new.items ≡ row.old.items ++ date_text date }
{
    push_signed(row, date.year);
    push_next(row, date.month);
    push_next(row, date.day);
    push_next(row, date.weekday);
}

// The day in one calendar, so written that a date can be handed in again.
fn push_day_in(row: &mut ArrayVec<u8, ROW>, calendar: u64, day: u64) {
    push_number(row, calendar);
    push_text(row, b" ");
    match calendars::day_to_date(calendar, day) {
        Ok(date) => push_date(row, date),
        Err(why) => push_refusal(row, why),
    }
}

// A line for each calendar.
pub(crate) fn answer_day(out: &mut impl Write, day: u64) -> io::Result<()> {
    for calendar in CALENDARS {
        let mut row: ArrayVec<u8, ROW> = ArrayVec::new();
        if calendar != Calendar::Egyptian {
            push_text(&mut row, b"\n");
        }
        push_day_in(&mut row, calendar as u64, day);
        out.write_all(row.as_slice())?;
    }
    Ok(())
}
