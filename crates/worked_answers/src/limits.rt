// Inputs at the limits of the rules' answer numbers, and inputs to which two refusals apply.
use crate::questions::{Question, show};
use std::io;
use std::io::Write;

const CALENDARS: [Question; 5] = [
    Question::Day(0, 1, 1, 1),
    Question::Day(16, 1, 1, 1),
    Question::Day(17, 1, 1, 1),
    Question::Day(19, 1, 1, 1),
    Question::Day(u64::MAX, 30000, 0, 0),
];

const YEARS: [Question; 7] = [
    Question::Day(4, 0, 1, 1),
    Question::Day(4, 1, 1, 1),
    Question::Day(10, -4713, 12, 31),
    Question::Day(10, i64::MIN, 1, 1),
    Question::Day(10, i64::MAX, 1, 1),
    Question::Day(11, 20000, 1, 1),
    Question::Day(11, 20001, 0, 0),
];

const MONTHS: [Question; 8] = [
    Question::Day(11, 2000, 0, 1),
    Question::Day(11, 2000, 12, 1),
    Question::Day(11, 2000, 13, 0),
    Question::Day(11, 2000, u64::MAX, 1),
    Question::Day(18, 5784, 7, 1),
    Question::Day(18, 5785, 7, 1),
    Question::Day(18, 5785, 13, 1),
    Question::Day(18, 5785, 14, 1),
];

const DAYS: [Question; 6] = [
    Question::Day(11, 2000, 1, 0),
    Question::Day(11, 2000, 1, 31),
    Question::Day(11, 2000, 1, 32),
    Question::Day(11, 2000, 1, u64::MAX),
    Question::Day(11, 20000, 2, 30),
    Question::Day(11, 20000, 2, 29),
];

// After the Republican calendar's end: 2, 3 and 4 are tried before 17, and 5 after it.
const ENDED_DATES: [Question; 7] = [
    Question::Day(7, 14, 4, 31),
    Question::Day(7, 14, 14, 1),
    Question::Day(7, 14, 13, 5),
    Question::Day(7, 14, 13, 6),
    Question::Day(7, 15, 13, 6),
    Question::Day(7, 20000, 1, 1),
    Question::Day(7, 20001, 1, 1),
];

// 13 is tried last: each other refusal of a date comes before it.
const WEEKDAYS: [Question; 9] = [
    Question::DayTried(16, 2000, 1, 1, 8),
    Question::DayTried(10, -4713, 12, 31, 8),
    Question::DayTried(18, 5785, 7, 1, 8),
    Question::DayTried(11, 1900, 2, 29, 8),
    Question::DayTried(7, 14, 4, 11, 8),
    Question::DayTried(11, 10000, 1, 1, 8),
    Question::DayTried(7, 14, 13, 6, u64::MAX),
    Question::DayTried(7, 14, 13, 5, u64::MAX),
    Question::DayTried(11, 20000, 2, 29, u64::MAX),
];

const DAY_NUMBERS: [Question; 15] = [
    Question::Date(0, 2000000),
    Question::Date(17, 5373485),
    Question::Date(u64::MAX, 2000000),
    Question::Date(10, 0),
    Question::Date(11, 37),
    Question::Date(11, 38),
    Question::Date(18, 347997),
    Question::Date(18, 347998),
    Question::Date(11, 5373484),
    Question::Date(11, 5373485),
    Question::Date(11, u64::MAX),
    Question::Date(7, 2375839),
    Question::Date(7, 2375840),
    Question::Date(7, 5373484),
    Question::Date(7, 5373485),
];

const POSITIONS: [Question; 8] = [
    Question::Position(16, 20001, 0),
    Question::Position(11, -4713, 1),
    Question::Position(11, 20001, 0),
    Question::Position(11, 20000, 2),
    Question::Position(11, 1900, 2),
    Question::Position(11, 2000, 0),
    Question::Position(11, 2000, 13),
    Question::Position(18, 5785, 13),
];

const EASTERS: [Question; 13] = [
    Question::Easter(10, i64::MIN),
    Question::Easter(10, 0),
    Question::Easter(10, 1),
    Question::Easter(10, 9999),
    Question::Easter(10, 10000),
    Question::Easter(11, 1582),
    Question::Easter(11, 1583),
    Question::Easter(11, 9999),
    Question::Easter(11, 10000),
    Question::Easter(11, i64::MAX),
    Question::Easter(9, 2000),
    Question::Easter(12, 0),
    Question::Easter(u64::MAX, 2000),
];

pub(crate) fn show_all(out: &mut impl Write) -> io::Result<()> {
    writeln!(out, "\nLimits: date to day")?;
    show(out, &CALENDARS)?;
    show(out, &YEARS)?;
    show(out, &MONTHS)?;
    show(out, &DAYS)?;
    show(out, &ENDED_DATES)?;
    show(out, &WEEKDAYS)?;
    writeln!(out, "\nLimits: day to date")?;
    show(out, &DAY_NUMBERS)?;
    writeln!(out, "\nLimits: position of a year")?;
    show(out, &POSITIONS)?;
    writeln!(out, "\nLimits: Easter")?;
    show(out, &EASTERS)
}
