// The worked examples of docs/RULES.md on dates and Easter, and the worked numbers of the change requests.
use crate::questions::{Question, show};
use std::io;
use std::io::Write;

const DATES: [Question; 13] = [
    Question::Day(10, -4712, 1, 1),
    Question::Day(11, -4712, 1, 1),
    Question::Day(10, 1582, 10, 4),
    Question::Day(11, 1582, 10, 15),
    Question::Day(11, 2000, 2, 29),
    Question::Day(11, 1900, 2, 29),
    Question::Day(13, 2, 12, 30),
    Question::Day(13, 1, 12, 30),
    Question::Day(4, 1, 1, 1),
    Question::Day(18, 5784, 1, 1),
    Question::Day(18, 5785, 1, 1),
    Question::Day(11, 9999, 12, 31),
    Question::Day(11, 10000, 1, 1),
];

const EASTERS: [Question; 5] = [
    Question::Easter(11, 7453),
    Question::Easter(10, 7453),
    Question::Easter(11, 1954),
    Question::Easter(11, 1981),
    Question::Easter(11, 1943),
];

// Saka and Bahai years, and the end of the Republican calendar.
const REQUESTS: [Question; 6] = [
    Question::Day(15, 1879, 1, 1),
    Question::Day(14, 157, 1, 1),
    Question::Day(7, 14, 4, 10),
    Question::Day(7, 14, 4, 11),
    Question::Date(7, 2380687),
    Question::Date(7, 2380688),
];

// A strip in each kind of year, months beside it, none, and a position that no year has.
const POSITIONS: [Question; 13] = [
    Question::Position(1, 1, 12),
    Question::Position(1, 1, 13),
    Question::Position(4, 1, 9),
    Question::Position(4, 1, 13),
    Question::Position(7, 20000, 13),
    Question::Position(14, 156, 19),
    Question::Position(14, 157, 19),
    Question::Position(14, 157, 20),
    Question::Position(15, 1879, 12),
    Question::Position(15, 1879, 13),
    Question::Position(18, 5784, 7),
    Question::Position(18, 5785, 7),
    Question::Position(18, 5785, 14),
];

// 1 January 2000 is a Saturday, day 0 a Monday, the last day a Friday, the last Republican day a Tuesday.
const WEEKDAYS: [Question; 13] = [
    Question::Date(11, 2451545),
    Question::DayTried(11, 2000, 1, 1, 6),
    Question::DayTried(11, 2000, 1, 1, 0),
    Question::DayTried(11, 2000, 1, 1, 5),
    Question::DayTried(11, 2000, 1, 1, 7),
    Question::DayTried(11, 2000, 1, 1, 8),
    Question::DayTried(11, 2000, 1, 1, u64::MAX),
    Question::DayTried(10, -4712, 1, 1, 1),
    Question::DayTried(10, -4712, 1, 1, 7),
    Question::DayTried(11, 9999, 12, 31, 5),
    Question::DayTried(11, 9999, 12, 31, 6),
    Question::DayTried(7, 14, 4, 10, 2),
    Question::DayTried(7, 14, 4, 10, 3),
];

pub(crate) fn show_all(out: &mut impl Write) -> io::Result<()> {
    writeln!(out, "Worked examples")?;
    show(out, &DATES)?;
    show(out, &EASTERS)?;
    writeln!(out, "\nWorked numbers of the change requests")?;
    show(out, &REQUESTS)?;
    show(out, &POSITIONS)?;
    show(out, &WEEKDAYS)
}
