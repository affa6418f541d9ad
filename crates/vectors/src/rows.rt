// Reads the lines of a table byte by byte. A line that begins with '#' is a comment. Any other is a row: whole numbers, each followed by a tab, and
// then the name of the row's source. Only the second number, the year, can be negative.
use calendars::Date;

// What the next byte of a line belongs to.
#[derive(Clone, Copy, Debug, PartialEq, Eq)]
enum Place {
    // The first byte of a cell, or the first digit after a minus sign.
    Cell,
    // The rest of a number.
    Number,
    Source,
    Comment,
    // A row that cannot be read.
    Malformed,
}

// A line as far as it was read: its numbers, how many of them are complete, and whether the year is negative.
// (The count stands beside the array, since the number at the count is the one that is being read.)
#[derive(Clone, Copy, Debug, PartialEq, Eq)]
pub(crate) struct Line {
    numbers: [u64; 5],
    count: usize,
    is_negative: bool,
    place: Place,
}

// A row: a calendar, a year, and the numbers after them.
#[derive(Clone, Copy, Debug, PartialEq, Eq)]
pub(crate) struct Row<'a> {
    pub(crate) calendar: u64,
    pub(crate) year: i64,
    pub(crate) rest: &'a [u64],
}

impl Row<'_> {
    // The date of a row that has month and day, and the one number after them.
    pub(crate) fn dated(self) -> Option<(Date, u64)> {
        let &[month, day, number] = self.rest else {
            return None;
        };
        let date = Date {
            year: self.year,
            month,
            day,
            weekday: 0,
        };
        Some((date, number))
    }
}

impl Line {
    pub(crate) fn new() -> Line {
        Line {
            numbers: [0; 5],
            count: 0,
            is_negative: false,
            place: Place::Cell,
        }
    }

    // Goes on with a byte that is no newline.
    pub(crate) fn take(&mut self, byte: u8) {
        self.place = match (self.place, byte) {
            (Place::Cell | Place::Number, b'0'..=b'9') => self.digit(byte - b'0'),
            (Place::Cell, b'-') => self.minus(),
            (Place::Cell, b'#') if self.count == 0 => Place::Comment,
            (Place::Cell, _) => Place::Source,
            (Place::Number, b'\t') => self.end_number(),
            (Place::Number, _) => Place::Malformed,
            (place, _) => place,
        };
    }

    // Not `decimal::Number`, which takes any number of digits: a number of a table has seven at most, and a longer one is malformed.
    fn digit(&mut self, digit: u8) -> Place {
        match self.numbers.get_mut(self.count) {
            Some(n) if *n < 1000000 => {
                *n = *n * 10 + u64::from(digit);
                Place::Number
            }
            _ => Place::Malformed,
        }
    }

    fn minus(&mut self) -> Place {
        if self.count == 1 && !self.is_negative {
            self.is_negative = true;
            return Place::Cell;
        }
        Place::Malformed
    }

    fn end_number(&mut self) -> Place {
        if self.count < self.numbers.len() {
            self.count += 1;
            return Place::Cell;
        }
        Place::Malformed
    }

    pub(crate) fn is_comment(&self) -> bool {
        self.place == Place::Comment
    }

    // The row that the line is, if it is one.
    pub(crate) fn row(&self) -> Option<Row<'_>> {
        if self.place != Place::Source {
            return None;
        }
        let [calendar, distance, rest @ ..] = self.numbers.get(..self.count)? else {
            return None;
        };
        let distance = i64::try_from(*distance).ok()?;
        Some(Row {
            calendar: *calendar,
            year: if self.is_negative {
                -distance
            } else {
                distance
            },
            rest,
        })
    }
}
