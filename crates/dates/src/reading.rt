// A request line read byte by byte: numbers, of which the second, a year, may have a minus sign.
ghost use Rattle.dates.specs.Begun.{begun};

use crate::answering;
use arrayvec::ArrayVec;
use decimal::Number;
use request_lines::RequestLine;
use std::io;
use std::io::Write;

// No request has more numbers.
const MOST_NUMBERS: usize = 5;

// How far a line is read.
#[derive(Clone, Copy)]
enum Place {
    Start,
    Numbers,
    // The line is no request.
    Wrong,
}

#[derive(Drop)]
pub(crate) struct Request {
    place: Place,
    numbers: ArrayVec<u64, MOST_NUMBERS>,
    // The second number with its sign. One that is no i64 is taken as the last or the first that is.
    year: i64,
    // The bytes since a space.
    last: Number,
}

impl Request {
    pub(crate) fn new() -> Request {
        Request {
            place: Place::Start,
            numbers: ArrayVec::new(),
            year: 0,
            last: Number::Empty,
        }
    }

    // No space stands before the first number.
    fn end_number(&mut self) {
        let is_year = self.numbers.len() == 1;
        match self.last {
            Number::Natural(n) => self.keep(n),
            Number::Negative(n) if is_year => self.keep(n),
            Number::Empty if !self.numbers.is_empty() => {}
            _ => self.place = Place::Wrong,
        }
        if is_year {
            self.year = self.last.signed();
        }
        self.last = Number::Empty;
    }

    fn keep(&mut self, n: u64) {
        if self.numbers.try_push(n).is_err() {
            self.place = Place::Wrong;
        }
    }
}

impl RequestLine for Request {
    ghost begun = { λ request. begun request.place };

    fn is_begun(&self) -> bool {
        !matches!(self.place, Place::Start)
    }

    fn take(&mut self, bytes: &[u8]) {
        if !bytes.is_empty() && !self.is_begun() {
            self.place = Place::Numbers;
        }
        // In a local while bytes come, and so in registers: read and written in place, the number takes half as long again.
        let mut last = self.last;
        for &byte in bytes {
            if byte == b' ' {
                self.last = last;
                self.end_number();
                last = Number::Empty;
            } else {
                last.push(byte);
            }
        }
        self.last = last;
    }

    fn answer(&mut self, out: &mut impl Write) -> io::Result<()> {
        self.end_number();
        match self.place {
            Place::Wrong => answering::no_request(out)?,
            _ => answering::answer(out, self.numbers.as_slice(), self.year)?,
        }
        self.numbers.clear();
        self.place = Place::Start;
        out.write_all(b"\n")
    }
}
