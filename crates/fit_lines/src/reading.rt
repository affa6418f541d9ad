// A request line read byte by byte: its word, and the numbers after it.
ghost use Rattle.fit_lines.specs.Begun.{begun};

use crate::answering;
use arrayvec::ArrayVec;
use decimal::Number;
use request_lines::RequestLine;
use std::io;
use std::io::Write;

// No request has a word of more.
const MOST_LETTERS: usize = 6;

// One more than a code may have, so that a longer one shows.
const MOST_NUMBERS: usize = 513;

// How far a line is read.
#[derive(Clone, Copy)]
enum Place {
    Start,
    Word,
    Numbers,
    // The line is no request.
    Wrong,
}

#[derive(Drop)]
pub(crate) struct Request {
    place: Place,
    word: ArrayVec<u8, MOST_LETTERS>,
    numbers: ArrayVec<u64, MOST_NUMBERS>,
    // The bytes since a space.
    last: Number,
}

impl Request {
    pub(crate) fn new() -> Request {
        Request {
            place: Place::Start,
            word: ArrayVec::new(),
            numbers: ArrayVec::new(),
            last: Number::Empty,
        }
    }

    fn take_letter(&mut self, byte: u8) {
        self.place = if byte == b' ' {
            Place::Numbers
        } else if self.word.try_push(byte).is_ok() {
            Place::Word
        } else {
            Place::Wrong
        };
    }

    // What stands behind the word. A line with a wrong number is read on to the end of these bytes: what follows changes nothing in its answer.
    fn take_numbers(&mut self, bytes: &[u8]) {
        // In a local, and so in registers: read and written in place at each byte, the number takes half as long again.
        let mut last = self.last;
        for &byte in bytes {
            if byte != b' ' {
                last.push(byte);
            } else if last != Number::Empty {
                self.last = last;
                self.end_number();
                last = Number::Empty;
            }
        }
        self.last = last;
    }

    // A number is kept where there is room, and passed over where there is none.
    fn end_number(&mut self) {
        match self.last {
            Number::Natural(n) => {
                let _ = self.numbers.try_push(n);
            }
            Number::Empty => {}
            _ => self.place = Place::Wrong,
        }
        self.last = Number::Empty;
    }
}

impl RequestLine for Request {
    ghost begun = { λ request. begun request.place };

    fn is_begun(&self) -> bool {
        !matches!(self.place, Place::Start)
    }

    fn take(&mut self, bytes: &[u8]) {
        for (k, &byte) in bytes.iter().enumerate() {
            match self.place {
                Place::Start | Place::Word => self.take_letter(byte),
                Place::Numbers => return self.take_numbers(&bytes[k..]),
                Place::Wrong => return,
            }
        }
    }

    fn answer(&mut self, out: &mut impl Write) -> io::Result<()> {
        self.end_number();
        match self.place {
            Place::Wrong => answering::no_request(out)?,
            _ => answering::answer(out, self.word.as_slice(), self.numbers.as_slice())?,
        }
        self.word.clear();
        self.numbers.clear();
        self.place = Place::Start;
        out.write_all(b"\n")
    }
}
