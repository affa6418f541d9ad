// A request line: its word and its arguments, read byte by byte.
ghost use Rattle.std.specs.Prelude.{◌≡◌, false};

use crate::forms::Argument;
use crate::{answers, forms};
use arrayvec::ArrayVec;
use decimal::Number;
use request_lines::RequestLine;
use std::io::Write;
use std::{fmt, io};
use words::{Request, Word};

// One more than the lengths that a code may have, so that a longer one shows.
const MOST_NUMBERS: usize = 513;

// How many bytes of a token are kept, to be shown where it is not understood.
const MOST_SHOWN: usize = 64;

// What the bytes of a token are as a number and as a word.
#[derive(Clone, Copy, Debug, PartialEq, Eq)]
struct Meaning {
    number: Number,
    word: Word,
}

impl Meaning {
    fn natural(self) -> Option<u64> {
        match self.number {
            Number::Natural(n) => Some(n),
            _ => None,
        }
    }

    fn year(self) -> Option<i64> {
        match self.number {
            Number::Natural(_) | Number::Negative(_) => Some(self.number.signed()),
            _ => None,
        }
    }

    fn calendar(self) -> Option<u64> {
        words::calendar(self.word).or(self.natural())
    }

    fn weekday(self) -> Option<u64> {
        words::weekday(self.word).or(self.natural())
    }
}

// The bytes since a blank: what they are, and the first of them.
#[derive(Drop)]
pub(crate) struct Token {
    meaning: Meaning,
    shown: ArrayVec<u8, MOST_SHOWN>,
    is_cut: bool,
}

impl Token {
    fn new() -> Self {
        Token {
            meaning: Meaning {
                number: Number::Empty,
                word: Word::new(),
            },
            shown: ArrayVec::new(),
            is_cut: false,
        }
    }

    // Begins the next token. The places of the bytes shown are not cleared.
    fn clear(&mut self) {
        self.meaning = Meaning {
            number: Number::Empty,
            word: Word::new(),
        };
        self.shown.clear();
        self.is_cut = false;
    }

    fn push(&mut self, byte: u8) {
        self.meaning.number.push(byte);
        self.meaning.word.push(byte);
        if self.shown.try_push(byte).is_err() {
            self.is_cut = true;
        }
    }
}

// What would move the cursor of a terminal, or is no text there, is shown as a question mark.
fn printable(byte: u8) -> char {
    match byte {
        b' '..=b'~' => char::from(byte),
        _ => '?',
    }
}

impl fmt::Display for Token {
    fn fmt<W: fmt::Write>(&self, f: &mut fmt::Formatter<W>) -> fmt::Result {
        for &byte in self.shown.as_slice() {
            f.write_char(printable(byte))?;
        }
        if self.is_cut {
            f.write_str("..")?;
        }
        Ok(())
    }
}

// How far a line is understood.
#[derive(Clone, Copy, Debug, PartialEq, Eq)]
pub(crate) enum Progress {
    // No token is ended.
    Empty,
    // The tokens so far fit the request.
    Fitting(Request),
    // The last token does not fit the request, which is unknown where it is the first.
    Wrong(Option<Request>),
}

// A line as far as it is read: the token that is not ended, or that does not fit, and the arguments before it.
#[derive(Drop)]
pub(crate) struct Line {
    is_begun: bool,
    pub(crate) progress: Progress,
    pub(crate) token: Token,
    // How many places of the request's form are filled.
    place: usize,
    // Those that are numbers or calendars. Where there is no room more are passed over.
    pub(crate) numbers: ArrayVec<u64, MOST_NUMBERS>,
    pub(crate) year: Option<i64>,
    // 0 where none is given.
    pub(crate) weekday: u64,
    pub(crate) all: bool,
}

impl Line {
    pub(crate) fn new() -> Self
        ensures { result.is_begun ≡ false }
    {
        Line {
            is_begun: false,
            progress: Progress::Empty,
            token: Token::new(),
            place: 0,
            numbers: ArrayVec::new(),
            year: None,
            weekday: 0,
            all: false,
        }
    }

    // Begins the next line. The places of the numbers are not cleared.
    fn clear(&mut self)
        ensures { self.new.is_begun ≡ false }
    {
        self.is_begun = false;
        self.progress = Progress::Empty;
        self.token.clear();
        self.place = 0;
        self.numbers.clear();
        self.year = None;
        self.weekday = 0;
        self.all = false;
    }

    // Blanks end a token; so does a newline, which an argument may have.
    fn push(&mut self, byte: u8) {
        match byte {
            b' ' | b'\t' | b'\r' | b'\n' => self.end_token(),
            _ => self.token.push(byte),
        }
    }

    // After a blank or the last byte. A token that does not fit stays, to be shown, and the rest of the line is passed over.
    pub(crate) fn end_token(&mut self) {
        let token = self.token.meaning;
        if self.is_wrong() || token.number == Number::Empty {
            return;
        }
        self.progress = match self.progress {
            Progress::Fitting(request) => match self.take_argument(request, token) {
                Some(()) => Progress::Fitting(request),
                None => Progress::Wrong(Some(request)),
            },
            _ => match words::request_of(token.word) {
                Some(request) => Progress::Fitting(request),
                None => Progress::Wrong(None),
            },
        };
        if !self.is_wrong() {
            self.token.clear();
        }
    }

    fn is_wrong(&self) -> bool {
        matches!(self.progress, Progress::Wrong(_))
    }

    // Takes a token as the next argument, if it fits.
    fn take_argument(&mut self, request: Request, token: Meaning) -> Option<()> {
        match forms::argument_at(request, self.place)? {
            Argument::Natural => self.take_number(token.natural()?),
            Argument::Calendar => self.take_number(token.calendar()?),
            Argument::Year => self.year = Some(token.year()?),
            Argument::WeekdayOrAll => match token.weekday() {
                Some(weekday) => self.weekday = weekday,
                None => self.take_all(token)?,
            },
            Argument::All => self.take_all(token)?,
        }
        self.place = self.place.saturating_add(1);
        Some(())
    }

    fn take_number(&mut self, n: u64) {
        let _ = self.numbers.try_push(n);
    }

    // `all` is the last of its form.
    fn take_all(&mut self, token: Meaning) -> Option<()> {
        if !token.word.is_all() {
            return None;
        }
        self.all = true;
        self.place = forms::DATE.len();
        Some(())
    }
}

impl RequestLine for Line {
    ghost begun = { λ line. line.is_begun };

    fn is_begun(&self) -> bool {
        self.is_begun
    }

    fn take(&mut self, bytes: &[u8]) {
        for &byte in bytes {
            self.is_begun = true;
            if !self.is_wrong() {
                self.push(byte);
            }
        }
    }

    fn answer(&mut self, out: &mut impl Write) -> io::Result<()> {
        self.end_token();
        answers::answer(out, self)?;
        self.clear();
        Ok(())
    }
}
