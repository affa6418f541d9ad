// Decimal numbers as text: reading, byte by byte or a slice, and writing.
// `proofs/Claims.antt` is the page to read first.
#![tactic(auto)]

ghost use Rattle.std.specs.Prelude.{List, ℕ, ◌≡◌, ◌+◌, ◌*◌, ◌≤◌, drop};
ghost use Rattle.decimal.specs.Decimal.{capped, number_of, pushed, with_digit, integer_of, clamp, text, signed_text};

use std::marker::Model;

// What some bytes are, read so far.
#[derive(Clone, Copy, Debug, PartialEq, Eq)]
pub enum Number {
    // No byte.
    Empty,
    // A minus sign alone.
    Sign,
    // One digit or more. A number too large for 64 bits counts as the largest that is not.
    Natural(u64),
    // A minus sign and one digit or more: the distance from 0, likewise.
    Negative(u64),
    // Anything else.
    Other,
}

// n with one more digit, or the largest number.
fn grown(n: u64, digit: u64) -> u64
    ensures { result ≡ capped (n * 10 + digit) }
{
    n.saturating_mul(10).saturating_add(digit)
}

impl Number {
    // What the bytes are with a digit more.
    fn with_digit(self, digit: u64) -> Number
        ensures { result ≡ with_digit self digit }
    {
        match self {
            Number::Empty => Number::Natural(digit),
            Number::Sign => Number::Negative(digit),
            Number::Natural(n) => Number::Natural(grown(n, digit)),
            Number::Negative(n) => Number::Negative(grown(n, digit)),
            Number::Other => Number::Other,
        }
    }

    // Goes on to what the bytes are with one more.
    #[tactic(auto, unfolding(crate::specs::Decimal::pushed))]
    pub fn push(&mut self, byte: u8)
        ensures { self.new ≡ pushed self.old byte }
    {
        *self = match byte {
            b'-' if *self == Number::Empty => Number::Sign,
            b'0'..=b'9' => self.with_digit(u64::from(byte - b'0')),
            _ => Number::Other,
        };
    }

    // The whole number that was read, the nearest that is an i64; 0 for what is no number, as `integer_of` has it.
    pub fn signed(self) -> i64
        ensures { result ≡ clamp (integer_of self) }
    {
        match self {
            Number::Natural(n) => 0_i64.saturating_add_unsigned(n),
            Number::Negative(n) => 0_i64.saturating_sub_unsigned(n),
            _ => 0,
        }
    }
}

impl From<&[u8]> for Number {
    ghost from_gives = { λ text number. number ≡ number_of text.now };

    #[tactic(auto, using(crate::proofs::Laws::more_at), unfolding(crate::specs::Decimal::number_of))]
    fn from(text: &[u8]) -> Number
        ensures { result ≡ number_of text.now }
    {
        let mut number = Number::Empty;
        for &byte in text {
            number.push(byte);
        }
        number
    }
}

// The text of a number: the fewest digits, with a minus sign before those of a negative one. A number of 64 bits has at most 20 of them.
#[derive(Drop)]
pub struct Digits {
    bytes: [u8; 20],
    // Where the text begins; it ends with the bytes.
    start: usize,
}

impl Model for Digits {
    ghost Value = { List ℕ };

    ghost view = { λ d. drop d.start d.bytes };

    ghost invariant = { λ d. d.start ≤ 20 };
}

impl Digits {
    // The text of 0.
    #[tactic(auto, unfolding(crate::specs::Decimal::digits_in))]
    pub fn new() -> Digits
        ensures { result ≡ text 0 }
    {
        Digits {
            bytes: [b'0'; 20],
            start: 19,
        }
    }

    pub fn as_bytes(&self) -> &[u8]
        ensures { result.now ≡ self.now }
    {
        &self.bytes[self.start..]
    }

    // The text of a number in place of another. What `from` answers is a copy, and a copy of bytes that have only just been stored one by one waits for the last
    // of them, as long as the digits take.
    pub fn put(&mut self, n: u64)
        ensures { self.new ≡ text n }
    {
        // A `for` over the places has twenty turns, which the compiler unrolls, with all bytes in registers of their own: that took four times as long.
        let mut start = 19;
        let mut rest = n;
        while 10 <= rest {
            self.bytes[start] = b'0' + (rest % 10) as u8;
            rest /= 10;
            start -= 1;
        }
        self.bytes[start] = b'0' + (rest % 10) as u8;
        self.start = start;
    }

    // The same of a signed number.
    pub fn put_signed(&mut self, n: i64)
        ensures { self.new ≡ signed_text n }
    {
        self.put(n.unsigned_abs());
        if n < 0 {
            self.start -= 1;
            self.bytes[self.start] = b'-';
        }
    }
}

impl From<u64> for Digits {
    ghost from_gives = { λ n digits. digits ≡ text n };

    fn from(n: u64) -> Digits
        ensures { result ≡ text n }
    {
        let mut digits = Digits::new();
        digits.put(n);
        digits
    }
}

impl From<i64> for Digits {
    ghost from_gives = { λ n digits. digits ≡ signed_text n };

    fn from(n: i64) -> Digits
        ensures { result ≡ signed_text n }
    {
        let mut digits = Digits::new();
        digits.put_signed(n);
        digits
    }
}
