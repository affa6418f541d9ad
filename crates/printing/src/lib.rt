// Standard output by way of a lent buffer, which is written when it is full and by `flush`.
// What reaches standard output no contract here says: the promises limit the results, so that nothing follows a write that failed. Only the functions
// `push_..` and `write_..` say their bytes. `proofs/Claims.antt` says what all that is written by way of `Write`, as by `write!`, promises of an output that failed.
#![tactic(auto)]

ghost use Rattle.std.specs.Prelude.{◌≡◌, ◌≤◌, Some, IfErr, IfOk, IsErr, IsOk, OnOk, OnErr, length, false, decimal, [], ◌∷◌, ◌+◌, ◌%◌, ◌<◌, ◌++◌};
ghost use Rattle.arrayvec.specs.ArrayVec.{array_vec_len};
ghost use Rattle.std.specs.Fmt.{signed_decimal};
ghost use Rattle.std.specs.Io.{WritesAtMost};
ghost use Rattle.std.specs.Option.{ForSome};
ghost use Rattle.std.specs.Io.KnownBytes.{Appends, Keeps, WriteAppends};
ghost use Rattle.std.specs.IoError.{error_kind};
ghost use Rattle.printing.specs.Good.{good, held};
ghost use Rattle.printing.specs.Spaced.{spaced};

use arrayvec::ArrayVec;
use decimal::Digits;
use std::io;
use std::io::{ErrorKind, Write};

// Not std's BufWriter, which allocates its buffer: memory is fixed here.
#[derive(Drop)]
pub struct Output<'a, P: Print> {
    rt: &'a P,
    buffer: &'a mut [u8],
    // How many bytes wait at the front of the buffer; none once a write failed, and nothing more is written.
    waiting: Option<usize>,
    ghost fits: { ForSome waiting (λ n. n ≤ length buffer.now) },
}

// Not `Interrupted`, which std's `write_all` would try again.
fn failure() -> io::Error
    ensures { error_kind result ≡ ErrorKind.Other }
{
    io::Error::other("cannot write standard output")
}

impl<'a, P: Print> Output<'a, P> {
    pub fn new(rt: &'a P, buffer: &'a mut [u8]) -> Output<'a, P>
        ensures { result.waiting ≡ Some 0 }
    {
        Output {
            rt,
            buffer,
            waiting: Some(0),
        }
    }
}

impl<P: Print> Output<'_, P> {
    // All of the bytes, in as many pieces as the buffer asks for.
    #[inline(never)]
    fn write_each(&mut self, bytes: &[u8]) -> io::Result<()>
        ensures bytes { OnOk result (Appends (held self.old.waiting) (held self.new.waiting) bytes.now) }
        ensures after { good self.old.waiting ≡ false → good self.new.waiting ≡ false }
        ensures nothing { length bytes.now ≡ 0 → IsOk result × (self.new.waiting ≡ self.old.waiting) }
        ensures failed { OnErr result (good self.new.waiting ≡ false) }
        ensures not_retried { IfErr result (λ why. error_kind why ≡ ErrorKind.Other) }
    {
        let mut rest = bytes;
        while !rest.is_empty() {
            let n = self.write(rest)?;
            rest = &rest[n..];
        }
        Ok(())
    }

    // A number in decimal digits.
    pub fn put_number(&mut self, n: u64) -> io::Result<()>
        ensures after { good self.old.waiting ≡ false → good self.new.waiting ≡ false }
        ensures failed { OnErr result (good self.new.waiting ≡ false) }
    {
        self.write_all(Digits::from(n).as_bytes())
    }

    // The numbers, with a space before each.
    pub fn put_numbers(&mut self, numbers: &[u64]) -> io::Result<()>
        ensures after { good self.old.waiting ≡ false → good self.new.waiting ≡ false }
        ensures failed { OnErr result (good self.new.waiting ≡ false) }
    {
        for &number in numbers {
            self.write_all(b" ")?;
            self.put_number(number)?;
        }
        Ok(())
    }
}

impl<P: Print> Write for Output<'_, P> {
    ghost contents = { λ output. held output.waiting };

    fn write(&mut self, bytes: &[u8]) -> io::Result<usize>
        ensures bound { WritesAtMost result bytes.now }
        ensures bytes { WriteAppends (held self.old.waiting) (held self.new.waiting) result bytes.now }
        ensures progress { IfOk result (λ n. n ≡ 0 → length bytes.now ≡ 0) }
        ensures after { good self.old.waiting ≡ false → IsErr result }
        ensures failed { OnErr result (good self.new.waiting ≡ false) }
        ensures not_retried { IfErr result (λ why. error_kind why ≡ ErrorKind.Other) }
    {
        if self.waiting == Some(self.buffer.len()) {
            self.flush()?;
        }
        let before = self.waiting.ok_or_else(failure)?;
        let taken = bytes.len().min(self.buffer.len() - before);
        if taken == 0 && !bytes.is_empty() {
            self.waiting = None;
            return Err(failure());
        }
        self.buffer[before..before + taken].copy_from_slice(&bytes[..taken]);
        self.waiting = Some(before + taken);
        Ok(taken)
    }

    fn flush(&mut self) -> io::Result<()>
        ensures bytes { Keeps (held self.old.waiting) (held self.new.waiting) }
        ensures after { good self.old.waiting ≡ false → IsErr result }
        ensures failed { OnErr result (good self.new.waiting ≡ false) }
        ensures empty { OnOk result (self.new.waiting ≡ Some 0) }
        ensures not_retried { IfErr result (λ why. error_kind why ≡ ErrorKind.Other) }
    {
        let waiting = self.waiting.take().ok_or_else(failure)?;
        stdio::write_all(self.rt, &self.buffer[..waiting]).map_err(|_| failure())?;
        self.waiting = Some(0);
        Ok(())
    }

    #[inline(always)]
    fn write_all(&mut self, bytes: &[u8]) -> io::Result<()>
        ensures bytes { OnOk result (Appends (held self.old.waiting) (held self.new.waiting) bytes.now) }
        ensures after { good self.old.waiting ≡ false → good self.new.waiting ≡ false }
        ensures nothing { length bytes.now ≡ 0 → IsOk result × (self.new.waiting ≡ self.old.waiting) }
        ensures failed { OnErr result (good self.new.waiting ≡ false) }
        ensures not_retried { IfErr result (λ why. error_kind why ≡ ErrorKind.Other) }
    {
        // Nearly every piece is short and finds room: a call for each would cost more than the copy.
        if let Some(before) = self.waiting {
            if bytes.len() <= self.buffer.len() - before {
                self.buffer[before..before + bytes.len()].copy_from_slice(bytes);
                self.waiting = Some(before + bytes.len());
                return Ok(());
            }
        }
        self.write_each(bytes)
    }
}

fn push_byte<const N: usize>(text: &mut ArrayVec<u8, N>, byte: u8)
    ensures { array_vec_len text.old < N → text.new.items ≡ text.old.items ++ byte ∷ [] }
{
    let _ = text.try_push(byte);
}

// The last digit of a number.
fn push_digit<const N: usize>(text: &mut ArrayVec<u8, N>, n: u64)
    ensures { array_vec_len text.old < N → text.new.items ≡ text.old.items ++ (48 + n % 10) ∷ [] }
{
    push_byte(text, b'0' + (n % 10) as u8);
}

// The digits of a number, one by one: a copy of several bytes at once would wait for the last of them, which has only just been stored, and the next number for
// the copy.
#[tactic(auto, using(std::proofs::lemmas::Fmt::decimal_digit))]
fn push_each_digit<const N: usize>(text: &mut ArrayVec<u8, N>, n: u64)
    ensures { array_vec_len text.old + length (decimal n) ≤ N → text.new.items ≡ text.old.items ++ decimal n }
{
    if n < 10 {
        push_digit(text, n);
        return;
    }
    push_each_digit(text, n / 10);
    push_digit(text, n);
}

// The same, the last two digits without a call: the length of a month has no more.
fn push_digits<const N: usize>(text: &mut ArrayVec<u8, N>, n: u64)
    ensures bytes { array_vec_len text.old + length (decimal n) ≤ N → text.new.items ≡ text.old.items ++ decimal n }
    ensures long { array_vec_len text.old + length (decimal n) ≤ N → array_vec_len text.new ≡ array_vec_len text.old + length (decimal n) }
{
    match n {
        0..=9 => push_digit(text, n),
        10..=99 => {
            push_digit(text, n / 10);
            push_digit(text, n);
        }
        _ => {
            push_each_digit(text, n / 100);
            push_digit(text, n / 10);
            push_digit(text, n);
        }
    }
}

// The digits of a signed number, behind a minus sign where it is negative.
fn push_sign_and_digits<const N: usize>(text: &mut ArrayVec<u8, N>, n: i64)
    ensures bytes { array_vec_len text.old + length (signed_decimal n) ≤ N → text.new.items ≡ text.old.items ++ signed_decimal n }
    ensures long { array_vec_len text.old + length (signed_decimal n) ≤ N → array_vec_len text.new ≡ array_vec_len text.old + length (signed_decimal n) }
{
    if n < 0 {
        push_byte(text, b'-');
    }
    push_each_digit(text, n.unsigned_abs());
}

// A number in decimal digits, behind a text that has room for twenty.
#[tactic(auto, using(crate::proofs::Pushed::few))]
pub fn push_number<const N: usize>(text: &mut ArrayVec<u8, N>, n: u64)
    ensures bytes { array_vec_len text.old + 20 ≤ N → text.new.items ≡ text.old.items ++ decimal n }
    ensures short { array_vec_len text.old + 20 ≤ N → array_vec_len text.new ≤ array_vec_len text.old + 20 }
{
    push_digits(text, n);
}

// The same of a signed number, with a minus sign before a negative one.
#[tactic(auto, using(crate::proofs::Pushed::few_signed))]
pub fn push_signed<const N: usize>(text: &mut ArrayVec<u8, N>, n: i64)
    ensures bytes { array_vec_len text.old + 20 ≤ N → text.new.items ≡ text.old.items ++ signed_decimal n }
    ensures short { array_vec_len text.old + 20 ≤ N → array_vec_len text.new ≤ array_vec_len text.old + 20 }
{
    push_sign_and_digits(text, n);
}

// A number in decimal digits, to any writer.
#[tactic(auto, using(decimal::proofs::Claims::shown))]
pub fn write_number<W: Write>(out: &mut W, n: u64) -> io::Result<()>
    ensures { OnOk result (Appends (W.contents out.old) (W.contents out.new) (decimal n)) }
{
    let mut digits = Digits::new();
    digits.put(n);
    out.write_all(digits.as_bytes())
}

// So many numbers are put together and written at once: a write for each costs more than the number. Each is at most 20 bytes, and has a space before it.
const BATCH: usize = 12;

fn write_batch<W: Write>(out: &mut W, numbers: &[u64]) -> io::Result<()>
    requires { length numbers.now ≤ 12 }
    ensures { OnOk result (Appends (W.contents out.old) (W.contents out.new) (spaced numbers.now)) }
{
    let mut text: ArrayVec<u8, 252> = ArrayVec::new();
    for &number in numbers {
        text.push(b' ');
        push_number(&mut text, number);
    }
    out.write_all(text.as_slice())
}

// The numbers, with a space before each.
pub fn write_numbers<W: Write>(out: &mut W, numbers: &[u64]) -> io::Result<()>
    ensures { OnOk result (Appends (W.contents out.old) (W.contents out.new) (spaced numbers.now)) }
{
    let mut rest = numbers;
    while !rest.is_empty() {
        let n = rest.len().min(BATCH);
        write_batch(out, &rest[..n])?;
        rest = &rest[n..];
    }
    Ok(())
}
