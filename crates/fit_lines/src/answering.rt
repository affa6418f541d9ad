// The answer to a request. Almanac's fits.rt answers refusals in other words, so the two stay apart.
use arrayvec::ArrayVec;
use codes::{Line, MOST_LENGTHS};
use printing::{push_number, write_number, write_numbers};
use std::io;
use std::io::Write;

// In place: a result that a call hands on is copied, which would take longer than all else here.
#[inline(always)]
pub(crate) fn no_request(out: &mut impl Write) -> io::Result<()> {
    out.write_all(b"not a request")
}

// The answer number, a, b and r: put together and written at once.
fn answer_fit(out: &mut impl Write, code: &[u64]) -> io::Result<()> {
    let (number, line) = match fitting::fit(code) {
        Ok(line) => (0, line),
        Err(why) => (u64::from(why), Line { a: 0, b: 0, r: 0 }),
    };
    let mut text: ArrayVec<u8, 83> = ArrayVec::new();
    push_number(&mut text, number);
    for n in [line.a, line.b, line.r] {
        let _ = text.try_push(b' ');
        push_number(&mut text, n);
    }
    out.write_all(text.as_slice())
}

// Unfolds into a buffer of so many places, or of as many as a code may have, where they are fewer.
fn answer_unfold(out: &mut impl Write, line: Line, count: usize, room: usize) -> io::Result<()> {
    let mut lengths = [0; MOST_LENGTHS];
    match unfolding::unfold(line, count, &mut lengths[..room.min(MOST_LENGTHS)]) {
        Ok(()) => {
            out.write_all(b"0")?;
            write_numbers(out, &lengths[..count.min(MOST_LENGTHS)])
        }
        Err(why) => write_number(out, u64::from(why)),
    }
}

pub(crate) fn answer(out: &mut impl Write, word: &[u8], numbers: &[u64]) -> io::Result<()> {
    let (a, b, r, count, room) = match (word, numbers) {
        (b"fit", code) => return answer_fit(out, code),
        (b"unfold", [a, b, r, count]) => (*a, *b, *r, *count, MOST_LENGTHS),
        (b"unfold", [a, b, r, count, room]) => (*a, *b, *r, *count, *room as usize),
        _ => return no_request(out),
    };
    answer_unfold(out, Line { a, b, r }, count as usize, room)
}
