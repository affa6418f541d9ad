// Lines fitted and unfolded.
use crate::output::write_refusal;
use codes::{Line, MOST_LENGTHS};
use std::io;
use std::io::Write;

// 0 and the numbers.
fn write_done(out: &mut impl Write, numbers: &[u64]) -> io::Result<()> {
    out.write_all(b"0")?;
    printing::write_numbers(out, numbers)?;
    out.write_all(b"\n")
}

pub(crate) fn answer_fit(out: &mut impl Write, code: &[u64]) -> io::Result<()> {
    match fitting::fit(code) {
        Ok(line) => write_done(out, &[line.a, line.b, line.r]),
        Err(why) => write_refusal(out, why),
    }
}

// Unfolds into so many places, or into as many as a code may have where that is less.
pub(crate) fn answer_unfold(
    out: &mut impl Write,
    line: Line,
    count: usize,
    places: usize,
) -> io::Result<()> {
    let mut lengths = [0; MOST_LENGTHS];
    match unfolding::unfold(line, count, &mut lengths[..places.min(MOST_LENGTHS)]) {
        Ok(()) => write_done(out, &lengths[..count.min(MOST_LENGTHS)]),
        Err(why) => write_refusal(out, why),
    }
}
