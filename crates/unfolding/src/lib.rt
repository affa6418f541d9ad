// Unfolding: the lengths that a line yields.
#![tactic(auto)]

ghost use Rattle.std.specs.Prelude.{◌≡◌, true, length};
ghost use Rattle.lines.specs.Unfold.{line_within, unfolded, unfold_number, unfold_buffer};
ghost use Rattle.unfolding.specs.Paper.{unfold_paper};

use codes::{LONGEST, Line, MOST_LENGTHS};
use refusals::Refusal;

const MOST_DENOMINATOR: u64 = 512;

// Whether a line is one to unfold: b from 1 to 512, r from 0 to b - 1, a from 0 to 400 b.
fn line_within(line: Line) -> bool
    ensures { result ≡ line_within line.a line.b line.r }
{
    1 <= line.b && line.b <= MOST_DENOMINATOR && line.r < line.b && line.a <= LONGEST * line.b
}

// Writes the line's first lengths to all places. The remainder of a k + r by b is carried from place to place, so that the loop divides nothing.
fn write_lengths(line: Line, lengths: &mut [u64])
    requires { line_within line.a line.b line.r ≡ true }
    ensures { lengths.new ≡ unfolded line.a line.b line.r (length lengths.old) }
{
    let whole = line.a / line.b;
    let part = line.a % line.b;
    let mut rest = line.r;
    for length in lengths.iter_mut() {
        let next = rest + part;
        if next < line.b {
            *length = whole;
            rest = next;
        } else {
            *length = whole + 1;
            rest = next - line.b;
        }
    }
}

// Writes the first `count` lengths that a line yields to the front of the buffer, and leaves the rest of it. The count stands beside the buffer, since by
// clause `answer` a buffer that is shorter is refused.
pub fn unfold(line: Line, count: usize, buffer: &mut [u64]) -> Result<(), Refusal>
    ensures answer { unfold_paper result ≡ unfold_number line.a line.b line.r count buffer.old }
    ensures whole { buffer.new ≡ unfold_buffer line.a line.b line.r count buffer.old }
{
    if !line_within(line) {
        return Err(Refusal::LineOutOfLimits);
    }
    if count == 0 || MOST_LENGTHS < count {
        return Err(Refusal::CodeOutOfLimits);
    }
    if buffer.len() < count {
        return Err(Refusal::BufferTooShort);
    }
    write_lengths(line, &mut buffer[..count]);
    Ok(())
}
