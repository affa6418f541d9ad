// Answers requests from standard input, one a line. Of a line a program keeps what it needs, and answers it at its newline.
#![tactic(auto)]

ghost use Rattle.std.specs.Prelude.{◌≡◌, Bool, Some, OnOk, false};

use printing::Output;
use std::io;
use std::io::{Read, Write};
use stdio::Failure;

// What is kept of a line between two of its bytes.
pub trait RequestLine {
    ghost begun: { Self → Bool };

    // Whether it has a byte.
    fn is_begun(&self) -> bool
        ensures { result ≡ begun self.now };

    // More bytes of the line, without its newline.
    fn take(&mut self, bytes: &[u8]);

    // Writes the answer to the line, of which no byte is left, and begins the next.
    fn answer(&mut self, out: &mut impl Write) -> io::Result<()>
        ensures { OnOk result (begun self.new ≡ false) };
}

// The bytes of one reading: lines, and the beginning of one that goes on in the next.
fn answer_piece(line: &mut impl RequestLine, piece: &[u8], out: &mut impl Write) -> io::Result<()> {
    for part in piece.split_inclusive(|byte| *byte == b'\n') {
        match part.strip_suffix(b"\n") {
            Some(bytes) => {
                line.take(bytes);
                line.answer(out)?;
            }
            None => line.take(part),
        }
    }
    Ok(())
}

// Answers all of standard input, the lines of each reading before the next. A last line without newline counts if it has bytes. Where a read fails the
// unfinished line is not answered: how it goes on is not known.
pub fn answer_input<L: RequestLine>(
    from: &mut impl Read,
    line: &mut L,
    input: &mut [u8],
    out: &mut Output<'_, impl Print>,
) -> Result<(), Failure>
    ensures answered { OnOk result (L.begun line.new ≡ false) }
    ensures written { OnOk result (out.new.waiting ≡ Some 0) }
{
    // A proved loop ends, and nothing says that the input does: no run has so many readings.
    for _ in 0..u64::MAX {
        let count = stdio::read(from, input)?;
        if count == 0 {
            break;
        }
        answer_piece(line, &input[..count], out)?;
        out.flush()?;
    }
    if line.is_begun() {
        line.answer(out)?;
    }
    Ok(out.flush()?)
}
