// Lines of answers, and what is said of a line that is no request.
use crate::help;
use refusals::Refusal;
use std::io;
use std::io::Write;
use words::Request;

// No line of an answer is as long, but for lengths, which are written one by one.
const LINE: usize = 128;

// A line that `build` puts at the front of a buffer; it answers where the line ends.
pub(crate) fn write_line<W: Write, F: FnOnce(&mut [u8]) -> usize>(
    out: &mut W,
    build: F,
) -> io::Result<()>
    requires { F.IsAlwaysCallable build }
{
    let mut line = [0; LINE];
    let end = build(&mut line).min(LINE);
    out.write_all(&line[..end])?;
    writeln!(out)
}

pub(crate) fn write_refusal(out: &mut impl Write, why: Refusal) -> io::Result<()> {
    write_line(out, |line| answer_lines::refusal_line(why, line))
}

// What would have been right in place of a token that does not fit, or of more tokens.
pub(crate) fn write_right_form(out: &mut impl Write, request: Option<Request>) -> io::Result<()> {
    match request {
        Some(request) => writeln!(out, "the form is {}", help::form(request)),
        None => writeln!(out, "help lists the requests"),
    }
}
