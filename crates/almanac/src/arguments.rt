// A request that the program's arguments are.
use crate::reading::Line;
use request_lines::RequestLine;
use std::env::FillError;
use std::rt::Env;
use stdio::Failure;

// Takes the arguments into the line, and answers how many there are. The end of one counts as a blank. (The runtime hands them out by their places.)
pub(crate) fn take(rt: &impl Env, line: &mut Line, input: &mut [u8]) -> Result<usize, Failure> {
    for place in 1..usize::MAX {
        match rt.arg(place, input) {
            Ok(n) => line.take(&input[..n]),
            Err(FillError::NotPresent) => return Ok(place - 1),
            Err(_) => return Err(Failure::Read("an argument")),
        }
        line.end_token();
    }
    Ok(usize::MAX)
}
