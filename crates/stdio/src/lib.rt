// Standard input and output of the programs. A read or a write that fails ends no program with a status: `main` says it in one line on standard error.
// What is read and what is written no contract here says, but for the words of a Failure: the other promises only limit the results.
#![tactic(auto)]

ghost use Rattle.std.specs.Prelude.{◌≡◌, ◌<◌, ◌↔◌, Ok, Some, IfErr, IfOk, IsOk, IsTrue, length};
ghost use Rattle.stdio.specs.Counts.{IsPrefixLen};
ghost use Rattle.stdio.specs.Said.{said, IsOfInput, IsOfOutput};

use std::error::Error;
use std::io::Read;
use std::{fmt, io};

pub const STANDARD_INPUT: &str = "standard input";

pub const STANDARD_OUTPUT: &str = "standard output";

// Which action failed, and on which file.
#[derive(Clone, Copy, Debug, PartialEq, Eq)]
pub enum Failure {
    Read(&'static str),
    Write(&'static str),
}

impl fmt::Display for Failure {
    ghost output = { λ failure. Some (said failure) };

    fn fmt<W: fmt::Write>(&self, f: &mut fmt::Formatter<W>) -> fmt::Result {
        match *self {
            Failure::Read(file) => write!(f, "cannot read {file}; the output is incomplete"),
            Failure::Write(file) => write!(f, "cannot write {file}; the output is incomplete"),
        }
    }
}

impl Error for Failure {}

// Only what writes to standard output, as `write!` does, answers an error of std's here.
impl From<io::Error> for Failure {
    ghost use Rattle.stdio.specs.Said.{IsOfOutput};

    ghost from_gives = { λ _ failure. IsOfOutput failure };

    fn from(_why: io::Error) -> Failure {
        Failure::Write(STANDARD_OUTPUT)
    }
}

// The end of a program: says in one line what it could not do, and answers whether it did all. The program's name is whatever can be shown.
pub fn end(
    rt: &impl Eprint,
    program: impl fmt::Display + Drop,
    outcome: Result<(), Failure>,
) -> bool
    ensures { IsTrue result ↔ IsOk outcome }
{
    if let Err(failure) = outcome {
        let _ = eprintln!(rt; "{program}: {failure}");
    }
    outcome.is_ok()
}

// Reads once, and answers how many bytes it put at the front of the buffer, 0 at the end of the input.
pub fn read(from: &mut impl Read, input: &mut [u8]) -> Result<usize, Failure>
    ensures within { IfOk result (λ n. IsPrefixLen n input.new) }
    ensures failed { IfErr result IsOfInput }
{
    from.read(input).map_err(|_| Failure::Read(STANDARD_INPUT))
}

// How many bytes a write took. One that took nothing is a failure like one that was refused or interrupted.
fn taken(written: io::Result<usize>) -> Result<usize, Failure>
    ensures some { IfOk written (λ n. 0 < n → result ≡ Ok n) }
    ensures none { IfOk result (λ n. (0 < n) × (written ≡ Ok n)) }
    ensures failed { IfErr result IsOfOutput }
{
    match written {
        Ok(n) if 0 < n => Ok(n),
        _ => Err(Failure::Write(STANDARD_OUTPUT)),
    }
}

// Writes all of the bytes, or stops at the first write that takes nothing or fails. Where it could not, some may have been written.
pub fn write_all(rt: &impl Print, bytes: &[u8]) -> Result<(), Failure>
    ensures nothing { length bytes.now ≡ 0 → IsOk result }
    ensures failed { IfErr result IsOfOutput }
{
    let mut rest = bytes;
    while !rest.is_empty() {
        let n = taken(rt.write_some(rest))?;
        rest = &rest[n..];
    }
    Ok(())
}
