// Answers what the libraries know, in decimal text: a request given as arguments, or requests from standard input, one a line. `almanac help` lists them.
#![tactic(auto)]

mod answers;
mod arguments;
mod dates;
mod fits;
mod forms;
mod help;
mod output;
mod reading;

use crate::reading::{Line, Progress};
use printing::Output;
use std::io::{Read, Write};
use std::rt::Env;
use stdio::Failure;

// Answers the arguments where there are any, and else standard input.
fn run(rt: &(impl Print + Env), from: &mut impl Read) -> Result<(), Failure> {
    let mut input = [0; 16384];
    let mut buffer = [0; 16384];
    let mut out = Output::new(rt, &mut buffer);
    let mut line = Line::new();
    if arguments::take(rt, &mut line, &mut input)? == 0 {
        return request_lines::answer_input(from, &mut line, &mut input, &mut out);
    }
    answers::answer(&mut out, &line)?;
    // A word that is no request's is answered with the list of requests too.
    if line.progress == Progress::Wrong(None) {
        out.write_all(help::HELP.as_bytes())?;
    }
    Ok(out.flush()?)
}

fn main(rt: HostRuntime) {
    let mut from = rt.stdin();
    stdio::end(&rt, "almanac", run(&rt, &mut from));
}
