// Fits and unfolds line by line: requests from standard input, answers to standard output.
//
//   fit 31 30 31 30 31 31    answers 0 153 5 2: the answer number, a, b and r
//   unfold 153 5 2 6         answers 0 31 30 31 30 31 31: the answer number and the lengths at 6 places of the line 153, 5, 2
//   unfold 153 5 2 6 5       the same into a buffer of 5 places, which answers 11
//
// One space or more stands before each number. Any other line answers `not a request`.
#![tactic(auto)]

mod answering;
mod reading;

use printing::Output;
use reading::Request;
use std::io::Read;
use stdio::Failure;

fn run(rt: &impl Print, from: &mut impl Read) -> Result<(), Failure> {
    let mut input = [0u8; 16384];
    let mut buffer = [0u8; 16384];
    let mut out = Output::new(rt, &mut buffer);
    request_lines::answer_input(from, &mut Request::new(), &mut input, &mut out)
}

fn main(rt: HostRuntime) {
    stdio::end(&rt, "fit_lines", run(&rt, &mut rt.stdin()));
}
