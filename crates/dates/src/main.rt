// Dates, days and weekdays: requests from standard input, answers to standard output. How many numbers a line has tells what is asked.
//
//   2451545          a day; answers a line for each calendar, as `11 2000 1 1 6`: calendar, year, month, day and weekday, or `7 refused 17`
//   14 180           calendar and year; answers a line for each position, as `1 month 19`, `19 strip 5` or, of Hebrew years, `7 none`, then the year's
//                    days, `366 days`
//   11 2000 1 1      a date; answers its day
//   11 2000 1 1 6    the same with the weekday, 1 Monday to 7 Sunday, which has to be the day's; 0 stands for none
//
// What is refused answers `refused` and the answer number. One space or more stands between the numbers, and a minus sign may stand before the year. Any
// other line answers `not a request`.
#![tactic(auto)]

mod answering;
mod conversions;
mod output;
mod positions;
mod reading;

use printing::Output;
use reading::Request;
use std::io::Read;
use stdio::Failure;

fn run(rt: &impl Print, from: &mut impl Read) -> Result<(), Failure> {
    let mut input = [0u8; 16384];
    let mut buffer = [0u8; 16384];
    let mut out = Output::new(rt, &mut buffer);
    request_lines::answer_input(from, &mut Request::new(), &mut input, &mut out)
}

fn main(rt: HostRuntime) {
    stdio::end(&rt, "dates", run(&rt, &mut rt.stdin()));
}
