// The answers to requests, as text for standard output. The lines themselves are proved (crate `answer_lines`).
use crate::reading::{Line, Progress};
use crate::{dates, fits, help, output};
use calendars::Date;
use codes::MOST_LENGTHS;
use std::io;
use std::io::Write;
use words::Request;

// A line of which no byte is left.
pub(crate) fn answer(out: &mut impl Write, line: &Line) -> io::Result<()> {
    match line.progress {
        Progress::Empty => {
            writeln!(out, "not a request: an empty line; help lists the requests")
        }
        Progress::Wrong(request) => {
            write!(out, "not a request: \"{}\"; ", line.token)?;
            output::write_right_form(out, request)
        }
        Progress::Fitting(request) => answer_request(out, request, line),
    }
}

// A request with too few arguments is none.
fn answer_request(out: &mut impl Write, request: Request, line: &Line) -> io::Result<()> {
    match (request, line.numbers.as_slice(), line.year) {
        (Request::Day, [day], _) => dates::answer_day(out, *day),
        (Request::Day, [day, calendar, ..], _) => dates::answer_day_in(out, *day, *calendar),
        (Request::Date, [calendar, month, day, ..], Some(year)) => {
            let date = Date {
                year,
                month: *month,
                day: *day,
                weekday: line.weekday,
            };
            dates::answer_date(out, *calendar, date, line.all)
        }
        (Request::Months, [calendar, ..], Some(year)) => dates::answer_months(out, *calendar, year),
        (Request::Easter, _, Some(year)) => dates::answer_easter(out, year),
        (Request::Frame, [calendar, month, day, ..], Some(year)) => {
            let date = Date {
                year,
                month: *month,
                day: *day,
                weekday: 0,
            };
            dates::answer_frame(out, *calendar, date)
        }
        (Request::Fit, code, _) => fits::answer_fit(out, code),
        (Request::Unfold, [a, b, r, count, rest @ ..], _) => {
            let line = codes::Line {
                a: *a,
                b: *b,
                r: *r,
            };
            let places = rest.first().map_or(MOST_LENGTHS, |places| *places as usize);
            fits::answer_unfold(out, line, *count as usize, places)
        }
        (Request::Calendars, _, _) => dates::answer_calendars(out),
        (Request::Answers, _, _) => dates::answer_answers(out),
        (Request::Help, _, _) => write!(out, "{}", help::HELP),
        _ => {
            write!(out, "not a request: it ends too soon; ")?;
            output::write_right_form(out, Some(request))
        }
    }
}
