// The forms of requests in words, and the text of `help`.
use words::Request;

pub(crate) fn form(request: Request) -> &'static str {
    match request {
        Request::Day => "day N [CALENDAR]",
        Request::Date => "date CALENDAR YEAR MONTH DAY [WEEKDAY] [all]",
        Request::Months => "months CALENDAR YEAR",
        Request::Easter => "easter YEAR",
        Request::Frame => "frame CALENDAR YEAR MONTH DAY",
        Request::Fit => "fit LENGTH ..",
        Request::Unfold => "unfold A B R COUNT [ROOM]",
        Request::Calendars => "calendars",
        Request::Answers => "answers",
        Request::Help => "help",
    }
}

pub(crate) const HELP: &str =
    "almanac answers one request, given as arguments, or requests from standard
input, one a line.

Request                                       Example
day N [CALENDAR]                              day 2461360 hebrew
date CALENDAR YEAR MONTH DAY [WEEKDAY] [all]  date gregorian 2026 11 15 all
months CALENDAR YEAR                          months hebrew 5787
easter YEAR                                   easter 2027
frame CALENDAR YEAR MONTH DAY                 frame gregorian 2026 11 15
fit LENGTH ..                                 fit 31 30 31 30 31 31
unfold A B R COUNT [ROOM]                     unfold 153 5 2 12
calendars                                     calendars
answers                                       answers
help                                          help

N is a Julian day number. CALENDAR is a number or a name that calendars lists.
WEEKDAY is 1 (Monday) to 7 (Sunday) or its name; all adds the day's date in
every calendar. A minus sign may stand before YEAR. fit finds the line A, B, R
whose marks (A k + R) / B step by the lengths; unfold writes a line's lengths.
A refusal gives its answer number and why; answers lists them.
";
