// The forms of requests: what may stand in each place after the request's word.
use words::Request;

// What may stand in a place.
#[derive(Clone, Copy, Debug, PartialEq, Eq)]
pub(crate) enum Argument {
    Natural,
    Year,
    Calendar,
    WeekdayOrAll,
    All,
}

const DAY: [Argument; 2] = [Argument::Natural, Argument::Calendar];

pub(crate) const DATE: [Argument; 6] = [
    Argument::Calendar,
    Argument::Year,
    Argument::Natural,
    Argument::Natural,
    Argument::WeekdayOrAll,
    Argument::All,
];

const MONTHS: [Argument; 2] = [Argument::Calendar, Argument::Year];

const EASTER: [Argument; 1] = [Argument::Year];

const FRAME: [Argument; 4] = [
    Argument::Calendar,
    Argument::Year,
    Argument::Natural,
    Argument::Natural,
];

const UNFOLD: [Argument; 5] = [
    Argument::Natural,
    Argument::Natural,
    Argument::Natural,
    Argument::Natural,
    Argument::Natural,
];

// What may stand in a place, counted from 0. The lengths of `fit` have no end.
pub(crate) fn argument_at(request: Request, place: usize) -> Option<Argument> {
    match request {
        Request::Day => DAY.get(place).copied(),
        Request::Date => DATE.get(place).copied(),
        Request::Months => MONTHS.get(place).copied(),
        Request::Easter => EASTER.get(place).copied(),
        Request::Frame => FRAME.get(place).copied(),
        Request::Unfold => UNFOLD.get(place).copied(),
        Request::Fit => Some(Argument::Natural),
        Request::Calendars | Request::Answers | Request::Help => None,
    }
}
