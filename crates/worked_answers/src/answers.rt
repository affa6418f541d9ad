// The parts of questions and answers as text.
use calendars::{Date, Position};
use easter::MonthDay;
use listing::Calendar;
use refusals::Refusal;
use std::fmt;

// What the proved functions answer, or the number of the refusal.
#[derive(Clone, Copy)]
pub(crate) struct Answer<T>(pub(crate) Result<T, Refusal>);

impl<T: fmt::Display> fmt::Display for Answer<T> {
    fn fmt<W: fmt::Write>(&self, f: &mut fmt::Formatter<W>) -> fmt::Result {
        match &self.0 {
            Ok(answer) => write!(f, "{answer}"),
            Err(why) => write!(f, "refused {}", u64::from(*why)),
        }
    }
}

// A calendar by its name, or by its number where it has no name here. A question may be asked of any number.
#[derive(Clone, Copy)]
pub(crate) struct Named(pub(crate) u64);

impl fmt::Display for Named {
    fn fmt<W: fmt::Write>(&self, f: &mut fmt::Formatter<W>) -> fmt::Result {
        let name = match Calendar::try_from(self.0) {
            Ok(Calendar::Egyptian) => "Egyptian",
            Ok(Calendar::Persian) => "Persian",
            Ok(Calendar::Republican) => "Republican",
            Ok(Calendar::Julian) => "Julian",
            Ok(Calendar::Gregorian) => "Gregorian",
            Ok(Calendar::IslamicB) => "Islamic B",
            Ok(Calendar::Bahai) => "Bahai",
            Ok(Calendar::Saka) => "Saka",
            Ok(Calendar::Hebrew) => "Hebrew",
            _ => return write!(f, "calendar {}", self.0),
        };
        f.write_str(name)
    }
}

// A date without its weekday.
#[derive(Clone, Copy)]
pub(crate) struct Plain(pub(crate) Date);

impl fmt::Display for Plain {
    fn fmt<W: fmt::Write>(&self, f: &mut fmt::Formatter<W>) -> fmt::Result {
        let date = self.0;
        write!(f, "{}/{}/{}", date.year, date.month, date.day)
    }
}

// A date with its weekday.
#[derive(Clone, Copy)]
pub(crate) struct Whole(pub(crate) Date);

impl fmt::Display for Whole {
    fn fmt<W: fmt::Write>(&self, f: &mut fmt::Formatter<W>) -> fmt::Result {
        write!(f, "{} weekday {}", Plain(self.0), self.0.weekday)
    }
}

// A position of a year.
#[derive(Clone, Copy)]
pub(crate) struct Placed(pub(crate) Position);

impl fmt::Display for Placed {
    fn fmt<W: fmt::Write>(&self, f: &mut fmt::Formatter<W>) -> fmt::Result {
        match self.0 {
            Position::Month(days) => write!(f, "month {days}"),
            Position::Strip(days) => write!(f, "strip {days}"),
            Position::None => f.write_str("none"),
        }
    }
}

// An Easter Sunday, which is in March or in April.
#[derive(Clone, Copy)]
pub(crate) struct Feast(pub(crate) MonthDay);

impl fmt::Display for Feast {
    fn fmt<W: fmt::Write>(&self, f: &mut fmt::Formatter<W>) -> fmt::Result {
        let month = if self.0.month == 3 { "March" } else { "April" };
        write!(f, "{} {month}", self.0.day)
    }
}
