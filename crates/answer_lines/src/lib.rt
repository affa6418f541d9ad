// The lines that answer requests, each built in a lent buffer: a function answers where the line ends.
// `proofs/Claims.antt` is the page to read first.
#![tactic(auto)]

ghost use Rattle.refusals.specs.Number.{number_of};
ghost use Rattle.phrases.specs.Phrases.{refusal_text};
ghost use Rattle.calendars.specs.Paper.{day_paper, date_paper, position_paper};
ghost use Rattle.easter.specs.Paper.{easter_paper};
ghost use Rattle.std.specs.Prelude.{◌≡◌};
ghost use Rattle.texts.specs.Writing.{Writes, Counts};
ghost use Rattle.texts.specs.Lines.{Adds};
ghost use Rattle.texts.specs.Columns.{right_in};
ghost use Rattle.decimal.specs.Decimal.{text, signed_text};
ghost use Rattle.answer_lines.specs.Lines.{day_line, date_line, first_day_line, heading, date_columns, calendar_row};
ghost use Rattle.answer_lines.specs.Lines.{easter_row, first_row, kind_name, position_row, answer_row};

use calendars::{Date, Position};
use decimal::Digits;
use easter::MonthDay;
use phrases::{push_answer, push_calendar, push_refusal, push_weekday};
use refusals::Refusal;
use texts::Line;

// The column of years: the least that has days, -4712, takes 5 bytes.
const YEAR_WIDTH: usize = 5;

// ---- numbers. `Digits` is filled in place: `Digits::from` would copy it once more.

fn push_number(line: &mut Line, n: u64)
    ensures { Adds (text n) line.old line.new }
{
    let mut digits = Digits::new();
    digits.put(n);
    line.push_text(digits.as_bytes());
}

fn push_year(line: &mut Line, year: i64)
    ensures { Adds (signed_text year) line.old line.new }
{
    let mut digits = Digits::new();
    digits.put_signed(year);
    line.push_text(digits.as_bytes());
}

// The same at the right of a column.
fn push_number_right(line: &mut Line, width: usize, n: u64)
    ensures { Adds (right_in width (text n)) line.old line.new }
{
    let mut digits = Digits::new();
    digits.put(n);
    line.push_right(width, digits.as_bytes());
}

fn push_year_right(line: &mut Line, width: usize, year: i64)
    ensures { Adds (right_in width (signed_text year)) line.old line.new }
{
    let mut digits = Digits::new();
    digits.put_signed(year);
    line.push_right(width, digits.as_bytes());
}

// ---- lines. Each says by itself what stands in place of an answer that is refused: one function for all would take a closure, whose clause would have to say what
// it pushes, which is no shorter than the match.

fn push_day(line: &mut Line, answer: Result<u64, Refusal>)
    ensures { Adds (day_line (day_paper answer)) line.old line.new }
{
    match answer {
        Ok(day) => {
            push_number(line, day);
            line.push(b' ');
            push_weekday(line, weekdays::weekday_of(day));
        }
        Err(why) => push_refusal(line, why),
    }
}

// The answer to a date.
pub fn day_line(answer: Result<u64, Refusal>, buffer: &mut [u8]) -> usize
    ensures text { Writes 0 (day_line (day_paper answer)) buffer.old buffer.new result }
    ensures within { Counts result buffer.new }
{
    let mut line = Line::new(buffer);
    push_day(&mut line, answer);
    line.end
}

// A refusal alone.
pub fn refusal_line(why: Refusal, buffer: &mut [u8]) -> usize
    ensures text { Writes 0 (refusal_text (number_of why)) buffer.old buffer.new result }
    ensures within { Counts result buffer.new }
{
    let mut line = Line::new(buffer);
    push_refusal(&mut line, why);
    line.end
}

fn push_date(line: &mut Line, answer: Result<Date, Refusal>)
    ensures { Adds (date_line (date_paper answer)) line.old line.new }
{
    match answer {
        Ok(date) => {
            push_year(line, date.year);
            line.push(b' ');
            push_number(line, date.month);
            line.push(b' ');
            push_number(line, date.day);
            line.push(b' ');
            push_weekday(line, date.weekday);
        }
        Err(why) => push_refusal(line, why),
    }
}

// The answer to a day in one calendar.
pub fn date_line(answer: Result<Date, Refusal>, buffer: &mut [u8]) -> usize
    ensures text { Writes 0 (date_line (date_paper answer)) buffer.old buffer.new result }
    ensures within { Counts result buffer.new }
{
    let mut line = Line::new(buffer);
    push_date(&mut line, answer);
    line.end
}

fn push_first_day(line: &mut Line, answer: Result<u64, Refusal>)
    ensures { Adds (first_day_line (day_paper answer)) line.old line.new }
{
    line.push_text(b"first day ");
    match answer {
        Ok(day) => push_number(line, day),
        Err(why) => push_refusal(line, why),
    }
}

// The first day of a year.
pub fn first_day_line(answer: Result<u64, Refusal>, buffer: &mut [u8]) -> usize
    ensures text { Writes 0 (first_day_line (day_paper answer)) buffer.old buffer.new result }
    ensures within { Counts result buffer.new }
{
    let mut line = Line::new(buffer);
    push_first_day(&mut line, answer);
    line.end
}

// ---- rows of tables

fn push_heading(line: &mut Line, calendar: u64)
    ensures { Adds (heading calendar) line.old line.new }
{
    push_number_right(line, 2, calendar);
    line.push(b' ');
    push_calendar(line, calendar);
    line.push(b' ');
}

fn push_columns(line: &mut Line, year: i64, month: u64, day: u64)
    ensures { Adds (date_columns year month day) line.old line.new }
{
    push_year_right(line, YEAR_WIDTH, year);
    line.push(b' ');
    push_number_right(line, 2, month);
    line.push(b' ');
    push_number_right(line, 2, day);
}

fn push_calendar_row(line: &mut Line, calendar: u64, answer: Result<Date, Refusal>)
    ensures { Adds (calendar_row calendar (date_paper answer)) line.old line.new }
{
    push_heading(line, calendar);
    match answer {
        Ok(date) => push_columns(line, date.year, date.month, date.day),
        Err(why) => push_refusal(line, why),
    }
}

// A day in a calendar.
pub fn calendar_row(calendar: u64, answer: Result<Date, Refusal>, buffer: &mut [u8]) -> usize
    ensures text { Writes 0 (calendar_row calendar (date_paper answer)) buffer.old buffer.new result }
    ensures within { Counts result buffer.new }
{
    let mut line = Line::new(buffer);
    push_calendar_row(&mut line, calendar, answer);
    line.end
}

fn push_easter_row(
    line: &mut Line,
    calendar: u64,
    year: i64,
    answer: Result<MonthDay, Refusal>,
    number: u64,
)
    ensures { Adds (easter_row calendar year (easter_paper answer) number) line.old line.new }
{
    push_heading(line, calendar);
    match answer {
        Ok(date) => {
            push_columns(line, year, date.month, date.day);
            line.push(b' ');
            push_number(line, number);
        }
        Err(why) => push_refusal(line, why),
    }
}

// Easter of a year in a calendar, and the number of its day.
pub fn easter_row(
    calendar: u64,
    year: i64,
    answer: Result<MonthDay, Refusal>,
    number: u64,
    buffer: &mut [u8],
) -> usize
    ensures text { Writes 0 (easter_row calendar year (easter_paper answer) number) buffer.old buffer.new result }
    ensures within { Counts result buffer.new }
{
    let mut line = Line::new(buffer);
    push_easter_row(&mut line, calendar, year, answer, number);
    line.end
}

// A calendar's first day and first year.
pub fn first_row(calendar: u64, day: u64, year: i64, buffer: &mut [u8]) -> usize
    ensures text { Writes 0 (first_row calendar day year) buffer.old buffer.new result }
    ensures within { Counts result buffer.new }
{
    let mut line = Line::new(buffer);
    push_heading(&mut line, calendar);
    push_number_right(&mut line, 7, day);
    line.push(b' ');
    push_year_right(&mut line, YEAR_WIDTH, year);
    line.end
}

// What a position is in one word; a refused one is none.
#[tactic(auto, unfolding(words::specs::Text::bytes))]
fn kind(answer: Result<Position, Refusal>) -> &'static [u8]
    ensures { result.now ≡ kind_name (position_paper answer).kind }
{
    match answer {
        Ok(Position::Month(_)) => b"month",
        Ok(Position::Strip(_)) => b"strip",
        Ok(Position::None) | Err(_) => b"none",
    }
}

// A position of a year.
pub fn position_row(position: u64, answer: Result<Position, Refusal>, buffer: &mut [u8]) -> usize
    ensures text { Writes 0 (position_row position (position_paper answer)) buffer.old buffer.new result }
    ensures within { Counts result buffer.new }
{
    let days = answer.map_or(0, Position::days);
    let mut line = Line::new(buffer);
    push_number_right(&mut line, 2, position);
    line.push(b' ');
    line.push_left(5, kind(answer));
    line.push(b' ');
    push_number_right(&mut line, 2, days);
    line.end
}

// An answer number and its words.
pub fn answer_row(number: u64, buffer: &mut [u8]) -> usize
    ensures text { Writes 0 (answer_row number) buffer.old buffer.new result }
    ensures within { Counts result buffer.new }
{
    let mut line = Line::new(buffer);
    push_number_right(&mut line, 2, number);
    line.push(b' ');
    push_answer(&mut line, number);
    line.end
}
