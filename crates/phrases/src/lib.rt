// Names and refusals as parts of a line that is built in a lent buffer (crate `texts`). A refusal's words stand here alone.
// `proofs/Claims.antt` is the page to read first.
#![tactic(auto)]

ghost use Rattle.std.specs.Prelude.{◌≡◌, option_map};
ghost use Rattle.refusals.specs.Number.{number_of};
ghost use Rattle.words.specs.Names.{name_beside, name_of, calendar_names, weekday_names};
ghost use Rattle.texts.specs.Lines.{Adds};
ghost use Rattle.texts.specs.Columns.{left_in};
ghost use Rattle.phrases.specs.Phrases.{answer_words, refusal_text};

use decimal::Digits;
use refusals::Refusal;
use texts::Line;

// The answer numbers in words. Numbers, and no `Refusal`: `answer_words` has 0 too, which is none.
const ANSWERS: [(u64, &str); 14] = [
    (0, "done"),
    (1, "no such calendar"),
    (2, "the year is out of range"),
    (3, "no such month in that year"),
    (4, "no such day in that month"),
    (5, "before the calendar's first day or after 5373484"),
    (6, "not 1 to 512 lengths of 0 to 400 days"),
    (7, "no line gives these lengths"),
    (8, "not 16 lowercase hexadecimal digits"),
    (9, "another day than its date's"),
    (10, "no line within the limits"),
    (11, "the buffer is shorter than the count"),
    (13, "another weekday than the day's"),
    (17, "after the calendar's end"),
];

// The column of calendars' names: the longest has 11 letters.
const NAME_WIDTH: usize = 11;

// A calendar's name in its column.
pub fn push_calendar(line: &mut Line, calendar: u64)
    ensures { Adds (left_in 11 (name_of calendar_names calendar)) line.old line.new }
{
    let name = words::calendar_name(calendar).unwrap_or("");
    line.push_left(NAME_WIDTH, name.as_bytes());
}

pub fn push_weekday(line: &mut Line, weekday: u64)
    ensures { Adds (name_of weekday_names weekday) line.old line.new }
{
    let name = words::weekday_name(weekday).unwrap_or("");
    line.push_text(name.as_bytes());
}

// The words of an answer number, if it has any.
pub fn answer(number: u64) -> Option<&'static str>
    ensures { option_map (λ words. words.now) result ≡ name_beside answer_words number }
{
    words::name_at(&ANSWERS, number)
}

pub fn push_answer(line: &mut Line, number: u64)
    ensures { Adds (name_of answer_words number) line.old line.new }
{
    let words = answer(number).unwrap_or("");
    line.push_text(words.as_bytes());
}

pub fn push_refusal(line: &mut Line, why: Refusal)
    ensures { Adds (refusal_text (number_of why)) line.old line.new }
{
    let number = u64::from(why);
    line.push_text(b"refused ");
    line.push_text(Digits::from(number).as_bytes());
    line.push_text(b": ");
    push_answer(line, number);
}
