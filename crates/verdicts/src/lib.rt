// One line of a sheet: its frame, and the verdict on it.
// `proofs/Claims.antt` is the page to read first.
#![tactic(auto)]

ghost use Rattle.std.specs.Prelude.{◌≡◌, min, pos, ◌-ℤ◌};
ghost use Rattle.verdicts.specs.Verdict.{verdict_number, verdict_on, verdict_of};

use calendars::Date;
use frames::Frame;
use refusals::Refusal;

// The answer number of a verdict: 0 where the line's frame is right, and else why it is not. No `From`: both types are std's.
pub fn number(verdict: Result<(), Refusal>) -> u8
    ensures { result ≡ verdict_number verdict }
{
    match verdict {
        Ok(()) => 0,
        Err(why) => u8::from(why),
    }
}

// The year of a frame's field. A field that no frame has, of more than four digits, is a year after every calendar's last, whichever.
fn year_of(field: u64) -> i64
    ensures { result ≡ pos (min field 65536) -ℤ pos 4712 }
{
    field.min(0x1_0000) as i64 - 4712
}

// The verdict on a frame with these fields.
pub fn judge_frame(frame: Frame) -> Result<(), Refusal>
    ensures { verdict_number result ≡ verdict_on frame }
{
    let date = Date {
        year: year_of(frame.year),
        month: frame.month,
        day: frame.day,
        weekday: 0,
    };
    match calendars::date_to_day(frame.calendar, date) {
        Ok(day) => {
            if day == frame.number {
                Ok(())
            } else {
                Err(Refusal::WrongDay)
            }
        }
        Err(why) => Err(why),
    }
}

// The verdict on a line of any bytes, without its newline.
pub fn judge_line(line: &[u8]) -> Result<(), Refusal>
    ensures { verdict_number result ≡ verdict_of line.now }
{
    let frame = frames::read(line).ok_or(Refusal::MalformedFrame)?;
    judge_frame(frame)
}
