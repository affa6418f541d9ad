// Easter for C, C++ and Rust (`include/ijok.h`). The answer is returned as a struct by value, its number first.
#![tactic(auto)]

ghost use Rattle.std.specs.Prelude.{◌≡◌};
ghost use Rattle.computus.specs.Rule.{easter_answer};
ghost use Rattle.easter.specs.Paper.{easter_paper};
ghost use Rattle.c_easter.specs.Fields.{easter_fields};

use easter::MonthDay;
use refusals::Refusal;

// struct ijok_easter
#[repr(C)]
#[derive(Drop)]
pub struct EasterFields {
    pub number: u64,
    pub month: u64,
    pub day: u64,
}

impl From<Result<MonthDay, Refusal>> for EasterFields {
    ghost from_gives = { λ answer fields. easter_fields fields ≡ easter_paper answer };

    fn from(answer: Result<MonthDay, Refusal>) -> EasterFields {
        match answer {
            Ok(feast) => EasterFields {
                number: 0,
                month: feast.month,
                day: feast.day,
            },
            Err(why) => EasterFields {
                number: u64::from(why),
                month: 0,
                day: 0,
            },
        }
    }
}

// Easter of a year of calendar 10 or 11.
#[unsafe(no_mangle)]
pub extern "C" fn ijok_easter(calendar: u64, year: i64) -> EasterFields
    ensures { easter_fields result ≡ easter_answer calendar year }
{
    EasterFields::from(easter::easter(calendar, year))
}
