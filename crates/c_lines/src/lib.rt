// Lines and codes for C, C++ and Rust (`include/ijok.h`). An answer is returned as a struct by value, its number first; a slice passes as a pointer and
// then a length.
#![tactic(auto)]

ghost use Rattle.std.specs.Prelude.{◌≡◌};
ghost use Rattle.lines.specs.Fit.{fit_of};
ghost use Rattle.lines.specs.Unfold.{unfold_number, unfold_buffer};
ghost use Rattle.fitting.specs.Paper.{fit_paper};
ghost use Rattle.c_lines.specs.Fields.{line_fields};

use codes::Line;
use refusals::Refusal;

// struct ijok_line, the C interface: the number of a refusal, or 0, stands beside the fields.
#[repr(C)]
#[derive(Drop)]
pub struct LineFields {
    pub number: u64,
    pub a: u64,
    pub b: u64,
    pub r: u64,
}

// The line with the least denominator that generates a code.
#[unsafe(no_mangle)]
pub extern "C" fn ijok_fit(code: &[u64]) -> LineFields
    ensures { line_fields result ≡ fit_of code.now }
{
    LineFields::from(fitting::fit(code))
}

impl From<Result<Line, Refusal>> for LineFields {
    ghost from_gives = { λ answer fields. line_fields fields ≡ fit_paper answer };

    fn from(answer: Result<Line, Refusal>) -> LineFields {
        match answer {
            Ok(Line { a, b, r }) => LineFields { number: 0, a, b, r },
            Err(why) => LineFields {
                number: u64::from(why),
                a: 0,
                b: 0,
                r: 0,
            },
        }
    }
}

// The first `count` lengths that a line yields, to the front of the buffer. By the C interface the answer is the number alone.
#[unsafe(no_mangle)]
pub extern "C" fn ijok_unfold(a: u64, b: u64, r: u64, count: usize, buffer: &mut [u64]) -> u64
    ensures answer { result ≡ unfold_number a b r count buffer.old }
    ensures whole { buffer.new ≡ unfold_buffer a b r count buffer.old }
{
    match unfolding::unfold(Line { a, b, r }, count, buffer) {
        Ok(()) => 0,
        Err(why) => u64::from(why),
    }
}
