// Fitting: the digital straight line with the least denominator that generates a code of month lengths.
#![tactic(auto)]

ghost use Rattle.std.specs.Prelude.{◌≡◌};
ghost use Rattle.lines.specs.Fit.{Within, fit_of};
ghost use Rattle.fitting.specs.Paper.{fit_paper};

use codes::Line;
use refusals::Refusal;

// Tries the denominators 1, 2, .. with the band test. A denominator b leaves one slope, a / b with a the sum of the first b lengths; each mark k then
// bounds the offset by b y - a k below and by b - 1 more above, where y is the sum of the first k lengths.
fn least_denominator(code: &[u64]) -> Result<Line, Refusal>
    requires { Within code.now }
    ensures { fit_paper result ≡ fit_of code.now }
{
    let n = code.len();
    let mut tried: usize = 0;
    let mut a: u64 = 0;
    let mut low: u64 = 0;
    // The labelled loop and the loop in it are a form asked for by name (docs/DECISIONS.md): the outer yields a value, which no `for` does, and the inner is left by
    // `break` at the first mark outside the band, where a `for` would have to go on with the outer one.
    let denominator = 'denominators: loop {
        if tried == n {
            break 'denominators None;
        }
        a += code[tried];
        tried += 1;
        let b = tried as u64;
        low = 0;
        let mut high = b - 1;
        let mut y: u64 = 0;
        let mut reach: u64 = 0;
        let mut k: usize = 0;
        loop {
            if k == n {
                break 'denominators Some(b);
            }
            y += code[k];
            reach += a;
            k += 1;
            let level = b * y;
            let top = level + b - 1;
            if top < reach + low {
                break;
            }
            if reach + high < level {
                break;
            }
            low = low.max(level.saturating_sub(reach));
            high = high.min(top - reach);
        }
    };
    let Some(b) = denominator else {
        return Err(Refusal::NoLine);
    };
    Ok(Line { a, b, r: low })
}

// The line with the least denominator that generates the code, or why there is none.
pub fn fit(code: &[u64]) -> Result<Line, Refusal>
    ensures { fit_paper result ≡ fit_of code.now }
{
    if codes::within_limits(code) {
        least_denominator(code)
    } else {
        Err(Refusal::CodeOutOfLimits)
    }
}
