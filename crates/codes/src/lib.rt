// Codes of month lengths and the lines that generate them, as code holds them, and the limits of a code.
#![tactic(auto)]

ghost use Rattle.std.specs.Prelude.{◌≡◌};
ghost use Rattle.lines.specs.BandTest.{within};

// The limits of a code, fitted or unfolded.
pub const MOST_LENGTHS: usize = 512;

pub const LONGEST: u64 = 400;

// The line whose mark at k is (a k + r) / b rounded down.
#[derive(Clone, Copy, Debug, PartialEq, Eq)]
pub struct Line {
    pub a: u64,
    pub b: u64,
    pub r: u64,
}

// One to 512 lengths, none above 400.
pub fn within_limits(code: &[u64]) -> bool
    ensures { result ≡ within code.now }
{
    !code.is_empty() && code.len() <= MOST_LENGTHS && code.iter().all(|&length| length <= LONGEST)
}
