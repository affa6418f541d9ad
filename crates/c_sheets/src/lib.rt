// The verdict on a line of a sheet for C, C++ and Rust (`include/ijok.h`). A slice passes as a pointer and then a length.
#![tactic(auto)]

ghost use Rattle.std.specs.Prelude.{◌≡◌};
ghost use Rattle.verdicts.specs.Verdict.{verdict_of};

// The number that a sheet gives a line, whose newline is not part of it.
#[unsafe(no_mangle)]
pub extern "C" fn ijok_verdict(line: &[u8]) -> u64
    ensures { result ≡ verdict_of line.now }
{
    u64::from(verdicts::number(verdicts::judge_line(line)))
}
