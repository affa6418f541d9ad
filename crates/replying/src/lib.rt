// The answer number of one line of a sheet: of a frame where it stands, and of a line that was kept from pieces.
// `proofs/Claims.antt` is the page to read first.
#![tactic(auto)]

ghost use Rattle.std.specs.Prelude.{◌≡◌};
ghost use Rattle.verdicts.specs.Verdict.{verdict_of};
ghost use Rattle.carrying.specs.Kept.{kept_of};
ghost use Rattle.replying.specs.First.{first_line};

use carrying::Unfinished;

// How many bytes a frame has.
const FRAME: usize = 16;

// The number of the verdict on the frame that some bytes begin with, if a frame and its newline stand there.
#[tactic(auto, using(crate::proofs::First::is_frame, crate::proofs::First::no_digits, crate::proofs::First::no_newline, crate::proofs::First::too_short))]
pub fn first_line(bytes: &[u8]) -> Option<u8>
    ensures { result ≡ first_line bytes.now }
{
    if *bytes.get(FRAME)? != b'\n' {
        return None;
    }
    let frame = frames::read(&bytes[..FRAME])?;
    Some(verdicts::number(verdicts::judge_frame(frame)))
}

// The number of the verdict on a line that is kept. A state may count more bytes than it has: its fields are public.
#[tactic(auto, using(carrying::proofs::Kept::kept_bytes))]
pub fn kept_number(line: Unfinished) -> u8
    ensures { result ≡ verdict_of (kept_of line) }
{
    let kept = &line.bytes[..line.count.min(17)];
    verdicts::number(verdicts::judge_line(kept))
}
