// A line that the pieces of an input cut: what is kept of it from one piece to the next, and how it goes on.
// `proofs/Claims.antt` is the page to read first.
#![tactic(auto)]

ghost use Rattle.std.specs.Prelude.{◌≡◌, ◌==◌, [], ◌++◌, position, take};
ghost use Rattle.streaming.specs.Lines.{newline};
ghost use Rattle.carrying.specs.Kept.{most, kept_of, GoneOn};

// What is kept of a line that the pieces so far have not finished: its first bytes, one more than a frame has. A count beside an array, which no
// invariant ties to it, since `judging::judge_piece` and `judging::finish` take any state. It doesn't compare by `==`: the bytes past the count
// mean nothing.
#[derive(Clone, Copy, Debug)]
pub struct Unfinished {
    pub bytes: [u8; 17],
    pub count: usize,
}

impl Unfinished {
    // Before the first piece.
    pub fn new() -> Self
        ensures { kept_of result ≡ [] }
    {
        Unfinished {
            bytes: [0u8; 17],
            count: 0,
        }
    }
}

// The place of the first newline, if there is one.
fn first_newline(bytes: &[u8]) -> Option<usize>
    ensures { result ≡ position (λ b. b == newline) bytes.now }
{
    bytes.iter().position(|&b| b == b'\n')
}

// The line with more bytes.
#[tactic(auto, using(crate::proofs::Kept::kept_full, crate::proofs::Kept::kept_passed))]
fn keep(line: Unfinished, more: &[u8]) -> Unfinished
    ensures { kept_of result ≡ take most (kept_of line ++ more.now) }
{
    let mut bytes = line.bytes;
    let mut count = line.count;
    for &b in more {
        if count > 16 {
            return Unfinished { bytes, count };
        }
        bytes[count] = b;
        count += 1;
    }
    Unfinished { bytes, count }
}

// A line as far as some bytes have it, and where they end it: the place of their first newline, or their length where they have none.
#[derive(Clone, Copy, Debug)]
pub struct Part {
    pub line: Unfinished,
    pub end: usize,
}

// Goes on with a line up to its newline.
pub fn go_on(line: Unfinished, bytes: &[u8]) -> Part
    ensures { GoneOn line bytes.now result }
{
    let end = first_newline(bytes).unwrap_or(bytes.len());
    Part {
        line: keep(line, &bytes[..end]),
        end,
    }
}
