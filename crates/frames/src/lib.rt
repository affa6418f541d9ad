// The fields of a frame (docs/RULES.md, "Sheets"): reading them from a line and writing them to one.
// `proofs/Claims.antt` is the page to read first.
#![tactic(auto)]

ghost use Rattle.std.specs.Prelude.{◌≡◌};
ghost use Rattle.frames.specs.Frame.{reading_of, frame_of};
ghost use Rattle.frames.specs.Inner.{parts_of, packed};

// The numbers that a frame carries. The year is the year plus 4,712.
#[derive(Clone, Copy, Debug, PartialEq, Eq)]
pub struct Frame {
    pub calendar: u64,
    pub year: u64,
    pub month: u64,
    pub day: u64,
    pub number: u64,
}

// The fields of a frame whose digits write n. A private step, and no `From`: a caller would read a frame from any number, not from a line.
fn parts(n: u64) -> Frame
    ensures { result ≡ parts_of n }
{
    Frame {
        calendar: n / 0x100_0000_0000_0000 % 0x100,
        year: n / 0x100_0000_0000 % 0x1_0000,
        month: n / 0x1_0000_0000 % 0x100,
        day: n / 0x100_0000 % 0x100,
        number: n % 0x100_0000,
    }
}

// The fields of a line that is exactly 16 digits.
pub fn read(line: &[u8]) -> Option<Frame>
    ensures { result ≡ reading_of line.now }
{
    hex_digits::read(line).map(parts)
}

// The number that a frame's digits write. No `From`: of a field that is too wide only the lowest digits count.
fn pack(frame: Frame) -> u64
    ensures { result ≡ packed frame }
{
    frame.calendar % 0x100 * 0x100_0000_0000_0000
        + frame.year % 0x1_0000 * 0x100_0000_0000
        + frame.month % 0x100 * 0x1_0000_0000
        + frame.day % 0x100 * 0x100_0000
        + frame.number % 0x100_0000
}

// The frame of some fields: of each its lowest digits.
pub fn write(frame: Frame) -> [u8; 16]
    ensures { result ≡ frame_of frame }
{
    hex_digits::write(pack(frame))
}
