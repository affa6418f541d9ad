// A sheet judged piece by piece in lent buffers: lines that are cut, the answers to those that end, what the end of the input adds.
// `proofs/Claims.antt` is the page to read first.
#![tactic(auto)]

ghost use Rattle.std.specs.Prelude.{◌≡◌, ◌+◌, ◌-◌, ◌*◌, ◌≤◌, ◌<◌, length};
ghost use Rattle.carrying.specs.Kept.{kept_of};
ghost use Rattle.replying.specs.Sheet.{two_digits};
ghost use Rattle.judging.specs.Piece.{taken, Judged, ending_of};
ghost use Rattle.judging.specs.Inner.{Put, TakesFrom};

use carrying::Unfinished;

// An answer number as two lowercase hexadecimal digits and a newline.
fn answer(number: u8) -> [u8; 3]
    ensures { result ≡ two_digits number }
{
    [
        hex_digits::byte(number / 16),
        hex_digits::byte(number),
        b'\n',
    ]
}

// Writes an answer at a place. Byte by byte: `copy_from_slice` was tried, and makes a sheet of frames a tenth slower, which no change may.
fn put(out: &mut [u8], at: usize, number: u8)
    requires { at + 3 ≤ length out.old }
    ensures { Put number at out.old out.new }
{
    let [high, low, newline] = answer(number);
    out[at] = high;
    out[at + 1] = low;
    out[at + 2] = newline;
}

// How far a piece is judged: the state for what follows, how many of its bytes are taken, and how many bytes are written.
#[derive(Clone, Copy, Debug)]
pub struct Progress {
    pub state: Unfinished,
    pub consumed: usize,
    pub written: usize,
}

// Both steps ask for room: that ties the piece to the buffer lent beside it, and no one value has both.
impl Progress {
    // Takes the frames that stand one after the other from here on, where no line is begun.
    fn take_frames(self, input: &[u8], out: &mut [u8]) -> Progress
        requires in_bounds { self.consumed ≤ length input.now }
        requires room { self.written + (length input.now - self.consumed) * 3 ≤ length out.old }
        ensures { TakesFrom self input.now out.old result out.new }
    {
        if self.state.count != 0 {
            return self;
        }
        let mut consumed = self.consumed;
        let mut written = self.written;
        while let Some(number) = replying::first_line(&input[consumed..]) {
            put(out, written, number);
            consumed += 17;
            written += 3;
        }
        Progress {
            state: self.state,
            consumed,
            written,
        }
    }

    // Takes the line that stands here, or the rest of one that is begun, as far as the input has it.
    fn take_line(self, input: &[u8], out: &mut [u8]) -> Progress
        requires in_bounds { self.consumed < length input.now }
        requires room { self.written + (length input.now - self.consumed) * 3 ≤ length out.old }
        ensures takes_from { TakesFrom self input.now out.old result out.new }
        ensures further { self.consumed < result.consumed }
    {
        let part = carrying::go_on(self.state, &input[self.consumed..]);
        let end = self.consumed + part.end;
        if end == input.len() {
            return Progress {
                state: part.line,
                consumed: end,
                written: self.written,
            };
        }
        put(out, self.written, replying::kept_number(part.line));
        Progress {
            state: Unfinished::new(),
            consumed: end + 1,
            written: self.written + 3,
        }
    }
}

// Judges the lines that end in the input, for which out has room.
fn judge_all(start: Unfinished, input: &[u8], out: &mut [u8]) -> Progress
    requires { length input.now * 3 ≤ length out.old }
    ensures { Judged start input.now out.old result out.new }
{
    let mut progress = Progress {
        state: start,
        consumed: 0,
        written: 0,
    };
    // No `for`: a turn takes as many bytes as its lines have.
    while progress.consumed < input.len() {
        progress = progress.take_frames(input, out);
        if progress.consumed < input.len() {
            progress = progress.take_line(input, out);
        }
    }
    progress
}

// Judges the lines that end in the piece, and writes their answers to the front of out. It takes as many bytes of the piece as out
// has room for answers, since each could be a newline: with an out of under 3 bytes it takes nothing.
pub fn judge_piece(state: Unfinished, piece: &[u8], out: &mut [u8]) -> Progress
    ensures { Judged state (taken piece.now out.old) out.old result out.new }
{
    let n = piece.len().min(out.len() / 3);
    judge_all(state, &piece[..n], out)
}

// What the end of the input adds to the output: the answer to an unfinished line.
#[tactic(auto, using(crate::proofs::Finished::no_ending, crate::proofs::Finished::an_ending))]
pub fn finish(state: Unfinished) -> Option<[u8; 3]>
    ensures { result ≡ ending_of (kept_of state) }
{
    if state.count == 0 {
        return None;
    }
    Some(answer(replying::kept_number(state)))
}
