// The sheet program: frames from standard input, one a line, and their answer numbers to standard output. All that matters is in
// `judging`; here is only reading and writing.
#![tactic(auto)]

ghost use Rattle.std.specs.Prelude.{◌*◌, ◌≤◌, length};
ghost use Rattle.judging.specs.Piece.{Judged};

use carrying::Unfinished;
use judging::Progress;
use std::io::Read;
use stdio::Failure;

// Judges a piece for whose answers output has room: all of it is taken. That is asked of the two buffers, and no one value has both.
fn judge(state: Unfinished, piece: &[u8], output: &mut [u8]) -> Progress
    requires { length piece.now * 3 ≤ length output.old }
    ensures { Judged state piece.now output.old result output.new }
{
    judging::judge_piece(state, piece, output)
}

// Reads once, judges what came, and writes the answers before the next read; at the end of the input what it adds. Where a read or a write
// fails nothing more is written: how the unfinished line goes on is not known.
fn judge_all(
    rt: &impl Print,
    from: &mut impl Read,
    input: &mut [u8],
    output: &mut [u8],
) -> Result<(), Failure>
    requires { length input.old * 3 ≤ length output.old }
{
    let mut state = Unfinished::new();
    // Nothing says that an input ends, and a proved loop has to: it has more turns than any run uses up.
    for _ in 0..u64::MAX {
        let n = stdio::read(from, input)?;
        if n == 0 {
            break;
        }
        let done = judge(state, &input[..n], output);
        stdio::write_all(rt, &output[..done.written])?;
        state = done.state;
    }
    if let Some(answer) = judging::finish(state) {
        stdio::write_all(rt, &answer)?;
    }
    Ok(())
}

// The two buffers have 56 KiB together.
fn main(rt: HostRuntime) {
    let mut input = [0u8; 14336];
    let mut output = [0u8; 43008];
    let mut from = rt.stdin();
    stdio::end(
        &rt,
        "sheet",
        judge_all(&rt, &mut from, &mut input, &mut output),
    );
}
