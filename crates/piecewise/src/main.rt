// Runs the rules' example of a sheet through `judging` in pieces of each length, with small and large output buffers. Each run writes
// the example's answers; an empty input writes nothing.
#![tactic(auto)]

use carrying::Unfinished;
use stdio::Failure;

const EXAMPLE: &[u8] = b"0b1a380101256859\n0b1a38010125685a\nxyz";

// The whole input in pieces of `size` bytes, or of fewer where the output has no room for their answers.
fn run(rt: &impl Print, input: &[u8], size: usize, output: &mut [u8]) -> Result<(), Failure> {
    let mut state = Unfinished::new();
    let mut rest = input;
    while !rest.is_empty() {
        let piece = &rest[..size.min(rest.len())];
        let done = judging::judge_piece(state, piece, output);
        stdio::write_all(rt, &output[..done.written])?;
        if done.consumed == 0 {
            return Ok(());
        }
        state = done.state;
        rest = &rest[done.consumed..];
    }
    if let Some(answer) = judging::finish(state) {
        stdio::write_all(rt, &answer)?;
    }
    Ok(())
}

fn run_all(rt: &impl Print) -> Result<(), Failure> {
    let mut small = [0u8; 3];
    let mut middle = [0u8; 16];
    let mut large = [0u8; 128];
    for size in 1..40 {
        run(rt, EXAMPLE, size, &mut small)?;
        run(rt, EXAMPLE, size, &mut middle)?;
        run(rt, EXAMPLE, size, &mut large)?;
    }
    run(rt, b"", 1, &mut large)
}

fn main(rt: HostRuntime) {
    stdio::end(&rt, "piecewise", run_all(&rt));
}
