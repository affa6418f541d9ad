// Runs the proved functions on the worked examples of docs/RULES.md and on inputs that are refused, and writes the answers.
#![tactic(auto)]

mod answers;
mod examples;
mod limits;
mod questions;

use printing::Output;
use std::io::Write;
use stdio::Failure;

fn show_all(out: &mut impl Write) -> Result<(), Failure> {
    examples::show_all(out)?;
    limits::show_all(out)?;
    out.flush()?;
    Ok(())
}

fn main(rt: HostRuntime) {
    let mut buffer = [0u8; 4096];
    let mut out = Output::new(&rt, &mut buffer);
    stdio::end(&rt, "worked_answers", show_all(&mut out));
}
