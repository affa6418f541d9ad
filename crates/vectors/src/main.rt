// Runs the proved functions on the tables of data/, which other programs computed, and compares every row.
#![tactic(auto)]

mod dates;
mod easters;
mod files;
mod hebrew_years;
mod rows;
mod tables;
mod tally;
mod weekday_rows;

use printing::Output;

fn main(rt: HostRuntime) {
    let mut buffer = [0u8; 4096];
    let mut out = Output::new(&rt, &mut buffer);
    stdio::end(&rt, "vectors", files::compare_all(&rt, &mut out));
}
