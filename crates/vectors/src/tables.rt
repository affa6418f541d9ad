// Compares the rows of one table, which is read in parts.
use crate::rows::{Line, Row};
use crate::tally::{Finding, Tally};
use std::fs;
use std::io::Read;
use std::rt::Files;
use stdio::Failure;

// A proved loop has to end: no table has so many parts.
const MOST_PARTS: u64 = 1000000;

// The counts of a whole table, if it can be read to its end.
pub(crate) fn compare<F: Fn(Row) -> Finding>(
    rt: &impl Files,
    name: &'static str,
    compare_row: F,
) -> Result<Tally, Failure>
    requires { F.IsAlwaysCallable compare_row }
{
    let mut file = fs::open(rt, name).map_err(|_| Failure::Read(name))?;
    let mut tally = Tally::of_file();
    let mut line = Line::new();
    let mut buffer = [0u8; 4096];
    for _ in 0..MOST_PARTS {
        let n = file.read(&mut buffer).map_err(|_| Failure::Read(name))?;
        if n == 0 {
            // A last line without a newline counts if it has bytes.
            if line != Line::new() {
                count(&mut tally, line, &compare_row);
            }
            return Ok(tally);
        }
        // Not by `request_lines`, which reads standard input and writes an answer to each line: a table is a file, and its lines are counted.
        for &byte in &buffer[..n] {
            if byte == b'\n' {
                count(&mut tally, line, &compare_row);
                line = Line::new();
            } else {
                line.take(byte);
            }
        }
    }
    Err(Failure::Read(name))
}

// A row that cannot be read differs, and a comment is none.
fn count<F: Fn(Row) -> Finding>(tally: &mut Tally, line: Line, compare_row: &F)
    requires { F.IsAlwaysCallable compare_row.now }
{
    if !line.is_comment() {
        tally.add(line.row().map_or(Finding::Differs, compare_row));
    }
}
