// The tables of data/, each with a line of what was found, and the sum of all.
use crate::rows::Row;
use crate::tally::{Finding, Tally};
use crate::{dates, easters, hebrew_years, tables, weekday_rows};
use std::io::Write;
use std::rt::Files;
use stdio::Failure;

const DATES: [&str; 17] = [
    "01_egyptian.tsv",
    "02_armenian.tsv",
    "03_khwarizmian.tsv",
    "04_persian.tsv",
    "05_ethiopian.tsv",
    "06_coptic.tsv",
    "07_republican.tsv",
    "08_macedonian.tsv",
    "09_syrian.tsv",
    "10_julian.tsv",
    "11_gregorian.tsv",
    "12_islamic_a.tsv",
    "13_islamic_b.tsv",
    "14_bahai.tsv",
    "15_saka.tsv",
    "18_hebrew.tsv",
    "18_hebrew_hard_year_starts.tsv",
];

pub(crate) fn compare_all(rt: &impl Files, out: &mut impl Write) -> Result<(), Failure> {
    writeln!(
        out,
        "Rows that other programs computed, dates in both directions"
    )?;
    let mut all = Tally::default();
    for name in DATES {
        all.include(compare_file(rt, out, name, dates::compare)?);
    }
    all.include(compare_file(rt, out, "hebrew_year_lengths.tsv", hebrew_years::compare)?);
    all.include(compare_file(rt, out, "easter_ncal.tsv", easters::compare)?);
    all.include(compare_file(rt, out, "weekdays.tsv", weekday_rows::compare)?);
    writeln!(out, "{} files: {all}", all.files)?;
    out.flush()?;
    Ok(())
}

// The counts of one file. What was found before it is written even where it cannot be read.
fn compare_file<F: Fn(Row) -> Finding>(
    rt: &impl Files,
    out: &mut impl Write,
    name: &'static str,
    compare: F,
) -> Result<Tally, Failure>
    requires { F.IsAlwaysCallable compare }
{
    out.flush()?;
    let found = tables::compare(rt, name, compare)?;
    writeln!(out, "{name}: {found}")?;
    if 0 < found.in_part {
        writeln!(
            out,
            "  of these, {} years by their positions alone: the next year begins past the last day number",
            found.in_part
        )?;
    }
    Ok(found)
}
