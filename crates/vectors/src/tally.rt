// What comparing a row finds, and the counts over the rows. They wrap only past 2^64 rows.
use std::fmt;

#[derive(Clone, Copy, Debug, PartialEq, Eq)]
pub(crate) enum Finding {
    Agrees,
    // The row agrees as far as it can be compared.
    AgreesInPart,
    Differs,
}

impl Finding {
    pub(crate) fn agrees_if(is_so: bool) -> Finding {
        if is_so {
            Finding::Agrees
        } else {
            Finding::Differs
        }
    }
}

#[derive(Clone, Copy, Debug, Default, PartialEq, Eq)]
pub(crate) struct Tally {
    pub(crate) files: u64,
    rows: u64,
    pub(crate) in_part: u64,
    differing: u64,
}

impl Tally {
    // The counts of a file of which no row is read yet.
    pub(crate) fn of_file() -> Tally {
        Tally {
            files: 1,
            ..Tally::default()
        }
    }

    // Counts one row more.
    pub(crate) fn add(&mut self, finding: Finding) {
        self.rows = self.rows.wrapping_add(1);
        match finding {
            Finding::Agrees => {}
            Finding::AgreesInPart => self.in_part = self.in_part.wrapping_add(1),
            Finding::Differs => self.differing = self.differing.wrapping_add(1),
        }
    }

    // Counts the files and rows of another more.
    pub(crate) fn include(&mut self, other: Tally) {
        self.files = self.files.wrapping_add(other.files);
        self.rows = self.rows.wrapping_add(other.rows);
        self.in_part = self.in_part.wrapping_add(other.in_part);
        self.differing = self.differing.wrapping_add(other.differing);
    }
}

impl fmt::Display for Tally {
    fn fmt<W: fmt::Write>(&self, f: &mut fmt::Formatter<W>) -> fmt::Result {
        write!(f, "{} rows compared, {} differ", self.rows, self.differing)
    }
}
