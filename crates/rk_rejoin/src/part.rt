//! How much of a record there is.

use std::fmt;

/// How much of a hall's record there is.
#[derive(Clone, Copy, Debug, PartialEq, Eq)]
pub struct Part {
    /// How many volumes.
    pub volumes: u64,
    /// How many steps they have, at most the greatest u64.
    pub steps: u64,
    /// Whether the last one closes the hall's record.
    pub closed: bool,
}

/// How much there is of each hall's record.
#[derive(Clone, Copy, Debug, PartialEq, Eq)]
pub struct Total {
    /// Of hall 0.
    pub zero: Part,
    /// Of hall 1.
    pub one: Part,
    /// Of hall 2.
    pub two: Part,
    /// Of hall 3.
    pub three: Part,
}

impl Total {
    /// Each hall, by rising number.
    fn parts(&self) -> [Part; 4] {
        [self.zero, self.one, self.two, self.three]
    }
}

/// A line for each hall, as `hall 2: 3 volumes, 17000 steps`, and the last line, as `ok, 4 halls, 68000 steps: a run of the machine, to its end`. Of a record
/// that is not closed it says that later volumes may be missing.
impl fmt::Display for Total {
    fn fmt<W: fmt::Write>(&self, f: &mut fmt::Formatter<W>) -> fmt::Result {
        let (mut halls, mut steps) = (0u64, 0u64);
        for (number, part) in self.parts().iter().enumerate() {
            if part.volumes > 0 {
                let (volumes, count) = (part.volumes, part.steps);
                writeln!(f, "hall {number}: {volumes} volumes, {count} steps")?;
                halls = halls.saturating_add(1);
                steps = steps.saturating_add(count);
            }
        }
        let end = if self.zero.closed {
            ", to its end"
        } else {
            "; later volumes may be missing"
        };
        writeln!(
            f,
            "ok, {halls} halls, {steps} steps: a run of the machine{end}"
        )
    }
}
