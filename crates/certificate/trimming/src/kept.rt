//! The lines that are kept, and their new numbers.

ghost use Rattle.std.specs.Prelude.{◌≡◌, IfOk};
ghost use Rattle.trimming.specs.Kept as spec;

use algebra::LineId;
use query::ids::id_of;
use std::alloc::{AllocError, Global};

/// The lines of a log that are kept.
#[derive(Drop)]
pub(crate) struct Kept {
    /// Their numbers in the log, rising.
    pub lines: Vec<LineId>,
    /// For each line of the log how many before it are kept. This is its new number, if it is kept.
    pub numbers: Vec<LineId>,
}

impl Kept {
    /// Those of so many lines that are marked.
    pub(crate) fn of(alloc: Global, count: usize, marks: &[bool]) -> Result<Kept, AllocError>
        ensures { IfOk result (λ kept. spec.IsKept count kept.lines.items (spec.number_in kept.numbers.items)) }
    {
        let mut lines = Vec::new(alloc);
        let mut numbers = Vec::with_capacity(alloc, count)?;
        for line in 0..count {
            numbers.push(id_of(lines.len())?)?;
            if marks.get(line) == Some(&true) {
                lines.push(id_of(line)?)?;
            }
        }
        Ok(Kept { lines, numbers })
    }

    /// The new number of a line.
    pub(crate) fn number(&self, line: LineId) -> LineId
        ensures { result ≡ spec.number_in self.now.numbers.items line }
    {
        match self.numbers.get(line as usize) {
            Some(number) => *number,
            None => 0,
        }
    }
}
