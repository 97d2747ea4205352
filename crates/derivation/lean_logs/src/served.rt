//! Lines come into a log of which each that founds something serves a later one.

ghost use Rattle.std.specs.Prelude.{◌≡◌, ℕ, true, false, IfOk};
ghost use Rattle.logs.specs.Logged.{Logged};
ghost use Rattle.algebra.specs.Columns.{has};
ghost use Rattle.bindings.specs.Founding.{founds_something};
ghost use Rattle.bindings.specs.Lean.{named_by};
ghost use Rattle.lean_logs.specs.Growth.{Extends, IsServed, IsServedBut};

use crate::lean_log::LeanLog;
use algebra::LineId;
use derivation::Line;
use std::alloc::{AllocError, Global};

fn founds_something(line: &Line) -> bool
    ensures { result ≡ founds_something line.now }
{
    match line {
        Line::Founds(_) => true,
        Line::Adds(_, _, _) | Line::Unites(_, _, _) | Line::Alike(_, _) | Line::Gives(_, _, _) => {
            false
        }
    }
}

fn is_among(numbers: &[LineId], number: LineId) -> bool
    ensures { result ≡ has numbers.now number }
{
    numbers.iter().any(|other| *other == number)
}

/// Whether a line's result is of the line of this number, or is made of it.
fn names(line: &Line, number: LineId) -> bool
    ensures { result ≡ true → has (named_by line.now) number ≡ true }
{
    match line {
        Line::Adds(_, step, _) | Line::Unites(_, _, step) => {
            let step = step.get();
            is_among(step.uses.as_slice(), number) || is_among(step.makes.as_slice(), number)
        }
        Line::Founds(_) | Line::Alike(_, _) | Line::Gives(_, _, _) => false,
    }
}

/// Of lines that wait for one that names them those that a line doesn't name.
fn left_by(alloc: Global, waiting: &[LineId], line: &Line) -> Result<Vec<LineId>, AllocError>
    ensures { IfOk result (λ left. (n : ℕ) → has waiting.now n ≡ true → has (named_by line.now) n ≡ false → has left.items n ≡ true) }
{
    let mut left = Vec::new(alloc);
    for number in waiting {
        if !names(line, *number) {
            left.push(*number)?;
        }
    }
    Ok(left)
}

impl<'q> LeanLog<'q> {
    /// Adds a line to fewer than so many, if it may stand and says something new; whether it is added. Of the lines that wait for one that names them
    /// those stay that still do.
    fn append_to(
        &mut self,
        alloc: Global,
        limit: usize,
        line: Line,
        waiting: &mut Vec<LineId>,
    ) -> Result<bool, AllocError>
        ensures extends { Extends limit self.old self.new }
        ensures served { IfOk result (λ added. added ≡ true → (log : Logged) → IsServedBut waiting.old.items log self.old → IsServedBut waiting.new.items log self.new) }
    {
        *waiting = left_by(alloc, waiting.as_slice(), &line)?;
        let founds = founds_something(&line);
        let Some(number) = self.append(alloc, limit, line)? else {
            return Ok(false);
        };
        if founds {
            waiting.push(number)?;
        }
        Ok(true)
    }

    /// Adds lines to fewer than so many. Whether all may stand and say something new, and each that founds something serves a later one: it is named by
    /// the step of that, as a line that the rule is applied to or as one that its result is made of.
    pub fn append_served(
        &mut self,
        alloc: Global,
        limit: usize,
        lines: &[Line],
    ) -> Result<bool, AllocError>
        ensures extends { Extends limit self.old self.new }
        ensures served { IfOk result (λ all. all ≡ true → IsServed self.old self.new) }
    {
        let mut waiting = Vec::new(alloc);
        for line in lines {
            if !self.append_to(alloc, limit, line.copy(alloc)?, &mut waiting)? {
                return Ok(false);
            }
        }
        Ok(waiting.as_slice().is_empty())
    }
}
