//! A log without what was founded for nothing. Its search founds classes freely, and some of them no rule ever takes or gives.

ghost use Rattle.std.specs.Prelude.{IfOk};
ghost use Rattle.trimming.specs.Part.{ArePart};

use crate::kept::Kept;
use crate::part::kept_lines;
use algebra::LineId;
use derivation::{Line, Step};
use logs::Log;
use query::ids::id_of;
use rules::Pattern;
use std::alloc::{AllocError, Global};
use values::Items;

/// The lines of a log that stay.
#[derive(Drop)]
struct Serving<'a, 'q> {
    alloc: Global,
    log: &'a Log<'q>,
    /// The lines before this one stay, whatever they serve.
    first: LineId,
    /// How many lines the log has.
    count: LineId,
    /// For each line whether it stays.
    stays: Vec<bool>,
}

/// Adds the lines to which a step applies its rule, and those that it makes.
fn add_cited(step: &Step, lines: &mut Vec<LineId>) -> Result<(), AllocError> {
    lines.extend_from_slice(step.uses.as_slice())?;
    lines.extend_from_slice(step.makes.as_slice())?;
    Ok(())
}

/// Adds what a step names: the lines that it cites, and the class that it picks, if its rule takes one.
fn add_step(step: &Step, lines: &mut Vec<LineId>) -> Result<(), AllocError> {
    add_cited(step, lines)?;
    match step.rule.pattern() {
        Pattern::ClassLine(_) => lines.push(step.pick)?,
        Pattern::One(_) | Pattern::Two(_, _) | Pattern::Three(_, _, _) => {}
        Pattern::Subquery | Pattern::SubqueryLine(_) => {}
    }
    Ok(())
}

/// The lines that the step of a line cites, if it is there by a rule.
fn cited_lines(alloc: Global, line: &Line) -> Result<Vec<LineId>, AllocError> {
    let mut lines = Vec::new(alloc);
    match line {
        Line::Adds(_, step, _) | Line::Unites(_, _, step) => add_cited(step.get(), &mut lines)?,
        Line::Founds(_) | Line::Alike(_, _) | Line::Gives(_, _, _) => {}
    }
    Ok(lines)
}

/// The lines that a line names, and of each class that it names the one that founds it.
fn named_lines(alloc: Global, line: &Line) -> Result<Vec<LineId>, AllocError> {
    match line {
        Line::Founds(expr) => expr.inputs(alloc),
        Line::Adds(class, step, expr) => {
            let mut lines = expr.inputs(alloc)?;
            lines.push(*class)?;
            add_step(step.get(), &mut lines)?;
            Ok(lines)
        }
        Line::Unites(first, second, step) => {
            let mut lines = Vec::from_slice(alloc, &[*first, *second])?;
            add_step(step.get(), &mut lines)?;
            Ok(lines)
        }
        Line::Alike(first, second) => Vec::from_slice(alloc, &[*first, *second]),
        Line::Gives(class, member, _) => Vec::from_slice(alloc, &[*class, *member]),
    }
}

impl<'a, 'q> Serving<'a, 'q> {
    /// All lines of a log, of which so many from the first on stay.
    fn all(alloc: Global, log: &'a Log<'q>, first: usize) -> Result<Serving<'a, 'q>, AllocError> {
        Ok(Serving {
            alloc,
            log,
            first: id_of(first)?,
            count: id_of(log.len())?,
            stays: Vec::from_elem(alloc, true, log.len())?,
        })
    }

    /// The line of a number, if it stays.
    fn line(&self, number: LineId) -> Option<&'a Line> {
        match self.stays.get(number as usize) {
            Some(true) => self.log.lines().get(number as usize),
            _ => None,
        }
    }

    fn leave_out(&mut self, number: LineId) {
        if let Some(stays) = self.stays.get_mut(number as usize) {
            *stays = false;
        }
    }

    /// Leaves out the lines that found what no later line cites that stays by a rule. Whether there was one.
    fn leave_out_idle(&mut self) -> Result<bool, AllocError> {
        let mut cited = Vec::from_elem(self.alloc, false, self.log.len())?;
        let mut found = false;
        for number in (self.first..self.count).rev() {
            match self.line(number) {
                None => {}
                Some(Line::Founds(_)) => {
                    if cited.get(number as usize) == Some(&false) {
                        self.leave_out(number);
                        found = true;
                    }
                }
                Some(line) => {
                    for earlier in &cited_lines(self.alloc, line)? {
                        if let Some(is_cited) = cited.get_mut(*earlier as usize) {
                            *is_cited = true;
                        }
                    }
                }
            }
        }
        Ok(found)
    }

    /// Whether a line names one that was left out.
    fn names_missing(&self, line: &Line) -> Result<bool, AllocError> {
        for named in &named_lines(self.alloc, line)? {
            if self.stays.get(*named as usize) == Some(&false) {
                return Ok(true);
            }
        }
        Ok(false)
    }

    /// Leaves out the lines that name one that was left out. Whether there was one.
    fn leave_out_naming(&mut self) -> Result<bool, AllocError> {
        let mut found = false;
        for number in self.first..self.count {
            if let Some(line) = self.line(number) {
                if self.names_missing(line)? {
                    self.leave_out(number);
                    found = true;
                }
            }
        }
        Ok(found)
    }
}

/// The lines of a log, in their order and numbered anew, without those that serve no rule: so many from the first on stay; of the others each is left
/// out that founds what no later line cites that stays by a rule, among those to which the rule is applied or those with the inner expressions of
/// what it gives; and so is each that names a line or a class that is left out. Where none is, they are the log's lines. It goes through the log
/// twice a round, and each round but the last leaves a line out by which the one before cited what is idle now.
pub fn serving_lines(alloc: Global, log: &Log<'_>, first: usize) -> Result<Items<Line>, AllocError>
    ensures { IfOk result (ArePart log.now.log) }
{
    let mut serving = Serving::all(alloc, log, first)?;
    for _ in 0..log.len() {
        if !serving.leave_out_idle()? || !serving.leave_out_naming()? {
            break;
        }
    }
    let kept = Kept::of(alloc, log.len(), serving.stays.as_slice())?;
    kept_lines(alloc, &kept, log)
}
