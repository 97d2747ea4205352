//! The lines of a log that others need.

use crate::facts::{Claim, GivenFacts, Ground};
use crate::picks::class_below;
use crate::sameness::{Sameness, class_at};
use algebra::{ClassId, Expr, LineId};
use derivation::{Line, Step};
use logs::Log;
use props::Fact;
use std::alloc::{AllocError, Global};

/// The lines of a log that are known to be needed.
#[derive(Drop)]
pub(crate) struct Needed<'a, 'q> {
    alloc: Global,
    log: &'a Log<'q>,
    sameness: Sameness,
    facts: GivenFacts,
    /// For each line whether it is needed.
    marks: Vec<bool>,
    /// Needed lines of which it wasn't asked yet which others they need: each line stands here once at most.
    pending: Vec<LineId>,
    /// For each class whether it is known to be counted.
    counted: Vec<bool>,
    /// Counted classes of which it wasn't asked yet by which others they are: each class stands here once at most.
    uncounted: Vec<ClassId>,
}

/// The class that an expression takes first.
fn first_input(expr: &Expr) -> Option<ClassId> {
    let (first, _) = expr.children();
    first
}

/// The classes whose rows count in the estimate of an expression's.
fn counted_inputs(expr: &Expr) -> (Option<ClassId>, Option<ClassId>) {
    match expr {
        Expr::Semi(_, left, _) | Expr::Anti(_, _, left, _) => (Some(*left), None),
        Expr::Get(_)
        | Expr::Select(_, _)
        | Expr::Join(_, _, _)
        | Expr::LeftJoin(_, _, _)
        | Expr::Keep(_, _)
        | Expr::Distinct(_)
        | Expr::Group(_, _, _) => expr.children(),
    }
}

/// Adds the classes that the conditions of an expression name.
fn add_named(alloc: Global, expr: &Expr, classes: &mut Vec<ClassId>) -> Result<(), AllocError> {
    let (left, right) = expr.children();
    let inputs = left.into_iter().chain(right).count();
    for class in expr.inputs(alloc)?.iter().skip(inputs) {
        classes.push(*class)?;
    }
    Ok(())
}

/// Sets the mark of a number; whether it was unset.
fn mark(marks: &mut [bool], number: u32) -> bool {
    match marks.get_mut(number as usize) {
        Some(mark) if !*mark => {
            *mark = true;
            true
        }
        _ => false,
    }
}

impl<'a, 'q> Needed<'a, 'q> {
    /// No line.
    pub(crate) fn none(alloc: Global, log: &'a Log<'q>) -> Result<Needed<'a, 'q>, AllocError> {
        Ok(Needed {
            alloc,
            log,
            sameness: Sameness::of(alloc, log)?,
            facts: GivenFacts::of(alloc, log)?,
            marks: Vec::from_elem(alloc, false, log.len())?,
            pending: Vec::new(alloc),
            counted: Vec::from_elem(alloc, false, log.len())?,
            uncounted: Vec::new(alloc),
        })
    }

    pub(crate) fn log(&self) -> &'a Log<'q> {
        self.log
    }

    /// A line is needed.
    pub(crate) fn line(&mut self, line: LineId) -> Result<(), AllocError> {
        if mark(self.marks.as_mut_slice(), line) {
            self.pending.push(line)?;
        }
        Ok(())
    }

    fn lines(&mut self, lines: &[LineId]) -> Result<(), AllocError> {
        for line in lines {
            self.line(*line)?;
        }
        Ok(())
    }

    /// It is needed that two classes are the same.
    pub(crate) fn same(&mut self, first: ClassId, second: ClassId) -> Result<(), AllocError> {
        let mut lines = Vec::new(self.alloc);
        self.sameness.give_lines(first, second, &mut lines)?;
        self.lines(lines.as_slice())
    }

    /// It is needed that a class has as many rows by estimate as in the log, where it counts by the line that founds the least class that is the
    /// same.
    pub(crate) fn count(&mut self, class: ClassId) -> Result<(), AllocError> {
        if mark(self.counted.as_mut_slice(), class) {
            self.uncounted.push(class)?;
        }
        Ok(())
    }

    /// The line by which a class counts is needed, and the estimates on which its own rests.
    fn count_one(&mut self, class: ClassId) -> Result<(), AllocError> {
        let root = self.log.classes().root(class);
        self.same(class, root)?;
        self.line(root)?;
        let Some(member) = self.log.member(root) else {
            return Ok(());
        };
        let (left, right) = counted_inputs(member.expr);
        for class in left.into_iter().chain(right) {
            self.count(class)?;
        }
        Ok(())
    }

    /// The classes that an expression names are founded.
    fn inputs(&mut self, expr: &Expr) -> Result<(), AllocError> {
        let classes = expr.inputs(self.alloc)?;
        self.lines(classes.as_slice())
    }

    /// Each of a step's lines but the first is of the class that the rule takes there.
    fn each_below(&mut self, step: &Step) -> Result<(), AllocError> {
        let uses = step.uses.as_slice();
        for (place, (top, below)) in uses.iter().zip(uses.iter().skip(1)).enumerate() {
            if let Some(member) = self.log.member(*top) {
                if let Some(input) = class_below(step, place, member.expr) {
                    self.same(input, class_at(self.log, *below))?;
                }
            }
        }
        Ok(())
    }

    /// The fact that a line gives is known of a class.
    fn fact(&mut self, ground: Ground) -> Result<(), AllocError> {
        if let Some(Line::Gives(own, _, _)) = self.log.lines().get(ground.line as usize) {
            self.same(*own, ground.class)?;
        }
        self.line(ground.line)
    }

    /// The facts on which a claim of a line rests.
    fn claim(&mut self, claim: Claim<'_>, line: LineId) -> Result<(), AllocError> {
        let grounds = self
            .facts
            .grounds(self.alloc, self.log, &self.sameness, claim, line)?;
        for ground in &grounds {
            self.fact(*ground)?;
        }
        Ok(())
    }

    /// The class that the first of some lines takes first.
    fn input_of_first(&self, uses: &[LineId]) -> Option<ClassId> {
        let member = self.log.member(*uses.first()?)?;
        first_input(member.expr)
    }

    /// What a step of a class needs that stands in a line.
    fn step(&mut self, class: ClassId, step: &Step, line: LineId) -> Result<(), AllocError> {
        let uses = step.uses.as_slice();
        self.lines(uses)?;
        self.lines(step.makes.as_slice())?;
        if let Some(first) = uses.first() {
            self.same(class_at(self.log, *first), class)?;
        }
        self.each_below(step)?;
        self.claim(Claim::Step(step), line)
    }

    /// What a step gives, a class or the expression of the first line that it makes, is of a class.
    fn given_of(&mut self, step: &Step, class: ClassId) -> Result<(), AllocError> {
        let given = match step.makes.as_slice().first() {
            Some(first) => Some(class_at(self.log, *first)),
            None => self.input_of_first(step.uses.as_slice()),
        };
        match given {
            Some(given) => self.same(given, class),
            None => Ok(()),
        }
    }

    /// Of the classes those are the same that were before a line.
    fn same_among(&mut self, classes: Vec<ClassId>, line: LineId) -> Result<(), AllocError> {
        let mut sorted = Vec::with_capacity(self.alloc, classes.len())?;
        for class in &classes {
            sorted.push((self.sameness.top_before(*class, line), *class))?;
        }
        sorted.sort_unstable();
        for (one, other) in sorted.iter().zip(sorted.iter().skip(1)) {
            if one.0 == other.0 {
                self.same(one.1, other.1)?;
            }
        }
        Ok(())
    }

    /// Two lines are alike: what they take is the same, and so are those classes that their conditions name.
    fn alike(&mut self, first: LineId, second: LineId, line: LineId) -> Result<(), AllocError> {
        let (Some(one), Some(other)) = (self.log.member(first), self.log.member(second)) else {
            return Ok(());
        };
        let (left, right) = one.expr.children();
        let (other_left, other_right) = other.expr.children();
        for pair in [left.zip(other_left), right.zip(other_right)] {
            if let Some((class, same)) = pair {
                self.same(class, same)?;
            }
        }
        let mut named = Vec::new(self.alloc);
        add_named(self.alloc, one.expr, &mut named)?;
        add_named(self.alloc, other.expr, &mut named)?;
        self.same_among(named, line)
    }

    /// The facts by which a line gives its own.
    fn grounds(
        &mut self,
        class: ClassId,
        member: LineId,
        fact: &Fact,
        line: LineId,
    ) -> Result<(), AllocError> {
        let Some(found) = self.log.member(member) else {
            return Ok(());
        };
        self.same(found.class, class)?;
        let claim = Claim::Fact {
            class,
            expr: found.expr,
            fact,
        };
        self.claim(claim, line)
    }

    /// What a line needs.
    fn needs(&mut self, number: LineId) -> Result<(), AllocError> {
        match self.log.lines().get(number as usize) {
            None => Ok(()),
            Some(Line::Founds(expr)) => self.inputs(expr),
            Some(Line::Adds(class, step, expr)) => {
                self.line(*class)?;
                self.inputs(expr)?;
                self.step(*class, step.get(), number)
            }
            Some(Line::Unites(first, second, step)) => {
                self.lines(&[*first, *second])?;
                self.step(*first, step.get(), number)?;
                self.given_of(step.get(), *second)
            }
            Some(Line::Alike(first, second)) => {
                self.lines(&[*first, *second])?;
                self.alike(*first, *second, number)
            }
            Some(Line::Gives(class, member, fact)) => {
                self.lines(&[*class, *member])?;
                self.grounds(*class, *member, fact, number)
            }
        }
    }

    /// For each line whether it is needed: it was said to be, or a needed line needs it.
    pub(crate) fn into_marks(self) -> Result<Vec<bool>, AllocError> {
        let mut needed = self;
        for _ in 0..needed.log.len() {
            let Some(class) = needed.uncounted.pop() else {
                break;
            };
            needed.count_one(class)?;
        }
        for _ in 0..needed.log.len() {
            let Some(line) = needed.pending.pop() else {
                break;
            };
            needed.needs(line)?;
        }
        let Needed { marks, .. } = needed;
        Ok(marks)
    }
}
