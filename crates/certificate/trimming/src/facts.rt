//! The lines by whose facts a line gives its own, or a rule what it gives.

use crate::picks::class_below;
use crate::sameness::Sameness;
use algebra::{ClassId, Expr, LineId};
use derivation::{Line, Step};
use logs::Log;
use props::given::gives;
use props::{Fact, Facts, KnownClasses};
use query::ids::id_of;
use rules::{Match, MatchedLine};
use std::alloc::{AllocError, Global};
use values::Fault;

/// A line that gives a fact, with the class that stands for all that are the same as its own.
#[derive(Clone, Copy, Drop)]
struct FactLine {
    root: ClassId,
    line: LineId,
}

/// A line that gives a fact of a class.
#[derive(Clone, Copy, Drop)]
pub(crate) struct Ground {
    pub line: LineId,
    pub class: ClassId,
}

/// What may rest on facts.
#[derive(Clone, Copy)]
pub(crate) enum Claim<'a> {
    /// A class has a fact, by a line of it with this expression.
    Fact {
        class: ClassId,
        expr: &'a Expr,
        fact: &'a Fact,
    },
    /// A rule gives something of some lines.
    Step(&'a Step),
}

/// The lines of a log that give facts.
#[derive(Drop)]
pub(crate) struct GivenFacts {
    /// By their classes, and of one class in the order of the log.
    given: Vec<FactLine>,
    /// For each class the place of what is known of it among facts that are tried; 0, at which nothing is known, but where they are.
    places: Vec<u32>,
}

/// What a line gives, if it gives a fact.
fn given_at<'a>(log: &'a Log<'_>, line: LineId) -> Option<(ClassId, &'a Fact)> {
    match log.lines().get(line as usize) {
        Some(Line::Gives(class, _, fact)) => Some((*class, fact)),
        _ => None,
    }
}

/// Adds a class, unless it is there.
fn add_class(class: ClassId, classes: &mut Vec<ClassId>) -> Result<(), AllocError> {
    if !classes.as_slice().contains(&class) {
        classes.push(class)?;
    }
    Ok(())
}

/// Adds the classes that an expression takes.
fn add_inputs(expr: &Expr, classes: &mut Vec<ClassId>) -> Result<(), AllocError> {
    let (left, right) = expr.children();
    for class in left.into_iter().chain(right) {
        add_class(class, classes)?;
    }
    Ok(())
}

/// The lines to which a rule is applied, each below the first of the class that the rule takes there.
fn matched_lines<'a>(
    alloc: Global,
    log: &'a Log<'_>,
    step: &Step,
) -> Result<Vec<MatchedLine<'a>>, AllocError> {
    let mut lines: Vec<MatchedLine<'a>> = Vec::new(alloc);
    let mut taken = None;
    for (place, line) in step.uses.as_slice().iter().enumerate() {
        if let Some(member) = log.member(*line) {
            lines.push(MatchedLine {
                class: taken.unwrap_or(member.class),
                expr: member.expr,
            })?;
            taken = class_below(step, place, member.expr);
        }
    }
    Ok(lines)
}

impl Claim<'_> {
    /// The classes on whose facts it may rest: each once.
    fn classes(self, alloc: Global, log: &Log<'_>) -> Result<Vec<ClassId>, AllocError> {
        let mut classes = Vec::new(alloc);
        match self {
            Claim::Fact { class, expr, .. } => {
                add_class(class, &mut classes)?;
                add_inputs(expr, &mut classes)?;
            }
            Claim::Step(step) => {
                for line in step.uses.as_slice() {
                    if let Some(member) = log.member(*line) {
                        add_inputs(member.expr, &mut classes)?;
                    }
                }
            }
        }
        Ok(classes)
    }

    /// Whether it is so by what is known of classes.
    fn holds(
        self,
        alloc: Global,
        log: &Log<'_>,
        known: KnownClasses<'_>,
    ) -> Result<bool, AllocError> {
        match self {
            Claim::Fact { class, expr, fact } => {
                Ok(gives(log.instances(), known, class, expr, fact))
            }
            Claim::Step(step) => {
                let lines = matched_lines(alloc, log, step)?;
                let at = Match {
                    lines: lines.as_slice(),
                    pick: step.pick,
                    classes: known,
                };
                match step.rule.apply(alloc, at) {
                    Ok(_) => Ok(true),
                    Err(Fault::Refused(_)) => Ok(false),
                    Err(Fault::Memory) => Err(AllocError),
                }
            }
        }
    }
}

/// Facts by the places of their classes; nothing at the first.
fn no_facts(alloc: Global, classes: usize) -> Result<Vec<Facts>, AllocError> {
    let mut facts = Vec::new(alloc);
    for _ in 0..=classes {
        facts.push(Facts::none())?;
    }
    Ok(facts)
}

impl GivenFacts {
    pub(crate) fn of(alloc: Global, log: &Log<'_>) -> Result<GivenFacts, AllocError> {
        let classes = log.classes();
        let mut given = Vec::new(alloc);
        for (place, line) in log.lines().iter().enumerate() {
            if let Line::Gives(class, _, _) = line {
                given.push(FactLine {
                    root: classes.root(*class),
                    line: id_of(place)?,
                })?;
            }
        }
        given.sort_unstable_by_key(|given| (given.root, given.line));
        let places = Vec::from_elem(alloc, 0, log.len())?;
        Ok(GivenFacts { given, places })
    }

    /// The lines that give facts of classes that are the same in the end.
    fn of_root(&self, root: ClassId) -> &[FactLine] {
        let given = self.given.as_slice();
        let first = given.partition_point(|given| given.root < root);
        let last = given.partition_point(|given| given.root <= root);
        given.get(first..last).unwrap_or(&[])
    }

    /// Adds the lines before one that gave facts of a class or of those that were the same.
    fn add_grounds(
        &self,
        log: &Log<'_>,
        sameness: &Sameness,
        class: ClassId,
        before: LineId,
        grounds: &mut Vec<Ground>,
    ) -> Result<(), AllocError> {
        for given in self.of_root(log.classes().root(class)) {
            if let Some((own, _)) = given_at(log, given.line) {
                if given.line < before && sameness.were_same(own, class, before) {
                    grounds.push(Ground {
                        line: given.line,
                        class,
                    })?;
                }
            }
        }
        Ok(())
    }

    /// Says at which places facts of these classes are, from the first on.
    fn place(&mut self, classes: &[ClassId]) {
        let mut next = 0_u32;
        for class in classes {
            next = next.saturating_add(1);
            if let Some(place) = self.places.get_mut(*class as usize) {
                *place = next;
            }
        }
    }

    fn unplace(&mut self, classes: &[ClassId]) {
        for class in classes {
            if let Some(place) = self.places.get_mut(*class as usize) {
                *place = 0;
            }
        }
    }

    /// Adds the fact of a line to those that are tried.
    fn try_fact(
        &self,
        alloc: Global,
        log: &Log<'_>,
        ground: Ground,
        facts: &mut [Facts],
    ) -> Result<(), AllocError> {
        let place = self.places.get(ground.class as usize).copied().unwrap_or(0);
        if let Some((_, fact)) = given_at(log, ground.line) {
            if let Some(facts) = facts.get_mut(place as usize) {
                facts.learn(alloc, fact)?;
            }
        }
        Ok(())
    }

    /// Whether a claim holds where no other facts than these are known.
    fn holds(
        &self,
        alloc: Global,
        log: &Log<'_>,
        claim: Claim<'_>,
        facts: &[Facts],
    ) -> Result<bool, AllocError> {
        let known = KnownClasses {
            columns: log.classes().columns,
            sets: self.places.as_slice(),
            roots: &[],
            facts,
        };
        claim.holds(alloc, log, known)
    }

    /// How many of the grounds, from the first on, a claim needs beside others; none where it holds without them, or not with all.
    fn needed_count(
        &self,
        alloc: Global,
        log: &Log<'_>,
        claim: Claim<'_>,
        grounds: &[Ground],
        others: &[Ground],
        classes: usize,
    ) -> Result<usize, AllocError> {
        let mut facts = no_facts(alloc, classes)?;
        for ground in others {
            self.try_fact(alloc, log, *ground, facts.as_mut_slice())?;
        }
        if self.holds(alloc, log, claim, facts.as_slice())? {
            return Ok(0);
        }
        for (place, ground) in grounds.iter().enumerate() {
            self.try_fact(alloc, log, *ground, facts.as_mut_slice())?;
            if self.holds(alloc, log, claim, facts.as_slice())? {
                return Ok(place.saturating_add(1));
            }
        }
        Ok(0)
    }

    /// The grounds, given before a line, by which a claim of it holds, none of which can be left out, and as early ones as there are.
    pub(crate) fn grounds(
        &mut self,
        alloc: Global,
        log: &Log<'_>,
        sameness: &Sameness,
        claim: Claim<'_>,
        line: LineId,
    ) -> Result<Vec<Ground>, AllocError> {
        let classes = claim.classes(alloc, log)?;
        let mut grounds = Vec::new(alloc);
        for class in &classes {
            self.add_grounds(log, sameness, *class, line, &mut grounds)?;
        }
        grounds.sort_unstable_by_key(|ground| (ground.line, ground.class));
        self.place(classes.as_slice());
        let mut needed = Vec::new(alloc);
        for _ in 0..=grounds.len() {
            let count = self.needed_count(
                alloc,
                log,
                claim,
                grounds.as_slice(),
                needed.as_slice(),
                classes.len(),
            )?;
            grounds.truncate(count);
            let Some(last) = grounds.pop() else {
                break;
            };
            needed.push(last)?;
        }
        self.unplace(classes.as_slice());
        Ok(needed)
    }
}
