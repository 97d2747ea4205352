//! Lines by their expressions, up to which classes are the same.

use crate::groups::Groups;
use crate::keys::{ConditionNumbers, Key, Operation, operation_of};
use algebra::{ClassId, LineId};
use derivation::Line;
use indexmap::IndexMap;
use lean_logs::Member;
use logs::Log;
use query::ids::id_of;
use std::alloc::{AllocError, Global};

/// Two lines that have one expression up to which classes are the same.
#[derive(Clone, Copy, Drop)]
pub(crate) struct Congruence {
    pub first: LineId,
    pub second: LineId,
}

/// The lines of a log by their expressions, up to which classes are the same.
pub(crate) struct CongruentLines {
    groups: Groups,
    conditions: ConditionNumbers,
    /// For each expression, with the groups of its classes, a line that has it. Keys with a group that went over to another are never asked
    /// for again.
    lines: IndexMap<Key, LineId>,
    /// Lines that have one expression so, and are perhaps not of one class yet.
    pairs: Vec<Congruence>,
}

// By hand, so that where it is dropped is one call.
impl Drop for CongruentLines {
    fn drop(self) {
        let CongruentLines {
            groups: _,
            conditions: _,
            lines: _,
            pairs: _,
        } = self;
    }
}

/// What a line says of classes.
#[derive(Clone, Copy)]
enum Said {
    /// It has an expression of one.
    Member,
    /// These two are the same.
    Same(ClassId, ClassId),
    /// Something of a class.
    Fact(ClassId),
    Nothing,
}

/// The class of a line; the line itself where it has no expression.
fn class_at(log: &Log<'_>, line: LineId) -> ClassId {
    match log.member(line) {
        Some(member) => member.class,
        None => line,
    }
}

fn said_by(log: &Log<'_>, line: LineId) -> Said {
    match log.lines().get(line as usize) {
        Some(Line::Founds(_) | Line::Adds(_, _, _)) => Said::Member,
        Some(Line::Unites(first, second, _)) => Said::Same(*first, *second),
        Some(Line::Alike(first, second)) => {
            Said::Same(class_at(log, *first), class_at(log, *second))
        }
        Some(Line::Gives(class, _, _)) => Said::Fact(*class),
        None => Said::Nothing,
    }
}

impl CongruentLines {
    pub(crate) fn none(alloc: Global) -> CongruentLines {
        CongruentLines {
            groups: Groups::none(alloc),
            conditions: ConditionNumbers::none(alloc),
            lines: IndexMap::new(alloc),
            pairs: Vec::new(alloc),
        }
    }

    /// Enters the lines that were added to the log since the last time.
    pub(crate) fn enter_new(&mut self, alloc: Global, log: &Log<'_>) -> Result<(), AllocError> {
        for line in self.groups.count()..log.len() {
            self.enter(alloc, log, id_of(line)?)?;
        }
        Ok(())
    }

    /// Enters the next line of the log.
    fn enter(&mut self, alloc: Global, log: &Log<'_>, line: LineId) -> Result<(), AllocError> {
        self.groups.add()?;
        match said_by(log, line) {
            Said::Member => self.enter_member(alloc, log, line),
            Said::Same(first, second) => self.unite(alloc, log, first, second),
            Said::Fact(class) => {
                self.groups.note_change(class);
                Ok(())
            }
            Said::Nothing => Ok(()),
        }
    }

    /// Enters a line that has an expression.
    fn enter_member(
        &mut self,
        alloc: Global,
        log: &Log<'_>,
        line: LineId,
    ) -> Result<(), AllocError> {
        if let Some(member) = log.member(line) {
            for class in &member.expr.inputs(alloc)? {
                self.groups.add_parent(*class, line)?;
            }
            self.enter_operation(alloc, operation_of(member.expr), line)?;
        }
        Ok(())
    }

    /// Enters a line by what its expression does, unless another one does the same: then the two are a pair.
    fn enter_operation(
        &mut self,
        alloc: Global,
        operation: Operation<'_>,
        line: LineId,
    ) -> Result<(), AllocError> {
        let key = self
            .conditions
            .congruent_key(alloc, operation, &self.groups)?;
        match self.lines.get(&key).copied() {
            Some(other) => self.pairs.push(Congruence {
                first: other.min(line),
                second: other.max(line),
            })?,
            None => {
                self.lines.insert(key, line)?;
            }
        }
        Ok(())
    }

    /// Makes the groups of two classes one, and enters again the lines over classes whose group changes.
    fn unite(
        &mut self,
        alloc: Global,
        log: &Log<'_>,
        first: ClassId,
        second: ClassId,
    ) -> Result<(), AllocError> {
        for line in &self.groups.unite(first, second)? {
            if let Some(member) = log.member(*line) {
                self.enter_operation(alloc, operation_of(member.expr), *line)?;
            }
        }
        Ok(())
    }

    /// Two lines with one expression, which aren't asked for again.
    pub(crate) fn pop(&mut self) -> Option<Congruence> {
        self.pairs.pop()
    }

    /// A line with the expression that does this.
    pub(crate) fn look_up(
        &mut self,
        alloc: Global,
        log: &Log<'_>,
        operation: Operation<'_>,
    ) -> Result<Option<Member>, AllocError> {
        let key = self.conditions.lent_key(alloc, operation, &self.groups)?;
        match self.lines.get(key).copied() {
            Some(line) => Ok(
                log.member(line).map(|member| Member {
                    line,
                    class: member.class,
                }),
            ),
            None => Ok(None),
        }
    }

    /// The lines whose expressions have the class, or one that is the same, as an input or in a condition: each once, rising.
    pub(crate) fn parents(&self, class: ClassId) -> Result<Vec<LineId>, AllocError> {
        self.groups.parents(class)
    }

    /// How many lines there were when something became known last of the class, or of one that is the same.
    pub(crate) fn changed_at(&self, class: ClassId) -> usize {
        self.groups.changed_at(class)
    }
}
