//! What a rule gives is looked for among lines, up to which classes are the same.

use crate::congruent::CongruentLines;
use crate::keys::{Operation, Operator};
use algebra::{ClassId, Condition, LineId};
use bindings::RuleResult;
use lean_logs::Member;
use logs::Log;
use rules::Shape;
use std::alloc::{AllocError, Global};

/// An operator under conditions, whose inputs are still to be found.
fn under<'a>(
    operator: Operator<'a>,
    conditions: &'a [Condition],
    null_aware: &'a [Condition],
) -> Operation<'a> {
    Operation {
        operator,
        left: None,
        right: None,
        conditions,
        null_aware,
    }
}

impl CongruentLines {
    /// A line with the operator over the class that a shape is, if there is one.
    #[cycle(looking)]
    fn line_over(
        &mut self,
        alloc: Global,
        log: &Log<'_>,
        operation: Operation<'_>,
        input: &Shape,
    ) -> Result<Option<Member>, AllocError> {
        match self.class_there(alloc, log, input)? {
            None => Ok(None),
            left => self.look_up(alloc, log, Operation { left, ..operation }),
        }
    }

    /// A line with the operator over the classes that two shapes are, if there is one.
    #[cycle(looking)]
    fn line_over_both(
        &mut self,
        alloc: Global,
        log: &Log<'_>,
        operation: Operation<'_>,
        left: &Shape,
        right: &Shape,
    ) -> Result<Option<Member>, AllocError> {
        match self.class_there(alloc, log, right)? {
            None => Ok(None),
            right => self.line_over(alloc, log, Operation { right, ..operation }, left),
        }
    }

    /// A line with the expression that a shape is, if there is one. Nothing is added.
    #[cycle(looking)]
    fn line_there(
        &mut self,
        alloc: Global,
        log: &Log<'_>,
        shape: &Shape,
    ) -> Result<Option<Member>, AllocError> {
        match shape {
            Shape::Class(_) => Ok(None),
            Shape::Select(c, x) => {
                let operation = under(Operator::Select, c.as_slice(), &[]);
                self.line_over(alloc, log, operation, x.get())
            }
            Shape::Keep(k, x) => {
                let operation = under(Operator::Keep(k.as_slice()), &[], &[]);
                self.line_over(alloc, log, operation, x.get())
            }
            Shape::Distinct(x) => {
                let operation = under(Operator::Distinct, &[], &[]);
                self.line_over(alloc, log, operation, x.get())
            }
            Shape::Group(k, added, x) => {
                let operator = Operator::Group(k.as_slice(), added.as_slice());
                let operation = under(operator, &[], &[]);
                self.line_over(alloc, log, operation, x.get())
            }
            Shape::Join(c, a, b) => {
                let operation = under(Operator::Join, c.as_slice(), &[]);
                self.line_over_both(alloc, log, operation, a.get(), b.get())
            }
            Shape::LeftJoin(c, a, b) => {
                let operation = under(Operator::LeftJoin, c.as_slice(), &[]);
                self.line_over_both(alloc, log, operation, a.get(), b.get())
            }
            Shape::Semi(c, a, b) => {
                let operation = under(Operator::Semi, c.as_slice(), &[]);
                self.line_over_both(alloc, log, operation, a.get(), b.get())
            }
            Shape::Anti(ordinary, null_aware, a, b) => {
                let operation = under(Operator::Anti, ordinary.as_slice(), null_aware.as_slice());
                self.line_over_both(alloc, log, operation, a.get(), b.get())
            }
        }
    }

    /// The class of a shape, if it is one or a line has its expression.
    #[cycle(looking)]
    fn class_there(
        &mut self,
        alloc: Global,
        log: &Log<'_>,
        shape: &Shape,
    ) -> Result<Option<ClassId>, AllocError> {
        if let Shape::Class(class) = shape {
            return Ok(Some(*class));
        }
        match self.line_there(alloc, log, shape)? {
            Some(member) => Ok(Some(member.class)),
            None => Ok(None),
        }
    }

    /// A line of the class of a rule's result, or of one that is the same, with what the rule gives, if there is one.
    pub(crate) fn result_line(
        &mut self,
        alloc: Global,
        log: &Log<'_>,
        given: &RuleResult,
    ) -> Result<Option<LineId>, AllocError> {
        match self.line_there(alloc, log, &given.shape)? {
            Some(member) if log.are_same(member.class, given.class) => Ok(Some(member.line)),
            _ => Ok(None),
        }
    }
}
