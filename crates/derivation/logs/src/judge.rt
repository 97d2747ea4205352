//! Whether a line may stand behind others.

ghost use Rattle.std.specs.Prelude.{◌≡◌, [], length, map, nat_lt, true, IfOk};
ghost use Rattle.values.specs.Faults.{Gives};
ghost use Rattle.values.specs.declared.fault.Fault.TheVariants.{Refused};
ghost use Rattle.algebra.specs.Columns.{is_subset};
ghost use Rattle.algebra.specs.GivenColumns.{given_columns};
ghost use Rattle.algebra.specs.Equality.{same_columns};
ghost use Rattle.algebra.specs.Expressions.{columns_of, classes_pass};
ghost use Rattle.props.specs.Facts.{fact_columns};
ghost use Rattle.props.specs.Knowledge.{known};
ghost use Rattle.rules.specs.Matches.{line_in};
ghost use Rattle.derivation.specs.declared.line.Line.TheVariants as says;
ghost use Rattle.derivation.specs.Replay as spec;
ghost use Rattle.logs.specs.Judging.{IsBehind, the_log};

use crate::alike::are_alike;
use crate::lookups::{cites, founds, is_earlier, is_known, member, members};
use crate::spelling::{is_class, is_expr};
use algebra::{Aggregation, ClassId, Expr, LineId};
use book::RuleName;
use derivation::{Line, LineReason, Step};
use props::given::gives;
use props::{Fact, KnownClasses};
use query::TableInstance;
use rules::{Match, MatchedLine, Shape, Unfit};
use std::alloc::{AllocError, Global};
use values::Fault;

pub type LineFault = Fault<LineReason>;

/// What a line is judged by: the query's table instances and aggregates, the lines before it, and what is known by them.
#[derive(Clone, Copy)]
pub struct Behind<'a> {
    pub instances: &'a [TableInstance],
    pub own: &'a [Aggregation],
    pub lines: &'a [Line],
    pub classes: KnownClasses<'a>,
}

fn refused(reason: LineReason) -> LineFault
    ensures { result ≡ Refused reason }
{
    Fault::Refused(reason)
}

/// Why a step may not be taken whose rule doesn't fit.
fn reason_of(rule: RuleName, unfit: Unfit) -> LineReason
    ensures { result ≡ spec.unfit rule unfit }
{
    match unfit {
        Unfit::Pattern => LineReason::OtherForm,
        Unfit::Condition => LineReason::FailedCondition(rule),
    }
}

/// Whether the first of the lines is of the class.
fn begins_at(lines: &[MatchedLine<'_>], classes: KnownClasses<'_>, class: ClassId) -> bool
    ensures { result ≡ spec.begins_at (known classes.entry) class (map line_in lines.now) }
{
    match lines.first() {
        Some(line) => classes.are_same(line.class, class),
        None => false,
    }
}

impl<'a> Behind<'a> {
    /// What the step's rule gives of the lines that it cites.
    fn given(self, alloc: Global, class: ClassId, step: &Step) -> Result<Shape, LineFault>
        requires { IsBehind self }
        ensures { Gives (λ s. s) result (spec.given (known self.entry.classes) (the_log self.entry) class step.now) }
    {
        let Some(lines) = members(alloc, self.lines, step.uses.as_slice())? else {
            return Err(refused(LineReason::OtherForm));
        };
        if !begins_at(lines.as_slice(), self.classes, class) {
            return Err(refused(LineReason::OtherForm));
        }
        let matched = Match {
            lines: lines.as_slice(),
            pick: step.pick,
            classes: self.classes,
        };
        match step.rule.apply(alloc, matched) {
            Ok(shape) => Ok(shape),
            Err(Fault::Memory) => Err(Fault::Memory),
            Err(Fault::Refused(unfit)) => Err(refused(reason_of(step.rule, unfit))),
        }
    }

    /// Whether an expression has the columns of a class.
    fn has_columns(self, alloc: Global, expr: &Expr, class: ClassId) -> Result<bool, AllocError>
        requires { classes_pass (λ g. nat_lt g (length self.classes.columns.columns.now)) expr.now ≡ true }
        ensures { IfOk result (λ same. same ≡ same_columns (columns_of self.entry.instances.now (given_columns self.entry.classes.columns) expr.now) (given_columns self.entry.classes.columns class)) }
    {
        let own = expr.columns(alloc, self.instances, self.classes.columns.columns)?;
        Ok(own.as_slice() == self.classes.columns.columns_of(class))
    }

    fn founds(self, alloc: Global, expr: &Expr) -> Result<(), LineFault>
        requires { IsBehind self }
        ensures { Gives (λ _. says.Founds expr.now) result (spec.judged self.entry.instances.now self.entry.own.now (known self.entry.classes) (the_log self.entry) (says.Founds expr.now)) }
    {
        if !is_known(alloc, self.lines, expr)? {
            return Err(refused(LineReason::UnknownLine));
        }
        if !expr.is_formed(self.instances, self.own, self.classes.columns.columns) {
            return Err(refused(LineReason::IllFormed));
        }
        Ok(())
    }

    fn adds(self, alloc: Global, class: ClassId, step: &Step, expr: &Expr) -> Result<(), LineFault>
        requires { IsBehind self }
        ensures { Gives (λ _. says.Adds class step.now expr.now) result (spec.judged self.entry.instances.now self.entry.own.now (known self.entry.classes) (the_log self.entry) (says.Adds class step.now expr.now)) }
    {
        if !founds(self.lines, class)
            || !cites(self.lines, step)
            || !is_known(alloc, self.lines, expr)?
        {
            return Err(refused(LineReason::UnknownLine));
        }
        if !expr.is_formed(self.instances, self.own, self.classes.columns.columns)
            || !self.has_columns(alloc, expr, class)?
        {
            return Err(refused(LineReason::IllFormed));
        }
        let shape = self.given(alloc, class, step)?;
        if !is_expr(self.lines, shape, step.makes.as_slice(), expr) {
            return Err(refused(LineReason::OtherLine));
        }
        Ok(())
    }

    fn unites(
        self,
        alloc: Global,
        first: ClassId,
        second: ClassId,
        step: &Step,
    ) -> Result<(), LineFault>
        requires { IsBehind self }
        ensures { Gives (λ _. says.Unites first second step.now) result (spec.judged self.entry.instances.now self.entry.own.now (known self.entry.classes) (the_log self.entry) (says.Unites first second step.now)) }
    {
        if !founds(self.lines, first) || !founds(self.lines, second) || !cites(self.lines, step) {
            return Err(refused(LineReason::UnknownLine));
        }
        if !self.have_same_columns(first, second) {
            return Err(refused(LineReason::IllFormed));
        }
        let shape = self.given(alloc, first, step)?;
        if !is_class(
            self.lines,
            shape,
            step.makes.as_slice(),
            self.classes,
            second,
        ) {
            return Err(refused(LineReason::OtherLine));
        }
        Ok(())
    }

    /// Whether two classes have the same columns.
    fn have_same_columns(self, first: ClassId, second: ClassId) -> bool
        ensures { result ≡ same_columns (given_columns self.entry.classes.columns first) (given_columns self.entry.classes.columns second) }
    {
        self.classes.columns.columns_of(first) == self.classes.columns.columns_of(second)
    }

    fn alike(self, alloc: Global, first: LineId, second: LineId) -> Result<(), LineFault>
        requires { IsBehind self }
        ensures { Gives (λ _. says.Alike first second) result (spec.judged self.entry.instances.now self.entry.own.now (known self.entry.classes) (the_log self.entry) (says.Alike first second)) }
    {
        if !is_earlier(self.lines, first) || !is_earlier(self.lines, second) {
            return Err(refused(LineReason::UnknownLine));
        }
        match (member(self.lines, first), member(self.lines, second)) {
            (Some(one), Some(other)) if are_alike(alloc, one.expr, other.expr, self.classes)? => Ok(
                (),
            ),
            _ => Err(refused(LineReason::OtherForm)),
        }
    }

    fn gives(self, class: ClassId, line: LineId, fact: &Fact) -> Result<(), LineFault>
        requires { IsBehind self }
        ensures { Gives (λ _. says.Gives class line fact.now) result (spec.judged self.entry.instances.now self.entry.own.now (known self.entry.classes) (the_log self.entry) (says.Gives class line fact.now)) }
    {
        if !founds(self.lines, class) || !is_earlier(self.lines, line) {
            return Err(refused(LineReason::UnknownLine));
        }
        if !self.speaks_of(fact, class) {
            return Err(refused(LineReason::IllFormed));
        }
        let Some(found) = member(self.lines, line) else {
            return Err(refused(LineReason::OtherForm));
        };
        if !self.classes.are_same(found.class, class) {
            return Err(refused(LineReason::OtherForm));
        }
        if !gives(self.instances, self.classes, class, found.expr, fact) {
            return Err(refused(LineReason::FailedFact));
        }
        Ok(())
    }

    /// Whether a fact speaks of columns of a class alone.
    fn speaks_of(self, fact: &Fact, class: ClassId) -> bool
        ensures { result ≡ is_subset (fact_columns fact.now) (given_columns self.entry.classes.columns class) }
    {
        match fact {
            Fact::NotNull(column) => self.classes.columns.has(class, *column),
            Fact::WeakKey(key) | Fact::StrongKey(key) => {
                self.classes.columns.has_all(class, key.as_slice())
            }
        }
    }

    /// Judges whether a line may stand behind the others, by what is known of them.
    pub fn judge(self, alloc: Global, line: &Line) -> Result<(), LineFault>
        requires { IsBehind self }
        ensures { Gives (λ _. line.now) result (spec.judged self.entry.instances.now self.entry.own.now (known self.entry.classes) (the_log self.entry) line.now) }
    {
        match line {
            Line::Founds(expr) => self.founds(alloc, expr),
            Line::Adds(class, step, expr) => self.adds(alloc, *class, step.get(), expr),
            Line::Unites(first, second, step) => self.unites(alloc, *first, *second, step.get()),
            Line::Alike(first, second) => self.alike(alloc, *first, *second),
            Line::Gives(class, line, fact) => self.gives(*class, *line, fact),
        }
    }
}
