//! A log that takes only lines that say something new, whose lines are found by their expressions.

ghost use Rattle.std.specs.Prelude.{◌≡◌, ◌↔◌, ◌≤◌, ℕ, None, Ok, Some, false, true, length, IfOk, IfSome, IsTrue, OnErr, OnOk};
ghost use Rattle.algebra.specs.Columns.{has};
ghost use Rattle.rules.specs.Matches as matches;
ghost use Rattle.derivation.specs.Logs as logs_;
ghost use Rattle.derivation.specs.Replay.{stands};
ghost use Rattle.logs.specs.Logged.{with_line};
ghost use Rattle.bindings.specs.Lean.{IsUnsaid, SaysNew};
ghost use Rattle.algebra.specs.declared.expr.Expr.{Expr};
ghost use Rattle.derivation.specs.declared.line.Line.TheVariants.{Founds};
ghost use Rattle.lean_logs.specs.Founding.{InternedAs, IsAdded};
ghost use Rattle.lean_logs.specs.Growth.{Extends};
ghost use Rattle.lean_logs.specs.Texts.{AreEntered, IsEntered};

use crate::expr_text::{Lines, enter, expr_text, lines_by};
use crate::unadded::Unadded;
use algebra::{ClassId, Expr, LineId};
use derivation::Line;
use logs::Log;
use query::ids::id_of;
use std::alloc::{AllocError, Global};
use std::collections::HashMap;
use std::marker::Model;
use values::Fault;

/// A line with an expression, and its class.
#[derive(Clone, Copy)]
pub struct Member {
    pub line: LineId,
    pub class: ClassId,
}

/// A log that takes only lines that say something new.
pub struct LeanLog<'q> {
    log: Log<'q>,
    /// The lines by the texts of their expressions.
    lines: Lines,
}

// By hand, so that where it is dropped is one call.
impl Drop for LeanLog<'_> {
    fn drop(self) {
        let LeanLog { log: _, lines: _ } = self;
    }
}

impl<'q> Model for LeanLog<'q> {
    ghost use Rattle.std.specs.Prelude.{List, refl};
    ghost use Rattle.std.specs.Coded.{codes, code_by};
    ghost use Rattle.query.specs.declared.query.TableInstance.{TableInstance};
    ghost use Rattle.algebra.specs.declared.expr.Aggregation.{Aggregation};
    ghost use Rattle.derivation.specs.contracts.line.Line as l;
    ghost use Rattle.derivation.specs.Logs.{Log as Derivation};
    ghost use Rattle.logs.specs.Logged.{Logged};
    ghost use Rattle.lean_logs.specs.Texts.{AreEntered};

    ghost Value = { Logged };

    ghost coded = { code_by (List TableInstance × List Aggregation × Derivation) (Prim.hlevel (codes, l.the_row.coded)) (λ l. (l.instances, l.own, l.log)) (λ t. record { instances = t.0; own = t.1; log = t.2 }) (λ _. refl) };

    ghost view = { λ l. l.log };

    ghost invariant = { λ l. AreEntered l.lines l.log.log };
}

/// The first of the lines that has the expression.
fn line_among(log: &Log<'_>, lines: &[LineId], expr: &Expr) -> Option<Member>
    ensures some { IfSome result (λ found. logs_.member log.now.log found.line ≡ Some (record { class = found.class; expr = expr.now })) }
    ensures none { result ≡ None → (n : ℕ) → has lines.now n ≡ true → (l : matches.Line) → logs_.member log.now.log n ≡ Some l → l.expr ≡ expr.now → ⊥ }
{
    for line in lines {
        if let Some(member) = log.member(*line) {
            if member.expr.same(expr) {
                return Some(Member {
                    line: *line,
                    class: member.class,
                });
            }
        }
    }
    None
}

/// Enters a line of a log by the text of its expression, if it has one.
fn enter_member(
    alloc: Global,
    lines: &mut Lines,
    log: &Log<'_>,
    number: LineId,
) -> Result<(), AllocError>
    ensures stays { (x : Expr) (n : ℕ) → IsEntered lines.old x n → IsEntered lines.new x n }
    ensures entered { OnOk result ((l : matches.Line) → logs_.member log.now.log number ≡ Some l → IsEntered lines.new l.expr number) }
{
    match log.member(number) {
        Some(member) => enter(alloc, lines, expr_text(alloc, member.expr)?, number),
        None => Ok(()),
    }
}

/// The lines of a log by their texts.
fn lines_of(alloc: Global, log: &Log<'_>) -> Result<Lines, AllocError>
    ensures { IfOk result (λ lines. AreEntered lines log.now.log) }
{
    let count = id_of(log.len())?;
    let mut lines = HashMap::new(alloc);
    for line in 0..count {
        enter_member(alloc, &mut lines, log, line)?;
    }
    Ok(lines)
}

/// Enters a line of this number by the text of its expression, if it has one.
fn enter_line(
    alloc: Global,
    lines: &mut Lines,
    line: &Line,
    number: LineId,
) -> Result<(), AllocError>
    ensures stays { (x : Expr) (n : ℕ) → IsEntered lines.old x n → IsEntered lines.new x n }
    ensures entered { OnOk result ((l : matches.Line) → logs_.as_member number (Some line.now) ≡ Some l → IsEntered lines.new l.expr number) }
{
    match line {
        Line::Founds(expr) | Line::Adds(_, _, expr) => {
            enter(alloc, lines, expr_text(alloc, expr)?, number)
        }
        Line::Unites(_, _, _) | Line::Alike(_, _) | Line::Gives(_, _, _) => Ok(()),
    }
}

impl<'q> LeanLog<'q> {
    /// Lines that may be said again here and there; those behind them say something new.
    pub fn behind(alloc: Global, log: Log<'q>) -> Result<LeanLog<'q>, AllocError>
        ensures { IfOk result (λ lean. lean ≡ log.entry) }
    {
        let lines = lines_of(alloc, &log)?;
        Ok(LeanLog { log, lines })
    }

    pub fn log(&self) -> &Log<'q>
        ensures { result.now ≡ self.now }
    {
        &self.log
    }

    pub fn into_log(self) -> Log<'q>
        ensures { result ≡ self.entry }
    {
        let LeanLog { log, lines: _ } = self;
        log
    }

    /// The first line with an expression, its classes being named as here.
    pub fn line_with(&self, alloc: Global, expr: &Expr) -> Result<Option<Member>, AllocError>
        ensures some { IfOk result (λ found. IfSome found (λ m. logs_.member self.now.log m.line ≡ Some (record { class = m.class; expr = expr.now }))) }
        ensures none { IfOk result (λ found. found ≡ None → IsUnsaid self.now.log expr.now) }
    {
        let text = expr_text(alloc, expr)?;
        let lines = lines_by(&self.lines, text.as_str());
        Ok(line_among(&self.log, lines, expr))
    }

    /// The class of a line; the line itself where it has no expression.
    pub fn class_at(&self, line: LineId) -> ClassId
        ensures { result ≡ logs_.class_at self.now.log line }
    {
        match self.log.member(line) {
            Some(member) => member.class,
            None => line,
        }
    }

    fn says_new(&self, alloc: Global, line: &Line) -> Result<bool, AllocError>
        ensures { IfOk result (λ new. IsTrue new ↔ SaysNew self.now.instances self.now.log line.now) }
    {
        match line {
            Line::Founds(expr) | Line::Adds(_, _, expr) => {
                Ok(self.line_with(alloc, expr)?.is_none())
            }
            Line::Unites(first, second, _) => Ok(!self.log.are_same(*first, *second)),
            Line::Alike(first, second) => {
                let are_same = self
                    .log
                    .are_same(self.class_at(*first), self.class_at(*second));
                Ok(!are_same)
            }
            Line::Gives(class, _, fact) => Ok(!self.log.classes().knows(*class, fact)),
        }
    }

    /// Adds a line, if it may stand and says something new; whether it is added.
    fn push(&mut self, alloc: Global, line: Line) -> Result<bool, AllocError>
        ensures added { result ≡ Ok true → self.new ≡ with_line self.old line }
        ensures says { result ≡ Ok true → SaysNew self.old.instances self.old.log line }
        ensures left { result ≡ Ok false → self.new ≡ self.old }
        ensures refused { result ≡ Ok false → stands self.old.instances self.old.own self.old.log line ≡ Ok line → SaysNew self.old.instances self.old.log line → ⊥ }
        ensures err { OnErr result (self.new ≡ self.old) }
    {
        if !self.says_new(alloc, &line)? {
            return Ok(false);
        }
        enter_line(alloc, &mut self.lines, &line, id_of(self.log.len())?)?;
        match self.log.push(alloc, line) {
            Ok(()) => Ok(true),
            Err(Fault::Refused(_)) => Ok(false),
            Err(Fault::Memory) => Err(AllocError),
        }
    }

    /// Adds a line to fewer than so many, if it may stand and says something new; its number then.
    pub fn append(
        &mut self,
        alloc: Global,
        limit: usize,
        line: Line,
    ) -> Result<Option<LineId>, AllocError>
        ensures some { IfOk result (λ found. IfSome found (λ number. IsAdded limit self.old line self.new × (number ≡ length self.old.log))) }
        ensures none { IfOk result (λ found. found ≡ None → self.new ≡ self.old) }
        ensures refused { IfOk result (λ found. found ≡ None → stands self.old.instances self.old.own self.old.log line ≡ Ok line → SaysNew self.old.instances self.old.log line → limit ≤ length self.old.log) }
        ensures err { OnErr result (self.new ≡ self.old) }
    {
        if limit <= self.log.len() {
            return Ok(None);
        }
        let number = id_of(self.log.len())?;
        if self.push(alloc, line)? {
            return Ok(Some(number));
        }
        Ok(None)
    }

    /// The first line with an expression, its classes being named as here: a new one where there is none, and fewer lines than so many.
    pub fn intern(&mut self, alloc: Global, limit: usize, expr: Expr) -> Result<Member, Unadded>
        ensures extends { Extends limit self.old self.new }
        ensures interned { stands self.old.instances self.old.own self.old.log (Founds expr) ≡ Ok (Founds expr) → InternedAs limit self.old expr self.new result }
    {
        if let Some(found) = self.line_with(alloc, &expr)? {
            return Ok(found);
        }
        match self.append(alloc, limit, Line::Founds(expr))? {
            Some(line) => Ok(Member { line, class: line }),
            None => Err(Unadded::Refused),
        }
    }
}
