//! What a log lacks to be closed.

ghost use Rattle.std.specs.Prelude.{◌≡◌, ◌<◌, ◌↔◌, ℕ, [], ◌∷◌, length, map, slice_get, true, IsTrue, IfOk, IfSome, None, Some};
ghost use Rattle.std.specs.List.{AllByRecursion};
ghost use Rattle.book.specs.Book.{pattern_of};
ghost use Rattle.rules.specs.Matches.{line_in};
ghost use Rattle.rules.specs.Patterns.{picked_subquery};
ghost use Rattle.derivation.specs.Logs.{member};
ghost use Rattle.closure.specs.Closed as spec;
ghost use Rattle.closure.specs.Closed.{AreUnited};
ghost use Rattle.closure.specs.Lacking as lacking_;
ghost use Rattle.closure.specs.Lines as lines_;
ghost use Rattle.closure.specs.Places.{AreEntered};

use crate::lacks::Missing;
use crate::learning::lacking_fact;
use crate::pairs::{disagreeing, lines_by_place};
use crate::picks::{classes_named, conjunct_count};
use crate::standing::is_there;
use algebra::{ClassId, Expr, LineId};
use bindings::{Binding, BoundLines};
use book::RuleName;
use logs::Log;
use query::ids::id_of;
use rules::{Input, MatchedLine, Pattern, picked_subquery};
use std::alloc::{AllocError, Global};

/// Whether what the rule of a binding gives, if it gives something, stands in the class of the top line.
fn has_result(
    alloc: Global,
    log: &Log<'_>,
    over: &[Vec<LineId>],
    binding: Binding,
) -> Result<bool, AllocError>
    requires entered { AreEntered log.now.log (length log.now.log) (map (λ v. v.items) over.now) }
    requires united { AreUnited log.now.log }
    ensures { IfOk result (λ has. has ≡ lines_.has_result_of log.now.instances log.now.log binding) }
{
    let Some(given) = binding.given(alloc, log)? else {
        return Ok(true);
    };
    let has = is_there(alloc, log, over, &given.shape, given.class)?;
    Ok(has)
}

/// The binding, if its result doesn't stand there.
fn lacking_at(
    alloc: Global,
    log: &Log<'_>,
    over: &[Vec<LineId>],
    binding: Binding,
) -> Result<Option<Binding>, AllocError>
    requires entered { AreEntered log.now.log (length log.now.log) (map (λ v. v.items) over.now) }
    requires united { AreUnited log.now.log }
    ensures { IfOk result (λ found. lacking_.BindingTold log.now.instances log.now.log (lines_.has_result_of log.now.instances log.now.log binding ≡ true) found) }
{
    if has_result(alloc, log, over, binding)? {
        return Ok(None);
    }
    Ok(Some(binding))
}

/// The first binding of a rule at a line over one of these whose result doesn't stand there, if there is one.
fn lacking_pair(
    alloc: Global,
    log: &Log<'_>,
    over: &[Vec<LineId>],
    rule: RuleName,
    pick: u32,
    top: LineId,
    mut lines: &[LineId],
) -> Result<Option<Binding>, AllocError>
    requires entered { AreEntered log.now.log (length log.now.log) (map (λ v. v.items) over.now) }
    requires united { AreUnited log.now.log }
    ensures { IfOk result (λ found. lacking_.BindingTold log.now.instances log.now.log (AllByRecursion (λ n. lines_.has_result log.now.instances log.now.log rule pick (top ∷ n ∷ []) ≡ true) lines.entry.now) found) }
{
    'lines: while let [line, rest @ ..] = lines {
        let lines_bound = BoundLines::Two(top, *line);
        let binding = Binding {
            rule,
            pick,
            lines: lines_bound,
        };
        if !has_result(alloc, log, over, binding)? {
            return Ok(Some(binding));
        }
        lines = rest;
    }
    Ok(None)
}

/// The same over the lines of a class, if there is one.
fn lacking_pair_of(
    alloc: Global,
    log: &Log<'_>,
    over: &[Vec<LineId>],
    rule: RuleName,
    pick: u32,
    top: LineId,
    class: Option<ClassId>,
) -> Result<Option<Binding>, AllocError>
    requires entered { AreEntered log.now.log (length log.now.log) (map (λ v. v.items) over.now) }
    requires united { AreUnited log.now.log }
    ensures { IfOk result (λ found. lacking_.BindingTold log.now.instances log.now.log (lines_.HasPairs log.now.instances log.now.log rule pick top class) found) }
{
    let Some(class) = class else {
        return Ok(None);
    };
    let lines = log.members(alloc, class)?;
    let found = lacking_pair(alloc, log, over, rule, pick, top, lines.as_slice())?;
    Ok(found)
}

/// The first binding of a rule at a line over another one over one of these whose result doesn't stand there, if there is one.
fn lacking_triple(
    alloc: Global,
    log: &Log<'_>,
    over: &[Vec<LineId>],
    rule: RuleName,
    top: LineId,
    below: LineId,
    mut lines: &[LineId],
) -> Result<Option<Binding>, AllocError>
    requires entered { AreEntered log.now.log (length log.now.log) (map (λ v. v.items) over.now) }
    requires united { AreUnited log.now.log }
    ensures { IfOk result (λ found. lacking_.BindingTold log.now.instances log.now.log (AllByRecursion (λ n. lines_.has_result log.now.instances log.now.log rule 0 (top ∷ below ∷ n ∷ []) ≡ true) lines.entry.now) found) }
{
    'lines: while let [line, rest @ ..] = lines {
        let binding = Binding {
            rule,
            pick: 0,
            lines: BoundLines::Three(top, below, *line),
        };
        if !has_result(alloc, log, over, binding)? {
            return Ok(Some(binding));
        }
        lines = rest;
    }
    Ok(None)
}

/// The same over the lines of the class that the second one takes there.
fn lacking_triple_of(
    alloc: Global,
    log: &Log<'_>,
    over: &[Vec<LineId>],
    rule: RuleName,
    top: LineId,
    below: LineId,
    input: Input,
) -> Result<Option<Binding>, AllocError>
    requires entered { AreEntered log.now.log (length log.now.log) (map (λ v. v.items) over.now) }
    requires united { AreUnited log.now.log }
    ensures { IfOk result (λ found. lacking_.BindingTold log.now.instances log.now.log (lines_.HasTriples log.now.instances log.now.log rule top input below) found) }
{
    let Some(member) = log.member(below) else {
        return Ok(None);
    };
    let Some(class) = input.of(member.expr) else {
        return Ok(None);
    };
    let lines = log.members(alloc, class)?;
    let found = lacking_triple(alloc, log, over, rule, top, below, lines.as_slice())?;
    Ok(found)
}

/// The same over each of these.
fn lacking_triple_among(
    alloc: Global,
    log: &Log<'_>,
    over: &[Vec<LineId>],
    rule: RuleName,
    top: LineId,
    mut lines: &[LineId],
    input: Input,
) -> Result<Option<Binding>, AllocError>
    requires entered { AreEntered log.now.log (length log.now.log) (map (λ v. v.items) over.now) }
    requires united { AreUnited log.now.log }
    ensures { IfOk result (λ found. lacking_.BindingTold log.now.instances log.now.log (AllByRecursion (lines_.HasTriples log.now.instances log.now.log rule top input) lines.entry.now) found) }
{
    'lines: while let [line, rest @ ..] = lines {
        if let Some(binding) = lacking_triple_of(alloc, log, over, rule, top, *line, input)? {
            return Ok(Some(binding));
        }
        lines = rest;
    }
    Ok(None)
}

/// The same over the lines of a class, if there is one.
fn lacking_triple_over(
    alloc: Global,
    log: &Log<'_>,
    over: &[Vec<LineId>],
    rule: RuleName,
    top: LineId,
    class: Option<ClassId>,
    input: Input,
) -> Result<Option<Binding>, AllocError>
    requires entered { AreEntered log.now.log (length log.now.log) (map (λ v. v.items) over.now) }
    requires united { AreUnited log.now.log }
    ensures { IfOk result (λ found. lacking_.BindingTold log.now.instances log.now.log (lines_.HasTriplesOver log.now.instances log.now.log rule top input class) found) }
{
    let Some(class) = class else {
        return Ok(None);
    };
    let lines = log.members(alloc, class)?;
    let found = lacking_triple_among(alloc, log, over, rule, top, lines.as_slice(), input)?;
    Ok(found)
}

/// The first binding of a rule that picks one of so many conjuncts whose result doesn't stand there, if there is one.
fn lacking_pick(
    alloc: Global,
    log: &Log<'_>,
    over: &[Vec<LineId>],
    rule: RuleName,
    top: LineId,
    count: u32,
) -> Result<Option<Binding>, AllocError>
    requires entered { AreEntered log.now.log (length log.now.log) (map (λ v. v.items) over.now) }
    requires united { AreUnited log.now.log }
    ensures { IfOk result (λ found. lacking_.BindingTold log.now.instances log.now.log ((pick : ℕ) → pick < count → lines_.has_result log.now.instances log.now.log rule pick (top ∷ []) ≡ true) found) }
{
    for pick in 0..count {
        let binding = Binding {
            rule,
            pick,
            lines: BoundLines::One(top),
        };
        if !has_result(alloc, log, over, binding)? {
            return Ok(Some(binding));
        }
    }
    Ok(None)
}

/// The same over the lines of the class of the subquery that is picked.
fn lacking_pick_over(
    alloc: Global,
    log: &Log<'_>,
    over: &[Vec<LineId>],
    rule: RuleName,
    top: LineId,
    expr: &Expr,
    count: u32,
) -> Result<Option<Binding>, AllocError>
    requires entered { AreEntered log.now.log (length log.now.log) (map (λ v. v.items) over.now) }
    requires united { AreUnited log.now.log }
    ensures { IfOk result (λ found. lacking_.BindingTold log.now.instances log.now.log ((pick : ℕ) → pick < count → lines_.HasPairs log.now.instances log.now.log rule pick top (picked_subquery expr.now pick)) found) }
{
    for pick in 0..count {
        let class = picked_subquery(expr, pick);
        if let Some(binding) = lacking_pair_of(alloc, log, over, rule, pick, top, class)? {
            return Ok(Some(binding));
        }
    }
    Ok(None)
}

/// The first binding of a rule that picks one of these classes, over one of its lines, whose result doesn't stand there, if there is one.
fn lacking_class(
    alloc: Global,
    log: &Log<'_>,
    over: &[Vec<LineId>],
    rule: RuleName,
    top: LineId,
    mut classes: &[ClassId],
) -> Result<Option<Binding>, AllocError>
    requires entered { AreEntered log.now.log (length log.now.log) (map (λ v. v.items) over.now) }
    requires united { AreUnited log.now.log }
    ensures { IfOk result (λ found. lacking_.BindingTold log.now.instances log.now.log (AllByRecursion (λ g. lines_.HasPairs log.now.instances log.now.log rule g top (Some g)) classes.entry.now) found) }
{
    'classes: while let [class, rest @ ..] = classes {
        if let Some(binding) = lacking_pair_of(alloc, log, over, rule, *class, top, Some(*class))? {
            return Ok(Some(binding));
        }
        classes = rest;
    }
    Ok(None)
}

/// The first binding of a rule with the line on top whose result doesn't stand there, if there is one.
fn lacking_by(
    alloc: Global,
    log: &Log<'_>,
    over: &[Vec<LineId>],
    rule: RuleName,
    line: LineId,
    top: MatchedLine<'_>,
) -> Result<Option<Binding>, AllocError>
    requires entered { AreEntered log.now.log (length log.now.log) (map (λ v. v.items) over.now) }
    requires united { AreUnited log.now.log }
    requires there { member log.now.log line ≡ Some (line_in top) }
    ensures { IfOk result (λ found. lacking_.BindingTold log.now.instances log.now.log (lines_.HasResultsBy log.now.instances log.now.log rule line (pattern_of rule)) found) }
{
    match rule.pattern() {
        Pattern::One(operators) => {
            if !operators.include(top.expr) {
                return Ok(None);
            }
            let binding = Binding {
                rule,
                pick: 0,
                lines: BoundLines::One(line),
            };
            let found = lacking_at(alloc, log, over, binding)?;
            Ok(found)
        }
        Pattern::Two(operators, below) => {
            if !operators.include(top.expr) {
                return Ok(None);
            }
            let class = below.input.of(top.expr);
            let found = lacking_pair_of(alloc, log, over, rule, 0, line, class)?;
            Ok(found)
        }
        Pattern::Three(operators, below, lowest) => {
            if !operators.include(top.expr) {
                return Ok(None);
            }
            let class = below.input.of(top.expr);
            let found = lacking_triple_over(alloc, log, over, rule, line, class, lowest.input)?;
            Ok(found)
        }
        Pattern::Subquery => {
            let count = conjunct_count(top.expr)?;
            let found = lacking_pick(alloc, log, over, rule, line, count)?;
            Ok(found)
        }
        Pattern::SubqueryLine(_) => {
            let count = conjunct_count(top.expr)?;
            let found = lacking_pick_over(alloc, log, over, rule, line, top.expr, count)?;
            Ok(found)
        }
        Pattern::ClassLine(_) => {
            let classes = classes_named(alloc, top.expr)?;
            let found = lacking_class(alloc, log, over, rule, line, classes.as_slice())?;
            Ok(found)
        }
    }
}

/// Such a binding, of one of the rules.
fn lacking_among(
    alloc: Global,
    log: &Log<'_>,
    over: &[Vec<LineId>],
    mut rules: &[RuleName],
    line: LineId,
    top: MatchedLine<'_>,
) -> Result<Option<Binding>, AllocError>
    requires entered { AreEntered log.now.log (length log.now.log) (map (λ v. v.items) over.now) }
    requires united { AreUnited log.now.log }
    requires there { member log.now.log line ≡ Some (line_in top) }
    ensures { IfOk result (λ found. lacking_.BindingTold log.now.instances log.now.log (AllByRecursion (λ rule. lines_.HasResultsBy log.now.instances log.now.log rule line (pattern_of rule)) rules.entry.now) found) }
{
    'rules: while let [rule, rest @ ..] = rules {
        if let Some(binding) = lacking_by(alloc, log, over, *rule, line, top)? {
            return Ok(Some(binding));
        }
        rules = rest;
    }
    Ok(None)
}

/// Such a binding, of any rule of the book and the line of a number.
fn lacking_of(
    alloc: Global,
    log: &Log<'_>,
    over: &[Vec<LineId>],
    line: LineId,
) -> Result<Option<Binding>, AllocError>
    requires entered { AreEntered log.now.log (length log.now.log) (map (λ v. v.items) over.now) }
    requires united { AreUnited log.now.log }
    ensures { IfOk result (λ found. lacking_.BindingTold log.now.instances log.now.log (lines_.HasResultsOf log.now.instances log.now.log line) found) }
{
    let Some(top) = log.member(line) else {
        return Ok(None);
    };
    let found = lacking_among(alloc, log, over, RuleName::all(), line, top)?;
    Ok(found)
}

/// A binding whose result doesn't stand there, if there is one.
fn lacking(
    alloc: Global,
    log: &Log<'_>,
    over: &[Vec<LineId>],
) -> Result<Option<Binding>, AllocError>
    requires entered { AreEntered log.now.log (length log.now.log) (map (λ v. v.items) over.now) }
    requires united { AreUnited log.now.log }
    ensures { IfOk result (λ found. lacking_.BindingTold log.now.instances log.now.log (spec.HasResults log.now.instances log.now.log) found) }
{
    for line in 0..id_of(log.len())? {
        if let Some(binding) = lacking_of(alloc, log, over, line)? {
            return Ok(Some(binding));
        }
    }
    Ok(None)
}

/// A fact that the line of a number lacks, if there is one.
fn unlearnt_of(alloc: Global, log: &Log<'_>, line: LineId) -> Result<Option<Missing>, AllocError>
    ensures { IfOk result (λ found. lacking_.UnlearntAt log.now.instances log.now.log line found) }
{
    let Some(member) = log.member(line) else {
        return Ok(None);
    };
    match lacking_fact(alloc, log, member)? {
        Some(fact) => Ok(Some(Missing::Fact(member.class, line, fact))),
        None => Ok(None),
    }
}

/// A fact that a line lacks, if there is one.
fn unlearnt(alloc: Global, log: &Log<'_>) -> Result<Option<Missing>, AllocError>
    ensures { IfOk result (λ found. lacking_.Unlearnt log.now.instances log.now.log found) }
{
    for line in 0..id_of(log.len())? {
        if let Some(missing) = unlearnt_of(alloc, log, line)? {
            return Ok(Some(missing));
        }
    }
    Ok(None)
}

/// What a log lacks to be closed: two lines that are alike and of classes that aren't the same, else a rule with lines whose result doesn't stand in the
/// class of the top one, else a fact that a line gives. None where the log is closed.
pub fn missing(alloc: Global, log: &Log<'_>) -> Result<Option<Missing>, AllocError>
    ensures none { IfOk result (λ found. found ≡ None → spec.IsClosed log.now.instances log.now.log) }
    ensures some { IfOk result (λ found. IfSome found (λ m. lacking_.IsMissing log.now.instances log.now.log m)) }
{
    let over = lines_by_place(alloc, log)?;
    if let Some((first, second)) = disagreeing(alloc, log, over.as_slice())? {
        return Ok(Some(Missing::Alike(first, second)));
    }
    if let Some(binding) = lacking(alloc, log, over.as_slice())? {
        return Ok(Some(Missing::Result(binding)));
    }
    let found = unlearnt(alloc, log)?;
    Ok(found)
}

/// Whether a log is closed: whether whatever rules give at its lines stands there already, lines that are alike are of classes that are the same, and
/// each fact that a line gives is known.
#[tactic(auto, using(crate::proofs::Lacking::missing_open))]
pub fn is_closed(alloc: Global, log: &Log<'_>) -> Result<bool, AllocError>
    ensures { IfOk result (λ closed. IsTrue closed ↔ spec.IsClosed log.now.instances log.now.log) }
{
    match missing(alloc, log)? {
        Some(_) => Ok(false),
        None => Ok(true),
    }
}
