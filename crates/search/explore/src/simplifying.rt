//! Each line of a log is simplified, those that come of it among them.

use crate::needed_facts::learn_needed;
use crate::takers::Takers;
use algebra::{ClassId, Expr, LineId};
use bindings::{Binding, BoundLines};
use book::RuleName;
use memo::Memo;
use query::ids::id_of;
use rules::{Below, Input, Match, MatchedLine, Pattern, Promise, picked_subquery};
use std::alloc::{AllocError, Global};

/// Of a longer log the first lines alone are looked at, which bounds the time that is spent.
const MOST_LINES: usize = 2_000;

/// How often a log is gone through. Classes that become the same can let a rule fit earlier lines, so there may be several passes.
const MOST_PASSES: usize = 8;

/// The rule at these lines, where nothing is picked.
fn unpicked(rule: RuleName, lines: BoundLines) -> Binding {
    Binding {
        rule,
        pick: 0,
        lines,
    }
}

/// Whether a binding's rule fits at lines, which are its own, and promises that they are simpler then.
fn makes_simpler(
    alloc: Global,
    memo: &Memo<'_>,
    binding: Binding,
    lines: &[MatchedLine<'_>],
) -> Result<bool, AllocError> {
    let at = Match {
        lines,
        pick: binding.pick,
        classes: memo.log().classes(),
    };
    if !binding.rule.pattern().fits(alloc, at)? {
        return Ok(false);
    }
    Ok(match binding.rule.promise(alloc, at)? {
        Promise::Simpler => true,
        Promise::Connected | Promise::Products | Promise::Projections => false,
    })
}

/// The same at the lines of its numbers.
fn makes_simpler_at(alloc: Global, memo: &Memo<'_>, binding: Binding) -> Result<bool, AllocError> {
    let member = |number: LineId| memo.log().member(number);
    match binding.lines {
        BoundLines::One(top) => match member(top) {
            Some(top) => makes_simpler(alloc, memo, binding, [top].as_slice()),
            None => Ok(false),
        },
        BoundLines::Two(top, below) => match (member(top), member(below)) {
            (Some(top), Some(below)) => {
                makes_simpler(alloc, memo, binding, [top, below].as_slice())
            }
            _ => Ok(false),
        },
        BoundLines::Three(top, below, lowest) => {
            match (member(top), member(below), member(lowest)) {
                (Some(top), Some(below), Some(lowest)) => {
                    makes_simpler(alloc, memo, binding, [top, below, lowest].as_slice())
                }
                _ => Ok(false),
            }
        }
    }
}

/// Applies a binding's rule, if it makes the lines simpler.
fn simplify_by(alloc: Global, memo: &mut Memo<'_>, binding: Binding) -> Result<(), AllocError> {
    if makes_simpler_at(alloc, memo, binding)? {
        let _ = memo.apply(alloc, binding)?;
    }
    Ok(())
}

/// The lines of the class that a line takes there.
fn lines_below(
    alloc: Global,
    memo: &Memo<'_>,
    line: LineId,
    input: Input,
) -> Result<Vec<LineId>, AllocError> {
    match memo.log().member(line) {
        Some(member) => match input.of(member.expr) {
            Some(class) => memo.log().members(alloc, class),
            None => Ok(Vec::new(alloc)),
        },
        None => Ok(Vec::new(alloc)),
    }
}

/// Applies those of the rules to the line that make it simpler.
fn simplify_alone(
    alloc: Global,
    memo: &mut Memo<'_>,
    rules: &[RuleName],
    line: LineId,
) -> Result<(), AllocError> {
    for rule in rules {
        simplify_by(alloc, memo, unpicked(*rule, BoundLines::One(line)))?;
    }
    Ok(())
}

/// Applies those of the rules to the line and each line of the class that make them simpler.
fn simplify_over(
    alloc: Global,
    memo: &mut Memo<'_>,
    rules: &[RuleName],
    line: LineId,
    class: ClassId,
) -> Result<(), AllocError> {
    for below in memo.log().members(alloc, class)? {
        for rule in rules {
            simplify_by(alloc, memo, unpicked(*rule, BoundLines::Two(line, below)))?;
        }
    }
    Ok(())
}

/// The rules of one line that take a line.
fn rules_alone<'t>(memo: &Memo<'_>, takers: &'t Takers, line: LineId) -> &'t [RuleName] {
    match memo.log().member(line) {
        Some(top) => takers.alone.of(top.expr),
        None => &[],
    }
}

/// The rules that take a line over one of the class that it takes there, and that class; no rules where there is no such class.
fn rules_over<'t>(
    memo: &Memo<'_>,
    takers: &'t Takers,
    line: LineId,
    input: Input,
) -> (&'t [RuleName], ClassId) {
    let Some(top) = memo.log().member(line) else {
        return (&[], 0);
    };
    match input.of(top.expr) {
        Some(class) => (takers.over(top.expr, input), class),
        None => (&[], 0),
    }
}

/// Applies a rule of three lines to the line, where it makes that and two lines below simpler.
fn simplify_over_two(
    alloc: Global,
    memo: &mut Memo<'_>,
    rule: RuleName,
    line: LineId,
    below: Below,
    lowest: Below,
) -> Result<(), AllocError> {
    for second in lines_below(alloc, memo, line, below.input)? {
        for third in lines_below(alloc, memo, second, lowest.input)? {
            let lines = BoundLines::Three(line, second, third);
            simplify_by(alloc, memo, unpicked(rule, lines))?;
        }
    }
    Ok(())
}

/// Applies a rule with a pick to the line and each line of a class.
fn simplify_picked(
    alloc: Global,
    memo: &mut Memo<'_>,
    rule: RuleName,
    pick: u32,
    line: LineId,
    class: ClassId,
) -> Result<(), AllocError> {
    for below in memo.log().members(alloc, class)? {
        let lines = BoundLines::Two(line, below);
        simplify_by(alloc, memo, Binding { rule, pick, lines })?;
    }
    Ok(())
}

/// The class of the subquery that a line selects by, if it selects by nothing else.
fn lone_subquery(memo: &Memo<'_>, line: LineId) -> Option<ClassId> {
    let member = memo.log().member(line)?;
    match member.expr {
        Expr::Select(conjuncts, _) if conjuncts.as_slice().len() == 1 => {
            picked_subquery(member.expr, 0)
        }
        _ => None,
    }
}

/// Applies a rule of three lines or with a pick to the line, where it makes that simpler. Of selections those by one subquery alone are looked at: from
/// one by several conditions `seed` makes selections one over the other.
fn simplify_first(
    alloc: Global,
    memo: &mut Memo<'_>,
    rule: RuleName,
    line: LineId,
) -> Result<(), AllocError> {
    match (rule.pattern(), lone_subquery(memo, line)) {
        (Pattern::Three(_, below, lowest), _) => {
            simplify_over_two(alloc, memo, rule, line, below, lowest)
        }
        (Pattern::Subquery, Some(_)) => {
            simplify_by(alloc, memo, unpicked(rule, BoundLines::One(line)))
        }
        (Pattern::SubqueryLine(_), Some(class)) => {
            simplify_picked(alloc, memo, rule, 0, line, class)
        }
        (Pattern::ClassLine(_), Some(class)) => {
            simplify_picked(alloc, memo, rule, class, line, class)
        }
        _ => Ok(()),
    }
}

/// The rules of three lines and with a pick that take a line as the first.
fn rules_first<'t>(memo: &Memo<'_>, takers: &'t Takers, line: LineId) -> &'t [RuleName] {
    match memo.log().member(line) {
        Some(top) => takers.first.of(top.expr),
        None => &[],
    }
}

fn simplify_line(
    alloc: Global,
    memo: &mut Memo<'_>,
    takers: &Takers,
    line: LineId,
) -> Result<(), AllocError> {
    learn_needed(alloc, memo, line)?;
    let rules = rules_alone(memo, takers, line);
    simplify_alone(alloc, memo, rules, line)?;
    for input in [Input::First, Input::Second] {
        let (rules, class) = rules_over(memo, takers, line, input);
        if !rules.is_empty() {
            simplify_over(alloc, memo, rules, line, class)?;
        }
    }
    for rule in rules_first(memo, takers, line) {
        simplify_first(alloc, memo, *rule, line)?;
    }
    Ok(())
}

/// Goes through the log once, and through what is added meanwhile.
fn pass(alloc: Global, memo: &mut Memo<'_>, takers: &Takers) -> Result<(), AllocError> {
    for line in 0..MOST_LINES {
        if line < memo.log().len() {
            simplify_line(alloc, memo, takers, id_of(line)?)?;
        }
    }
    Ok(())
}

/// Adds what the rules give that promise to make expressions simpler, after learning the facts that these may ask of a line. As the rules of the book
/// are, selections and projections one over the other become one, a projection to all columns and distinct rows of a class with a key are that class,
/// groups without aggregates are distinct rows, selections and conditions go below outer joins, outer joins become inner ones, antijoins, or go away, and a selection by
/// one subquery becomes a semijoin or an antijoin.
pub fn simplify(alloc: Global, memo: &mut Memo<'_>) -> Result<(), AllocError> {
    let takers = Takers::of_book(alloc)?;
    for _ in 0..MOST_PASSES {
        let before = memo.log().len();
        pass(alloc, memo, &takers)?;
        if memo.log().len() == before {
            break;
        }
    }
    Ok(())
}
