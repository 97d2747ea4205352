//! The lines that a line cites.

ghost use Rattle.std.specs.Prelude.{◌≡◌, map, reverse, option_map, Some, IfOk};
ghost use Rattle.std.specs.List.{list_all};
ghost use Rattle.algebra.specs.Expressions.{classes_pass};
ghost use Rattle.rules.specs.Matches.{line_in};
ghost use Rattle.derivation.specs.Logs as logs;
ghost use Rattle.derivation.specs.Replay as spec;

use algebra::{ClassId, Expr, LineId};
use derivation::{Line, Step};
use rules::MatchedLine;
use std::alloc::{AllocError, Global};

/// Whether there is a line of this number.
pub fn is_earlier(lines: &[Line], line: LineId) -> bool
    ensures { result ≡ spec.is_earlier (reverse lines.now) line }
{
    (line as usize) < lines.len()
}

/// Whether a line founds a class.
fn is_founding(line: &Line) -> bool
    ensures { result ≡ logs.is_founding (Some line.now) }
{
    match line {
        Line::Founds(_) => true,
        Line::Adds(_, _, _) | Line::Unites(_, _, _) | Line::Alike(_, _) | Line::Gives(_, _, _) => {
            false
        }
    }
}

/// Whether a line of this number founds a class.
pub fn founds(lines: &[Line], class: ClassId) -> bool
    ensures { result ≡ logs.founds (reverse lines.now) class }
{
    match lines.get(class as usize) {
        Some(line) => is_founding(line),
        None => false,
    }
}

/// The expression of the line of this number, and the class of which it is.
fn as_member<'a>(number: LineId, line: &'a Line) -> Option<MatchedLine<'a>>
    ensures { option_map line_in result ≡ logs.as_member number (Some line.now) }
{
    match line {
        Line::Founds(expr) => Some(MatchedLine {
            class: number,
            expr,
        }),
        Line::Adds(class, _, expr) => Some(MatchedLine {
            class: *class,
            expr,
        }),
        Line::Unites(_, _, _) | Line::Alike(_, _) | Line::Gives(_, _, _) => None,
    }
}

/// The expression of a line, and the class of which it is.
pub fn member<'a>(lines: &'a [Line], line: LineId) -> Option<MatchedLine<'a>>
    ensures { option_map line_in result ≡ logs.member (reverse lines.now) line }
{
    match lines.get(line as usize) {
        Some(found) => as_member(line, found),
        None => None,
    }
}

/// The lines with these numbers, if each has an expression.
pub fn members<'a>(
    alloc: Global,
    lines: &'a [Line],
    uses: &[LineId],
) -> Result<Option<Vec<MatchedLine<'a>>>, AllocError>
    ensures { IfOk result (λ found. option_map (λ ls. map line_in ls.items) found ≡ spec.members (reverse lines.now) uses.now) }
{
    let mut found = Vec::new(alloc);
    for line in uses {
        match member(lines, *line) {
            Some(member) => found.push(member)?,
            None => return Ok(None),
        }
    }
    Ok(Some(found))
}

/// Whether there are lines of all these numbers.
fn are_earlier(lines: &[Line], cited: &[LineId]) -> bool
    ensures { result ≡ list_all (spec.is_earlier (reverse lines.now)) cited.now }
{
    cited.iter().all(|line| is_earlier(lines, *line))
}

/// Whether a step cites earlier lines.
pub fn cites(lines: &[Line], step: &Step) -> bool
    ensures { result ≡ spec.cites (reverse lines.now) step.now }
{
    are_earlier(lines, step.uses.as_slice()) && are_earlier(lines, step.makes.as_slice())
}

/// Whether all of the classes are founded.
fn are_founded(lines: &[Line], classes: &[ClassId]) -> bool
    ensures { result ≡ list_all (logs.founds (reverse lines.now)) classes.now }
{
    classes.iter().all(|class| founds(lines, *class))
}

/// Whether an expression names classes that are founded.
pub fn is_known(alloc: Global, lines: &[Line], expr: &Expr) -> Result<bool, AllocError>
    ensures { IfOk result (λ known. known ≡ classes_pass (logs.founds (reverse lines.now)) expr.now) }
{
    let classes = expr.inputs(alloc)?;
    Ok(are_founded(lines, classes.as_slice()))
}
