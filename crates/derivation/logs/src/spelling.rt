//! When a shape is an expression whose inner expressions stand in lines.

ghost use Rattle.std.specs.Prelude.{◌≡◌, reverse, option_map};
ghost use Rattle.props.specs.Knowledge.{are_same, known};
ghost use Rattle.derivation.specs.Logs as logs;
ghost use Rattle.derivation.specs.Spelling as spec;

use crate::lookups::member;
use algebra::{ClassId, Expr, LineId};
use derivation::Line;
use props::KnownClasses;
use rules::Shape;

/// The class of the next line, if it has the expression.
fn class_with(lines: &[Line], expr: &Expr, line: LineId) -> Option<ClassId>
    ensures { result ≡ spec.class_with expr.now (logs.member (reverse lines.now) line) }
{
    match member(lines, line) {
        Some(found) if found.expr.same(expr) => Some(found.class),
        _ => None,
    }
}

/// What the lines that come next make of a shape that is no class, and the lines behind them.
#[cycle(spelling)]
#[tactic(auto, using(crate::proofs::Equations::spelt_Class, crate::proofs::Equations::spelt_Select, crate::proofs::Equations::spelt_Join, crate::proofs::Equations::spelt_LeftJoin, crate::proofs::Equations::spelt_Semi, crate::proofs::Equations::spelt_Anti, crate::proofs::Equations::spelt_Keep, crate::proofs::Equations::spelt_Distinct, crate::proofs::Equations::spelt_Group))]
fn expr_of<'m>(lines: &[Line], shape: Shape, makes: &'m [LineId]) -> Option<(Expr, &'m [LineId])>
    ensures { option_map (λ p. (p.0, p.1.now)) result ≡ (spec.spelling (logs.member (reverse lines.now)) shape).expr makes.now }
{
    match shape {
        Shape::Class(_) => None,
        Shape::Select(c, x) => {
            let (x, rest) = class_of(lines, x.into_inner(), makes)?;
            Some((Expr::Select(c, x), rest))
        }
        Shape::Join(c, a, b) => {
            let (a, rest) = class_of(lines, a.into_inner(), makes)?;
            let (b, rest) = class_of(lines, b.into_inner(), rest)?;
            Some((Expr::Join(c, a, b), rest))
        }
        Shape::LeftJoin(c, a, b) => {
            let (a, rest) = class_of(lines, a.into_inner(), makes)?;
            let (b, rest) = class_of(lines, b.into_inner(), rest)?;
            Some((Expr::LeftJoin(c, a, b), rest))
        }
        Shape::Semi(c, a, b) => {
            let (a, rest) = class_of(lines, a.into_inner(), makes)?;
            let (b, rest) = class_of(lines, b.into_inner(), rest)?;
            Some((Expr::Semi(c, a, b), rest))
        }
        Shape::Anti(ordinary, null_aware, a, b) => {
            let (a, rest) = class_of(lines, a.into_inner(), makes)?;
            let (b, rest) = class_of(lines, b.into_inner(), rest)?;
            Some((Expr::Anti(ordinary, null_aware, a, b), rest))
        }
        Shape::Keep(k, x) => {
            let (x, rest) = class_of(lines, x.into_inner(), makes)?;
            Some((Expr::Keep(k, x), rest))
        }
        Shape::Distinct(x) => {
            let (x, rest) = class_of(lines, x.into_inner(), makes)?;
            Some((Expr::Distinct(x), rest))
        }
        Shape::Group(k, added, x) => {
            let (x, rest) = class_of(lines, x.into_inner(), makes)?;
            Some((Expr::Group(k, added, x), rest))
        }
    }
}

/// The class that a shape is, if the lines that come next spell it, and the lines behind them.
#[cycle(spelling)]
#[tactic(auto, using(crate::proofs::Equations::class_Class))]
fn class_of<'m>(
    lines: &[Line],
    shape: Shape,
    makes: &'m [LineId],
) -> Option<(ClassId, &'m [LineId])>
    ensures { option_map (λ p. (p.0, p.1.now)) result ≡ (spec.spelling (logs.member (reverse lines.now)) shape).class makes.now }
{
    if let Shape::Class(class) = shape {
        return Some((class, makes));
    }
    let (line, inner) = makes.split_first()?;
    let (expr, rest) = expr_of(lines, shape, inner)?;
    let class = class_with(lines, &expr, *line)?;
    Some((class, rest))
}

/// Whether the shape is this expression, its inner expressions being those of the lines, of which none is left.
pub fn is_expr(lines: &[Line], shape: Shape, makes: &[LineId], expr: &Expr) -> bool
    ensures { result ≡ spec.is_expr (logs.member (reverse lines.now)) shape makes.now expr.now }
{
    match expr_of(lines, shape, makes) {
        Some((own, rest)) => rest.is_empty() && own.same(expr),
        None => false,
    }
}

/// Whether the shape is a class that is the same as another, its expressions being those of the lines, of which none is left.
pub fn is_class(
    lines: &[Line],
    shape: Shape,
    makes: &[LineId],
    classes: KnownClasses<'_>,
    class: ClassId,
) -> bool
    ensures { result ≡ spec.is_class (logs.member (reverse lines.now)) shape makes.now (λ g. are_same (known classes.entry) class g) }
{
    match class_of(lines, shape, makes) {
        Some((own, rest)) => rest.is_empty() && classes.are_same(class, own),
        None => false,
    }
}
