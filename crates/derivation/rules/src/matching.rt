//! What a rule is applied to.

ghost use Rattle.std.specs.Prelude.{◌≡◌, length};
ghost use Rattle.values.specs.Faults.{Gives, wanted};
ghost use Rattle.rules.specs.declared.unfit.Unfit.TheVariants.{Pattern};
ghost use Rattle.rules.specs.Matches as spec;

use crate::unfit::{RuleFault, Unfit};
use algebra::{ClassId, Expr};
use props::KnownClasses;
use values::Fault;

/// An expression of a class.
#[derive(Clone, Copy)]
pub struct MatchedLine<'a> {
    pub class: ClassId,
    pub expr: &'a Expr,
}

/// What a rule is applied to: lines, and what is known of the classes that they name.
#[derive(Clone, Copy)]
pub struct Match<'a> {
    /// The lines, the top first.
    pub lines: &'a [MatchedLine<'a>],
    /// The conjunct or the class that is meant, where a rule has a choice; else 0.
    pub pick: u32,
    pub classes: KnownClasses<'a>,
}

/// The first class whose rows the expression takes, if there is one, is the same as the class.
fn takes(expr: &Expr, class: ClassId, classes: KnownClasses<'_>) -> bool
    ensures { result ≡ spec.takes (spec.known_in classes.entry) expr.now class }
{
    match expr {
        Expr::Get(_) => false,
        Expr::Select(_, x) | Expr::Keep(_, x) | Expr::Distinct(x) | Expr::Group(_, _, x) => {
            classes.are_same(*x, class)
        }
        Expr::Join(_, a, _)
        | Expr::LeftJoin(_, a, _)
        | Expr::Semi(_, a, _)
        | Expr::Anti(_, _, a, _) => classes.are_same(*a, class),
    }
}

impl<'a> Match<'a> {
    /// The expression of the one line, where nothing is picked.
    pub fn one_line(self) -> Result<&'a Expr, RuleFault>
        ensures { Gives (λ x. x.now) result (wanted Pattern (spec.one_line (spec.matched self.entry))) }
    {
        match self.lines {
            [line] if self.pick == 0 => Ok(line.expr),
            _ => Err(Fault::Refused(Unfit::Pattern)),
        }
    }

    /// The expressions of two lines, of which the second is of the class whose rows the first takes first, where nothing is picked.
    pub fn two_lines(self) -> Result<(&'a Expr, &'a Expr), RuleFault>
        ensures { Gives (λ p. (p.0.now, p.1.now)) result (wanted Pattern (spec.two_lines (spec.matched self.entry))) }
    {
        match self.lines {
            [top, below] if self.pick == 0 && takes(top.expr, below.class, self.classes) => Ok((
                top.expr, below.expr,
            )),
            _ => Err(Fault::Refused(Unfit::Pattern)),
        }
    }
}
