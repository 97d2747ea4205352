//! What rules bind of lines: expressions over inputs that are named, and what is picked of a selection.

ghost use Rattle.std.specs.Prelude.{◌≡◌};
ghost use Rattle.values.specs.Faults.{Gives, wanted};
ghost use Rattle.rules.specs.declared.unfit.Unfit.TheVariants.{Pattern};
ghost use Rattle.rules.specs.Bindings as spec;
ghost use Rattle.rules.specs.Matches.{known_in, matched};
ghost use Rattle.rules.specs.Patterns.{input_of};

use crate::matching::Match;
use crate::pattern::{Input, picked_class, subquery_of};
use crate::unfit::{RuleFault, Unfit};
use algebra::{ClassId, Condition, Conjuncts, Expr};
use props::KnownClasses;
use std::alloc::Global;
use values::Fault;

/// A selection, and a conjunct of it that is a subquery.
#[derive(Clone, Copy)]
pub struct PickedSubquery<'a> {
    pub conjuncts: &'a Conjuncts,
    /// The class that the selection takes.
    pub input: ClassId,
    /// The number of the conjunct.
    pub place: u32,
    /// The conjunct.
    pub condition: &'a Condition,
    /// The class of the subquery.
    pub class: ClassId,
}

/// A selection, and a class that its conjuncts name.
#[derive(Clone, Copy)]
pub struct PickedClass<'a> {
    pub conjuncts: &'a Conjuncts,
    /// The class that the selection takes.
    pub input: ClassId,
    /// The class that they name.
    pub class: ClassId,
}

/// Whether a class is the same as the one that an expression takes there.
fn is_input(classes: KnownClasses<'_>, expr: &Expr, input: Input, class: ClassId) -> bool
    ensures { result ≡ spec.is_same_as (known_in classes.entry) (input_of expr.now input) class }
{
    match input.of(expr) {
        Some(taken) => classes.are_same(taken, class),
        None => false,
    }
}

/// The conjunct of this number, of a selection where it is a subquery.
fn subquery_pick<'a>(expr: &'a Expr, place: u32) -> Result<PickedSubquery<'a>, RuleFault>
    ensures { Gives spec.subquery_in result (wanted Pattern (spec.subquery_pick expr.now place)) }
{
    let Expr::Select(conjuncts, input) = expr else {
        return Err(Fault::Refused(Unfit::Pattern));
    };
    let Some(condition) = conjuncts.as_slice().get(place as usize) else {
        return Err(Fault::Refused(Unfit::Pattern));
    };
    match subquery_of(condition) {
        Some(class) => Ok(PickedSubquery {
            conjuncts,
            input: *input,
            place,
            condition,
            class,
        }),
        None => Err(Fault::Refused(Unfit::Pattern)),
    }
}

/// The class, of a selection whose conjuncts name it.
fn class_pick<'a>(
    alloc: Global,
    expr: &'a Expr,
    class: ClassId,
) -> Result<PickedClass<'a>, RuleFault>
    ensures { Gives spec.class_in result (wanted Pattern (spec.class_pick expr.now class)) }
{
    match (expr, picked_class(alloc, expr, class)?) {
        (Expr::Select(conjuncts, input), Some(class)) => Ok(PickedClass {
            conjuncts,
            input: *input,
            class,
        }),
        _ => Err(Fault::Refused(Unfit::Pattern)),
    }
}

impl<'a> Match<'a> {
    /// The expressions of two lines, of which the second is of the class that the first takes there, where nothing is picked.
    pub fn two_lines_over(self, input: Input) -> Result<(&'a Expr, &'a Expr), RuleFault>
        ensures { Gives (λ p. (p.0.now, p.1.now)) result (wanted Pattern (spec.two_lines_over input (matched self.entry))) }
    {
        match self.lines {
            [top, below]
                if self.pick == 0 && is_input(self.classes, top.expr, input, below.class) => Ok((
                top.expr, below.expr,
            )),
            _ => Err(Fault::Refused(Unfit::Pattern)),
        }
    }

    /// The expressions of three lines, of which each lower one is of the class that the one above it takes there, where nothing is
    /// picked.
    pub fn three_lines_over(
        self,
        input: Input,
        lower: Input,
    ) -> Result<(&'a Expr, &'a Expr, &'a Expr), RuleFault>
        ensures { Gives (λ p. (p.0.now, p.1.now, p.2.now)) result (wanted Pattern (spec.three_lines_over input lower (matched self.entry))) }
    {
        match self.lines {
            [top, below, lowest]
                if self.pick == 0
                    && is_input(self.classes, top.expr, input, below.class)
                    && is_input(self.classes, below.expr, lower, lowest.class) => Ok((
                top.expr,
                below.expr,
                lowest.expr,
            )),
            _ => Err(Fault::Refused(Unfit::Pattern)),
        }
    }

    /// The selection that is the one line, with the conjunct that is picked, where that is a subquery.
    pub fn subquery(self) -> Result<PickedSubquery<'a>, RuleFault>
        ensures { Gives spec.subquery_in result (wanted Pattern (spec.subquery (matched self.entry))) }
    {
        match self.lines {
            [line] => subquery_pick(line.expr, self.pick),
            _ => Err(Fault::Refused(Unfit::Pattern)),
        }
    }

    /// The selection that is the first of two lines, with the conjunct that is picked, where that is a subquery, and the expression of
    /// the second line, which is of the subquery's class.
    pub fn subquery_line(self) -> Result<(PickedSubquery<'a>, &'a Expr), RuleFault>
        ensures { Gives (λ p. (spec.subquery_in p.0, p.1.now)) result (wanted Pattern (spec.subquery_line (matched self.entry))) }
    {
        let [line, next] = self.lines else {
            return Err(Fault::Refused(Unfit::Pattern));
        };
        let pick = subquery_pick(line.expr, self.pick)?;
        if self.classes.are_same(pick.class, next.class) {
            Ok((pick, next.expr))
        } else {
            Err(Fault::Refused(Unfit::Pattern))
        }
    }

    /// The selection that is the first of two lines, with the class that is picked, which its conjuncts name, and the expression of the
    /// second line, which is of that class.
    pub fn class_line(self, alloc: Global) -> Result<(PickedClass<'a>, &'a Expr), RuleFault>
        ensures { Gives (λ p. (spec.class_in p.0, p.1.now)) result (wanted Pattern (spec.class_line (matched self.entry))) }
    {
        let [line, next] = self.lines else {
            return Err(Fault::Refused(Unfit::Pattern));
        };
        let pick = class_pick(alloc, line.expr, self.pick)?;
        if self.classes.are_same(pick.class, next.class) {
            Ok((pick, next.expr))
        } else {
            Err(Fault::Refused(Unfit::Pattern))
        }
    }
}
