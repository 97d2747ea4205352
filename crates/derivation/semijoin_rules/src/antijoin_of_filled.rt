//! A null-aware condition of an antijoin that is never unknown is an ordinary one.

ghost use Rattle.std.specs.Prelude.{◌≡◌, IfOk};
ghost use Rattle.values.specs.Faults.{Gives};
ghost use Rattle.algebra.specs.ConjunctParts.{part, rest, union};
ghost use Rattle.props.specs.Knowledge.{known};
ghost use Rattle.semijoin_rules.specs.AntijoinOfFilled as spec;

use algebra::{ClassId, Condition, Conjuncts, Expr, Term, add_copies};
use props::KnownClasses;
use rules::shaping::anti;
use rules::{Match, Operator, Operators, Pattern, Promise, Rule, RuleFault, Shape, Unfit};
use std::alloc::{AllocError, Global};
use values::Fault;

/// Whether a term is a literal other than NULL, or a column that is nowhere Null in one of two classes.
fn is_filled(term: &Term, classes: KnownClasses<'_>, left: ClassId, right: ClassId) -> bool
    ensures { result ≡ spec.is_filled (spec.filled_columns (known classes.entry) left right) term.now }
{
    match term {
        Term::Column(column) => {
            classes.is_not_null(left, *column) || classes.is_not_null(right, *column)
        }
        Term::Literal(literal) => !literal.as_cell().is_null(),
    }
}

/// Whether a condition compares two such terms.
fn is_decided(
    condition: &Condition,
    classes: KnownClasses<'_>,
    left: ClassId,
    right: ClassId,
) -> bool
    ensures { result ≡ spec.is_decided (known classes.entry) left right condition.now }
{
    match condition {
        Condition::Compare(_, a, b) => {
            is_filled(a, classes, left, right) && is_filled(b, classes, left, right)
        }
        _ => false,
    }
}

/// The conditions that compare such terms, and the others.
fn split_decided(
    alloc: Global,
    conditions: &[Condition],
    classes: KnownClasses<'_>,
    left: ClassId,
    right: ClassId,
) -> Result<(Vec<Condition>, Vec<Condition>), AllocError>
    ensures { IfOk result (λ c. (c.0.items ≡ part (spec.is_decided (known classes.entry) left right) conditions.now) × (c.1.items ≡ rest (spec.is_decided (known classes.entry) left right) conditions.now)) }
{
    let mut decided = Vec::new(alloc);
    let mut others = Vec::new(alloc);
    for condition in conditions {
        if is_decided(condition, classes, left, right) {
            decided.push(condition.copy(alloc)?)?;
        } else {
            others.push(condition.copy(alloc)?)?;
        }
    }
    Ok((decided, others))
}

/// The conjuncts with those of further conditions.
fn with_more(
    alloc: Global,
    conjuncts: &Conjuncts,
    more: &[Condition],
) -> Result<Conjuncts, AllocError>
    ensures { IfOk result (λ c. c ≡ union conjuncts.now more.now) }
{
    let mut both = Vec::new(alloc);
    add_copies(alloc, conjuncts.as_slice(), &mut both)?;
    add_copies(alloc, more, &mut both)?;
    Conjuncts::of(alloc, both.as_slice())
}

/// The antijoin with some conditions moved from its null-aware ones to its ordinary ones.
fn moved(
    alloc: Global,
    ordinary: &Conjuncts,
    decided: &[Condition],
    others: &[Condition],
    left: ClassId,
    right: ClassId,
) -> Result<Shape, RuleFault>
    ensures { Gives (λ s. s) result (spec.moved ordinary.now decided.now others.now left right) }
{
    if decided.is_empty() {
        return Err(Fault::Refused(Unfit::Pattern));
    }
    let ordinary = with_more(alloc, ordinary, decided)?;
    let lists = (ordinary, Conjuncts::of(alloc, others)?);
    Ok(anti(alloc, lists, Shape::Class(left), Shape::Class(right))?)
}

/// The antijoin of the classes, with the null-aware conditions that are never unknown among the ordinary ones.
fn decided(
    alloc: Global,
    at: Match<'_>,
    ordinary: &Conjuncts,
    null_aware: &Conjuncts,
    left: ClassId,
    right: ClassId,
) -> Result<Shape, RuleFault>
    ensures { Gives (λ s. s) result (spec.decided (known at.entry.classes) ordinary.now null_aware.now left right) }
{
    let (decided, others) = split_decided(alloc, null_aware.as_slice(), at.classes, left, right)?;
    moved(
        alloc,
        ordinary,
        decided.as_slice(),
        others.as_slice(),
        left,
        right,
    )
}

/// A null-aware comparison of terms that are never Null asks of an antijoin's pairs what an ordinary one asks.
pub struct AntijoinOfFilled;

impl Rule for AntijoinOfFilled {
    const CODE: &'static str = "U5";

    ghost pattern = { spec.pattern };

    ghost gives = { spec.antijoin_of_filled };

    ghost promise = { spec.promise };

    fn pattern() -> Pattern {
        Pattern::One(Operators::Only(Operator::Anti))
    }

    fn apply(alloc: Global, at: Match<'_>) -> Result<Shape, RuleFault> {
        match at.one_line()? {
            Expr::Anti(ordinary, null_aware, a, b) => {
                decided(alloc, at, ordinary, null_aware, *a, *b)
            }
            _ => Err(Fault::Refused(Unfit::Pattern)),
        }
    }

    fn promise(_alloc: Global, _at: Match<'_>) -> Result<Promise, AllocError> {
        Ok(Promise::Simpler)
    }

    #[tactic(auto, using(crate::proofs::AntijoinOfFilled::antijoin_of_filled_sound))]
    fn is_sound() {}

    #[tactic(auto, using(crate::proofs::AntijoinOfFilled::antijoin_of_filled_keeps))]
    fn keeps_to_pattern() {}

    #[tactic(auto, using(crate::proofs::AntijoinOfFilled::antijoin_of_filled_formed))]
    fn is_formed() {}

    #[tactic(auto, using(crate::proofs::AntijoinOfFilled::antijoin_of_filled_stable))]
    fn is_stable() {}
}
