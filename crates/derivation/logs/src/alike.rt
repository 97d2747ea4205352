//! Expressions that are alike up to which classes are the same.

ghost use Rattle.std.specs.Prelude.{◌≡◌, map, IfOk};
ghost use Rattle.algebra.specs.Alike as spec;
ghost use Rattle.algebra.specs.Equality.{same_expr};
ghost use Rattle.props.specs.Knowledge.{known};

use algebra::{Condition, Conjuncts, Expr};
use props::KnownClasses;
use std::alloc::{AllocError, Global};
use values::{Boxed, Items};

/// The condition with the root of each class that it names.
#[cycle(rooted)]
#[tactic(auto, using(crate::proofs::Equations::rooted_Compare, crate::proofs::Equations::rooted_IsNull, crate::proofs::Equations::rooted_Not, crate::proofs::Equations::rooted_And, crate::proofs::Equations::rooted_Or, crate::proofs::Equations::rooted_Exists, crate::proofs::Equations::rooted_In))]
fn rooted_condition(
    alloc: Global,
    condition: &Condition,
    classes: KnownClasses<'_>,
) -> Result<Condition, AllocError>
    ensures { IfOk result (λ c. c ≡ spec.rooted_condition (known classes.entry).root condition.now) }
{
    match condition {
        Condition::Compare(by, a, b) => Ok(Condition::Compare(*by, a.copy(alloc)?, b.copy(alloc)?)),
        Condition::IsNull(a) => Ok(Condition::IsNull(a.copy(alloc)?)),
        Condition::Not(c) => Ok(Condition::Not(rooted_part(alloc, c, classes)?)),
        Condition::And(a, b, more) => Ok(Condition::And(
            rooted_part(alloc, a, classes)?,
            rooted_part(alloc, b, classes)?,
            rooted_conditions(alloc, more.as_slice(), classes)?,
        )),
        Condition::Or(a, b, more) => Ok(Condition::Or(
            rooted_part(alloc, a, classes)?,
            rooted_part(alloc, b, classes)?,
            rooted_conditions(alloc, more.as_slice(), classes)?,
        )),
        Condition::Exists(g) => Ok(Condition::Exists(classes.root(*g))),
        Condition::In(a, g, k) => Ok(Condition::In(a.copy(alloc)?, classes.root(*g), *k)),
    }
}

#[cycle(rooted)]
fn rooted_part(
    alloc: Global,
    part: &Boxed<Condition>,
    classes: KnownClasses<'_>,
) -> Result<Boxed<Condition>, AllocError>
    ensures { IfOk result (λ c. c ≡ spec.rooted_condition (known classes.entry).root part.now) }
{
    Boxed::new(alloc, rooted_condition(alloc, part.get(), classes)?)
}

#[cycle(rooted)]
fn rooted_conditions(
    alloc: Global,
    conditions: &[Condition],
    classes: KnownClasses<'_>,
) -> Result<Items<Condition>, AllocError>
    ensures { IfOk result (λ cs. cs ≡ map (spec.rooted_condition (known classes.entry).root) conditions.now) }
{
    let mut rooted = Items::new(alloc);
    for condition in conditions {
        rooted.push(rooted_condition(alloc, condition, classes)?)?;
    }
    Ok(rooted)
}

/// The conjuncts with roots, in order again.
fn rooted_conjuncts(
    alloc: Global,
    conjuncts: &Conjuncts,
    classes: KnownClasses<'_>,
) -> Result<Conjuncts, AllocError>
    ensures { IfOk result (λ c. c ≡ spec.rooted_conjuncts (known classes.entry).root conjuncts.now) }
{
    Conjuncts::of(
        alloc,
        rooted_conditions(alloc, conjuncts.as_slice(), classes)?.as_slice(),
    )
}

/// The expression with the root of each class that it names.
fn rooted(alloc: Global, expr: &Expr, classes: KnownClasses<'_>) -> Result<Expr, AllocError>
    ensures { IfOk result (λ x. x ≡ spec.rooted (known classes.entry).root expr.now) }
{
    match expr {
        Expr::Get(o) => Ok(Expr::Get(*o)),
        Expr::Select(c, x) => Ok(Expr::Select(
            rooted_conjuncts(alloc, c, classes)?,
            classes.root(*x),
        )),
        Expr::Join(c, a, b) => Ok(Expr::Join(
            rooted_conjuncts(alloc, c, classes)?,
            classes.root(*a),
            classes.root(*b),
        )),
        Expr::LeftJoin(c, a, b) => Ok(Expr::LeftJoin(
            rooted_conjuncts(alloc, c, classes)?,
            classes.root(*a),
            classes.root(*b),
        )),
        Expr::Semi(c, a, b) => Ok(Expr::Semi(
            rooted_conjuncts(alloc, c, classes)?,
            classes.root(*a),
            classes.root(*b),
        )),
        Expr::Anti(ordinary, null_aware, a, b) => Ok(Expr::Anti(
            rooted_conjuncts(alloc, ordinary, classes)?,
            rooted_conjuncts(alloc, null_aware, classes)?,
            classes.root(*a),
            classes.root(*b),
        )),
        Expr::Keep(k, x) => Ok(Expr::Keep(k.copy(alloc)?, classes.root(*x))),
        Expr::Distinct(x) => Ok(Expr::Distinct(classes.root(*x))),
        Expr::Group(k, added, x) => Ok(Expr::Group(
            k.copy(alloc)?,
            added.copy(alloc)?,
            classes.root(*x),
        )),
    }
}

/// Whether two expressions are alike: equal with the root of each class that they name.
pub fn are_alike(
    alloc: Global,
    expr: &Expr,
    other: &Expr,
    classes: KnownClasses<'_>,
) -> Result<bool, AllocError>
    ensures { IfOk result (λ alike. alike ≡ same_expr (spec.rooted (known classes.entry).root expr.now) (spec.rooted (known classes.entry).root other.now)) }
{
    let first = rooted(alloc, expr, classes)?;
    let second = rooted(alloc, other, classes)?;
    Ok(first.same(&second))
}
