//! Conditions on rows.

ghost use Rattle.std.specs.Prelude.{◌≡◌, ◌↔◌, [], IfOk, IsTrue};
ghost use Rattle.algebra.specs.ConjunctOrder.{AreConjuncts};
ghost use Rattle.algebra.specs.ConditionEquality.{same_conditions};

use query::ColumnId;
use std::alloc::{AllocError, Global};
use std::marker::Model;
use values::{Boxed, Comparison, Items, Literal, same};

/// The number of a line of a derivation, from 0.
pub type LineId = u32;

/// The number of a class: that of the line that founds it.
pub type ClassId = LineId;

#[derive(Drop)]
pub enum Term {
    /// A column, read in the row or else in the environment around it.
    Column(ColumnId),
    Literal(Literal),
}

/// A condition. Its subqueries are classes, whose rows are taken in the environment overlaid with the row. AND and OR have at
/// least two parts.
#[derive(Drop)]
pub enum Condition {
    Compare(Comparison, Term, Term),
    IsNull(Term),
    Not(Boxed<Condition>),
    And(Boxed<Condition>, Boxed<Condition>, Items<Condition>),
    Or(Boxed<Condition>, Boxed<Condition>, Items<Condition>),
    /// Whether the class has a row.
    Exists(ClassId),
    /// Whether the term is among the values of a column of a class: `In(term, class, column)`.
    In(Term, ClassId, ColumnId),
}

/// Conditions that must all be true: none is an AND, and they stand in rising order of their texts, each once.
pub struct Conjuncts {
    conditions: Items<Condition>,
}

// By hand, so that crates above drop conjuncts by one call.
impl Drop for Conjuncts {
    fn drop(self) {
        let Conjuncts { conditions: _ } = self;
    }
}

impl Model for Conjuncts {
    ghost use Rattle.std.specs.Prelude.{List};
    ghost use Rattle.algebra.specs.declared.condition.Condition.{Condition};

    ghost Value = { List Condition };

    ghost use Rattle.algebra.specs.contracts.condition.Condition as e;
    ghost use Rattle.std.specs.Coded.{codes};

    ghost coded = { Prim.hlevel (codes, e.the_row.coded) };

    ghost view = { λ c. c.conditions };

    ghost use Rattle.algebra.specs.ConjunctOrder.{AreConjuncts};

    ghost invariant = { λ c. AreConjuncts c.conditions };
}

impl Conjuncts {
    pub fn none(alloc: Global) -> Conjuncts
        ensures { result ≡ [] }
    {
        Conjuncts {
            conditions: Items::new(alloc),
        }
    }

    pub(crate) fn from_items(conditions: Items<Condition>) -> Conjuncts
        requires { AreConjuncts conditions }
        ensures { result ≡ conditions }
    {
        Conjuncts { conditions }
    }

    pub fn as_slice(&self) -> &[Condition]
        ensures conditions { result.now ≡ self.now }
        ensures conjuncts { AreConjuncts self.now }
    {
        self.conditions.as_slice()
    }

    pub fn same(&self, other: &Conjuncts) -> bool
        ensures equal { IsTrue result ↔ (self.now ≡ other.now) }
        ensures test { result ≡ same_conditions self.now other.now }
    {
        same_all(self.as_slice(), other.as_slice())
    }

    pub fn copy(&self, alloc: Global) -> Result<Conjuncts, AllocError>
        ensures { IfOk result (λ c. c ≡ self.now) }
    {
        Ok(Conjuncts {
            conditions: copy_all(alloc, self.as_slice())?,
        })
    }
}

impl Term {
    pub fn same(&self, other: &Term) -> bool
        ensures { IsTrue result ↔ (self.now ≡ other.now) }
    {
        match (self, other) {
            (Term::Column(k), Term::Column(l)) => *k == *l,
            (Term::Literal(v), Term::Literal(w)) => same(v.as_cell(), w.as_cell()),
            _ => false,
        }
    }

    pub fn copy(&self, alloc: Global) -> Result<Term, AllocError>
        ensures { IfOk result (λ t. t ≡ self.now) }
    {
        match self {
            Term::Column(k) => Ok(Term::Column(*k)),
            Term::Literal(v) => Ok(Term::Literal(v.copy(alloc)?)),
        }
    }
}

impl Condition {
    #[cycle(same)]
    pub fn same(&self, other: &Condition) -> bool
        ensures { IsTrue result ↔ (self.now ≡ other.now) }
    {
        match (self, other) {
            (Condition::Compare(c, a, b), Condition::Compare(d, s, t)) => *c == *d
                && a.same(s)
                && b.same(t),
            (Condition::IsNull(a), Condition::IsNull(s)) => a.same(s),
            (Condition::Not(c), Condition::Not(d)) => c.get().same(d.get()),
            (Condition::And(a, b, cs), Condition::And(s, t, ds)) => a.get().same(s.get())
                && b.get().same(t.get())
                && same_all(cs.as_slice(), ds.as_slice()),
            (Condition::Or(a, b, cs), Condition::Or(s, t, ds)) => a.get().same(s.get())
                && b.get().same(t.get())
                && same_all(cs.as_slice(), ds.as_slice()),
            (Condition::Exists(g), Condition::Exists(h)) => *g == *h,
            (Condition::In(a, g, k), Condition::In(s, h, l)) => a.same(s) && *g == *h && *k == *l,
            _ => false,
        }
    }

    #[cycle(copy)]
    pub fn copy(&self, alloc: Global) -> Result<Condition, AllocError>
        ensures { IfOk result (λ c. c ≡ self.now) }
    {
        match self {
            Condition::Compare(c, a, b) => Ok(Condition::Compare(
                *c,
                a.copy(alloc)?,
                b.copy(alloc)?,
            )),
            Condition::IsNull(a) => Ok(Condition::IsNull(a.copy(alloc)?)),
            Condition::Not(c) => Ok(Condition::Not(copy_boxed(alloc, c)?)),
            Condition::And(a, b, cs) => Ok(Condition::And(
                copy_boxed(alloc, a)?,
                copy_boxed(alloc, b)?,
                copy_all(alloc, cs.as_slice())?,
            )),
            Condition::Or(a, b, cs) => Ok(Condition::Or(
                copy_boxed(alloc, a)?,
                copy_boxed(alloc, b)?,
                copy_all(alloc, cs.as_slice())?,
            )),
            Condition::Exists(g) => Ok(Condition::Exists(*g)),
            Condition::In(a, g, k) => Ok(Condition::In(a.copy(alloc)?, *g, *k)),
        }
    }
}

#[cycle(same)]
fn same_all(conditions: &[Condition], others: &[Condition]) -> bool
    ensures { IsTrue result ↔ (conditions.now ≡ others.now) }
{
    if conditions.len() != others.len() {
        return false;
    }
    for i in 0..conditions.len() {
        if !conditions[i].same(&others[i]) {
            return false;
        }
    }
    true
}

#[cycle(copy)]
fn copy_boxed(alloc: Global, condition: &Boxed<Condition>) -> Result<Boxed<Condition>, AllocError>
    ensures { IfOk result (λ copied. copied ≡ condition.now) }
{
    Boxed::new(alloc, condition.get().copy(alloc)?)
}

#[cycle(copy)]
fn copy_all(alloc: Global, conditions: &[Condition]) -> Result<Items<Condition>, AllocError>
    ensures { IfOk result (λ copied. copied ≡ conditions.now) }
{
    let mut copied = Vec::with_capacity(alloc, conditions.len())?;
    for condition in conditions {
        copied.push(condition.copy(alloc)?)?;
    }
    Ok(Items::from_vec(copied))
}
