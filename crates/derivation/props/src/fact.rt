//! What is known of the rows of a class.

ghost use Rattle.std.specs.Prelude.{◌≡◌, nat_le, length, option_map, unwrap_or, IfOk, OnErr, OnOk};
ghost use Rattle.props.specs.Facts as spec;

use crate::keys::{Keys, append_both};
use algebra::Columns;
use query::ColumnId;
use std::alloc::{AllocError, Global};
use std::marker::Model;
use std::mem;

/// A fact of a class's rows, in every database that satisfies the schema and in every environment.
pub enum Fact {
    /// No row has Null in the column.
    NotNull(ColumnId),
    /// No two rows without Null in the columns agree on them.
    WeakKey(Columns),
    /// No two rows agree on the columns. Without columns: there is one row at most.
    StrongKey(Columns),
}

// By hand, so that where it is dropped is one call.
impl Drop for Fact {
    fn drop(self) {
        match self {
            Fact::NotNull(_) | Fact::WeakKey(_) | Fact::StrongKey(_) => {}
        }
    }
}

/// What is known of a class of which something is known.
pub struct FactSets {
    /// The columns that are nowhere Null.
    pub not_null: Columns,
    pub weak_keys: Keys,
    pub strong_keys: Keys,
}

// By hand, so that where it is dropped is one call.
impl Drop for FactSets {
    fn drop(self) {
        let FactSets {
            not_null: _,
            weak_keys: _,
            strong_keys: _,
        } = self;
    }
}

/// The facts that are known of a class, as one `FactSets`. They stand in a block of their own, which a class of which nothing is known
/// doesn't have.
pub struct Facts {
    sets: Option<Box<FactSets>>,
}

// By hand, so that where it is dropped is one call.
impl Drop for Facts {
    fn drop(self) {
        let Facts { sets: _ } = self;
    }
}

impl Model for Facts {
    ghost use Rattle.props.specs.declared.fact.FactSets.{FactSets};
    ghost use Rattle.props.specs.Facts.{facts_in};

    ghost Value = { FactSets };

    ghost view = { λ f. facts_in f.sets };
}

impl FactSets {
    /// Nothing is known.
    fn none(alloc: Global) -> FactSets
        ensures { result ≡ spec.no_facts }
    {
        FactSets {
            not_null: Columns::from_vec(Vec::new(alloc)),
            weak_keys: Keys::none(),
            strong_keys: Keys::none(),
        }
    }

    /// Whether a fact is known.
    fn knows(&self, fact: &Fact) -> bool
        ensures { result ≡ spec.knows self.now fact.now }
    {
        match fact {
            Fact::NotNull(column) => self.not_null.contains(*column),
            Fact::WeakKey(key) => self.weak_keys.contains(key.as_slice()),
            Fact::StrongKey(key) => self.strong_keys.contains(key.as_slice()),
        }
    }

    /// Adds a fact, of which a copy is made if it is new.
    fn learn(&mut self, alloc: Global, fact: &Fact) -> Result<(), AllocError>
        ensures learnt { OnOk result (self.new ≡ spec.with_fact self.old fact.now) }
        ensures refused { OnErr result (self.new ≡ self.old) }
    {
        match fact {
            Fact::NotNull(column) => {
                if !self.not_null.as_slice().contains(column) {
                    self.not_null = self
                        .not_null
                        .union(alloc, &Columns::run(alloc, *column, 1)?)?;
                }
                Ok(())
            }
            Fact::WeakKey(key) => self.weak_keys.insert(alloc, key.as_slice()),
            Fact::StrongKey(key) => self.strong_keys.insert(alloc, key.as_slice()),
        }
    }

    /// Moves the facts of another class here. Where there is no memory, both keep theirs.
    fn learn_all(&mut self, alloc: Global, others: &mut FactSets) -> Result<(), AllocError>
        ensures learnt { OnOk result (self.new ≡ spec.with_facts self.old others.old) }
        ensures refused { OnErr result ((self.new ≡ self.old) × (others.new ≡ others.old)) }
    {
        let not_null = self.not_null.union(alloc, &others.not_null)?;
        append_both(
            &mut self.weak_keys,
            &mut others.weak_keys,
            &mut self.strong_keys,
            &mut others.strong_keys,
        )?;
        self.not_null = not_null;
        Ok(())
    }

    /// How many keys are known.
    fn key_count(&self) -> usize {
        self.weak_keys.len().saturating_add(self.strong_keys.len())
    }

    /// With nothing, before or behind them, they stay the same: a law of sets in order.
    fn stay_with_nothing(&self)
        ensures behind { spec.with_facts self.now spec.no_facts ≡ self.now }
        ensures before { spec.with_facts spec.no_facts self.now ≡ self.now }
    {
        let _not_null = self.not_null.as_slice();
        self.weak_keys.are_in_order();
        self.strong_keys.are_in_order();
    }
}

impl Facts {
    /// Nothing is known.
    pub fn none() -> Facts
        ensures { result ≡ spec.no_facts }
    {
        Facts { sets: None }
    }

    /// What is known, if something is.
    pub(crate) fn sets(&self) -> Option<&FactSets>
        ensures { unwrap_or (option_map (λ f. f.now) result) spec.no_facts ≡ self.now }
    {
        match &self.sets {
            Some(sets) => Some(&**sets),
            None => None,
        }
    }

    /// Whether the rows have a strong key.
    pub fn has_strong_key(&self) -> bool
        ensures { result ≡ spec.has_strong_key self.now }
    {
        match self.sets() {
            Some(sets) => !sets.strong_keys.is_empty(),
            None => false,
        }
    }

    /// Whether a fact is known.
    pub fn knows(&self, fact: &Fact) -> bool
        ensures { result ≡ spec.knows self.now fact.now }
    {
        match self.sets() {
            Some(sets) => sets.knows(fact),
            None => false,
        }
    }

    /// How many keys are known.
    pub fn key_count(&self) -> usize {
        match self.sets() {
            Some(sets) => sets.key_count(),
            None => 0,
        }
    }
}

/// The facts in a block of their own, with one more.
fn first_fact(alloc: Global, fact: &Fact) -> Result<Box<FactSets>, AllocError>
    ensures { IfOk result (λ sets. sets.value ≡ spec.with_fact spec.no_facts fact.now) }
{
    let mut sets = FactSets::none(alloc);
    sets.learn(alloc, fact)?;
    Ok(Box::new(alloc, sets)?)
}

impl Facts {
    /// Adds a fact, of which a copy is made if it is new.
    pub fn learn(&mut self, alloc: Global, fact: &Fact) -> Result<(), AllocError>
        ensures learnt { OnOk result (self.new ≡ spec.with_fact self.old fact.now) }
        ensures refused { OnErr result (self.new ≡ self.old) }
    {
        match &mut self.sets {
            Some(sets) => sets.learn(alloc, fact)?,
            None => self.sets = Some(first_fact(alloc, fact)?),
        }
        Ok(())
    }

    /// Moves the facts of another class here. Where there is no memory, both keep theirs.
    pub fn learn_all(&mut self, alloc: Global, others: &mut Facts) -> Result<(), AllocError>
        ensures learnt { OnOk result (self.new ≡ spec.with_facts self.old others.old) }
        ensures refused { OnErr result ((self.new ≡ self.old) × (others.new ≡ others.old)) }
    {
        match (&mut self.sets, &mut others.sets) {
            (Some(own), Some(more)) => own.learn_all(alloc, more),
            (Some(own), None) => {
                own.stay_with_nothing();
                Ok(())
            }
            (None, Some(more)) => {
                more.stay_with_nothing();
                mem::swap(&mut self.sets, &mut others.sets);
                Ok(())
            }
            (None, None) => Ok(()),
        }
    }
}

impl Fact {
    /// The number of columns of which it speaks.
    fn size(&self) -> usize
        ensures { result ≡ length (spec.fact_columns self.now) }
    {
        match self {
            Fact::NotNull(_) => 1,
            Fact::WeakKey(key) | Fact::StrongKey(key) => key.as_slice().len(),
        }
    }

    /// Whether it speaks of four columns at most.
    pub fn is_short(&self) -> bool
        ensures { result ≡ nat_le (length (spec.fact_columns self.now)) 4 }
    {
        self.size() <= 4
    }
}
