//! The columns that conditions mention.

ghost use Rattle.std.specs.Prelude.{◌≡◌, ◌==◌, ◌&&◌, not, ℕ, IfOk, OnOk};
ghost use Rattle.algebra.specs.Columns.{are_disjoint, has, columns_at, is_same_set, is_subset};
ghost use Rattle.algebra.specs.Conditions as reads;
ghost use Rattle.algebra.specs.ConjunctParts.{is_without};
ghost use Rattle.algebra.specs.GivenColumns.{HasAlso, given_columns, given_free};
ghost use Rattle.algebra.specs.Expressions as spec;

use crate::columns::{Columns, is_subset_of};
use crate::condition::{ClassId, Condition, Conjuncts, Term};
use query::ColumnId;
use std::alloc::{AllocError, Global};

/// The columns of classes and their free columns, by the classes' numbers.
#[derive(Clone, Copy)]
pub struct ClassColumns<'a> {
    pub columns: &'a [Columns],
    pub free: &'a [Columns],
}

impl<'a> ClassColumns<'a> {
    /// The columns of a class; none where the list has no class of this number.
    pub fn columns_of(self, class: ClassId) -> &'a [ColumnId]
        ensures { result.now ≡ given_columns self.entry class }
    {
        match self.columns.get(class as usize) {
            Some(columns) => columns.as_slice(),
            None => &[],
        }
    }

    /// Whether these are the columns of a class.
    pub fn are(self, class: ClassId, columns: &Columns) -> bool
        ensures { result ≡ is_same_set columns.now (given_columns self.entry class) }
    {
        self.has_all(class, columns.as_slice()) && is_subset_of(self.columns_of(class), columns)
    }

    /// Whether all of the columns are columns of a class.
    pub fn has_all(self, class: ClassId, columns: &[ColumnId]) -> bool
        ensures { result ≡ is_subset columns.now (given_columns self.entry class) }
    {
        columns.iter().all(|column| self.has(class, *column))
    }

    /// The free columns of a class; none where the list has no class of this number.
    fn free_of(self, class: ClassId) -> &'a [ColumnId]
        ensures { result.now ≡ columns_at self.entry.free.now class }
    {
        match self.free.get(class as usize) {
            Some(free) => free.as_slice(),
            None => &[],
        }
    }

    /// Whether the column is one of the class.
    pub fn has(self, class: ClassId, column: ColumnId) -> bool
        ensures { result ≡ has (given_columns self.entry class) column }
    {
        match self.columns.get(class as usize) {
            Some(columns) => columns.contains(column),
            None => false,
        }
    }

    /// Whether none of the columns is one of the class.
    fn has_none(self, class: ClassId, columns: &[ColumnId]) -> bool
        ensures { result ≡ are_disjoint columns.now (given_columns self.entry class) }
    {
        columns.iter().all(|column| !self.has(class, *column))
    }
}

/// Adds the column that a term reads, if it reads one.
pub fn add_term(term: &Term, mentioned: &mut Vec<ColumnId>) -> Result<(), AllocError>
    ensures { OnOk result (HasAlso mentioned.new.items mentioned.old.items (has (reads.term_columns term.now))) }
{
    if let Term::Column(column) = term {
        mentioned.push(*column)?;
    }
    Ok(())
}

/// Adds the free columns of a class.
fn add_free(
    classes: ClassColumns<'_>,
    class: ClassId,
    mentioned: &mut Vec<ColumnId>,
) -> Result<(), AllocError>
    ensures { OnOk result (HasAlso mentioned.new.items mentioned.old.items (given_free classes.entry class)) }
{
    mentioned.extend_from_slice(classes.free_of(class))?;
    Ok(())
}

/// Adds a column, unless the class has it.
fn add_lacking(
    classes: ClassColumns<'_>,
    class: ClassId,
    column: ColumnId,
    mentioned: &mut Vec<ColumnId>,
) -> Result<(), AllocError>
    ensures { OnOk result (HasAlso mentioned.new.items mentioned.old.items (λ k. (column == k) && not (has (given_columns classes.entry class) column))) }
{
    if !classes.has(class, column) {
        mentioned.push(column)?;
    }
    Ok(())
}

/// Adds the columns that a condition mentions.
#[cycle(mentions)]
fn add_mentioned(
    condition: &Condition,
    classes: ClassColumns<'_>,
    mentioned: &mut Vec<ColumnId>,
) -> Result<(), AllocError>
    ensures { OnOk result (HasAlso mentioned.new.items mentioned.old.items (reads.mentions condition.now (given_columns classes.entry) (given_free classes.entry))) }
{
    match condition {
        Condition::Compare(_, a, b) => {
            add_term(a, mentioned)?;
            add_term(b, mentioned)
        }
        Condition::IsNull(a) => add_term(a, mentioned),
        Condition::Not(part) => add_mentioned(part.get(), classes, mentioned),
        Condition::And(a, b, more) => {
            add_mentioned(a.get(), classes, mentioned)?;
            add_mentioned(b.get(), classes, mentioned)?;
            add_all_mentioned(more.as_slice(), classes, mentioned)
        }
        Condition::Or(a, b, more) => {
            add_mentioned(a.get(), classes, mentioned)?;
            add_mentioned(b.get(), classes, mentioned)?;
            add_all_mentioned(more.as_slice(), classes, mentioned)
        }
        Condition::Exists(class) => add_free(classes, *class, mentioned),
        Condition::In(a, class, column) => {
            add_term(a, mentioned)?;
            add_free(classes, *class, mentioned)?;
            add_lacking(classes, *class, *column, mentioned)
        }
    }
}

#[cycle(mentions)]
fn add_all_mentioned(
    conditions: &[Condition],
    classes: ClassColumns<'_>,
    mentioned: &mut Vec<ColumnId>,
) -> Result<(), AllocError>
    ensures { OnOk result (HasAlso mentioned.new.items mentioned.old.items (spec.mentioned (given_columns classes.entry) (given_free classes.entry) conditions.now)) }
{
    for condition in conditions {
        add_mentioned(condition, classes, mentioned)?;
    }
    Ok(())
}

impl Condition {
    /// Whether the condition mentions no column of a class.
    pub fn is_without(
        &self,
        alloc: Global,
        classes: ClassColumns<'_>,
        class: ClassId,
    ) -> Result<bool, AllocError>
        ensures { IfOk result (λ b. b ≡ is_without (given_columns classes.entry) (given_free classes.entry) (given_columns classes.entry class) self.now) }
    {
        let mut mentioned = Vec::new(alloc);
        add_mentioned(self, classes, &mut mentioned)?;
        Ok(classes.has_none(class, mentioned.as_slice()))
    }
}

impl Conjuncts {
    /// The columns that the conditions mention.
    pub fn mentioned(&self, alloc: Global, classes: ClassColumns<'_>) -> Result<Columns, AllocError>
        ensures { IfOk result (λ found. (k : ℕ) → has found k ≡ spec.mentioned (given_columns classes.entry) (given_free classes.entry) self.now k) }
    {
        let mut mentioned = Vec::new(alloc);
        add_all_mentioned(self.as_slice(), classes, &mut mentioned)?;
        Ok(Columns::from_vec(mentioned))
    }
}
