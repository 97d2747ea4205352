//! The columns that conditions mention, over classes of which readings are known.

ghost use Rattle.std.specs.Prelude.{◌≡◌, ◌==◌, ◌&&◌, not, ℕ, [], option_map, OnOk};
ghost use Rattle.algebra.specs.Columns.{has};
ghost use Rattle.algebra.specs.Conditions as reads;
ghost use Rattle.algebra.specs.Expressions as spec;
ghost use Rattle.algebra.specs.GivenColumns.{HasAlso};
ghost use Rattle.plan_reads.specs.Readings.{class_columns, class_free, given};

use crate::readings::Reading;
use algebra::{ClassId, Condition, add_term};
use query::ColumnId;
use std::alloc::{AllocError, Global};

/// The classes that conditions name, and what is known of the rows of each.
#[derive(Clone, Copy)]
pub(crate) struct Subqueries<'a> {
    pub classes: &'a [ClassId],
    pub readings: &'a [Reading],
}

/// What is known of a class; nothing where it is not among the classes.
fn reading_of<'a>(
    classes: &[ClassId],
    readings: &'a [Reading],
    class: ClassId,
) -> Option<&'a Reading>
    ensures { option_map (λ r. r.now) result ≡ given classes.now readings.entry.now class }
{
    let [first, classes @ ..] = classes else {
        return None;
    };
    let [reading, readings @ ..] = readings else {
        return None;
    };
    if *first == class {
        Some(reading)
    } else {
        reading_of(classes, readings, class)
    }
}

impl<'a> Subqueries<'a> {
    /// No class is known.
    pub fn none() -> Subqueries<'a>
        ensures classes { result.classes.now ≡ [] }
        ensures readings { result.readings.now ≡ [] }
    {
        Subqueries {
            classes: &[],
            readings: &[],
        }
    }

    /// Adds the free columns of a class.
    fn add_free(self, class: ClassId, mentioned: &mut Vec<ColumnId>) -> Result<(), AllocError>
        ensures { OnOk result (HasAlso mentioned.new.items mentioned.old.items (class_free self.entry.classes.now self.entry.readings.now class)) }
    {
        if let Some(reading) = reading_of(self.classes, self.readings, class) {
            mentioned.extend_from_slice(reading.free.as_slice())?;
        }
        Ok(())
    }

    /// Whether the column is one of the class.
    fn has(self, class: ClassId, column: ColumnId) -> bool
        ensures { result ≡ has (class_columns self.entry.classes.now self.entry.readings.now class) column }
    {
        match reading_of(self.classes, self.readings, class) {
            Some(reading) => reading.columns.contains(column),
            None => false,
        }
    }

    /// Adds a column, unless the class has it.
    fn add_lacking(
        self,
        class: ClassId,
        column: ColumnId,
        mentioned: &mut Vec<ColumnId>,
    ) -> Result<(), AllocError>
        ensures { OnOk result (HasAlso mentioned.new.items mentioned.old.items (λ k. (column == k) && not (has (class_columns self.entry.classes.now self.entry.readings.now class) column))) }
    {
        if !self.has(class, column) {
            mentioned.push(column)?;
        }
        Ok(())
    }
}

/// Adds the columns that a condition mentions.
#[cycle(mentions)]
fn add_mentioned(
    condition: &Condition,
    subqueries: Subqueries<'_>,
    mentioned: &mut Vec<ColumnId>,
) -> Result<(), AllocError>
    ensures { OnOk result (HasAlso mentioned.new.items mentioned.old.items (reads.mentions condition.now (class_columns subqueries.entry.classes.now subqueries.entry.readings.now) (class_free subqueries.entry.classes.now subqueries.entry.readings.now))) }
{
    match condition {
        Condition::Compare(_, a, b) => {
            add_term(a, mentioned)?;
            add_term(b, mentioned)
        }
        Condition::IsNull(a) => add_term(a, mentioned),
        Condition::Not(part) => add_mentioned(part.get(), subqueries, mentioned),
        Condition::And(a, b, more) => {
            add_mentioned(a.get(), subqueries, mentioned)?;
            add_mentioned(b.get(), subqueries, mentioned)?;
            add_all_mentioned(more.as_slice(), subqueries, mentioned)
        }
        Condition::Or(a, b, more) => {
            add_mentioned(a.get(), subqueries, mentioned)?;
            add_mentioned(b.get(), subqueries, mentioned)?;
            add_all_mentioned(more.as_slice(), subqueries, mentioned)
        }
        Condition::Exists(class) => subqueries.add_free(*class, mentioned),
        Condition::In(a, class, column) => {
            add_term(a, mentioned)?;
            subqueries.add_free(*class, mentioned)?;
            subqueries.add_lacking(*class, *column, mentioned)
        }
    }
}

/// Adds the columns that conditions mention.
#[cycle(mentions)]
pub(crate) fn add_all_mentioned(
    conditions: &[Condition],
    subqueries: Subqueries<'_>,
    mentioned: &mut Vec<ColumnId>,
) -> Result<(), AllocError>
    ensures { OnOk result (HasAlso mentioned.new.items mentioned.old.items (spec.mentioned (class_columns subqueries.entry.classes.now subqueries.entry.readings.now) (class_free subqueries.entry.classes.now subqueries.entry.readings.now) conditions.now)) }
{
    for condition in conditions {
        add_mentioned(condition, subqueries, mentioned)?;
    }
    Ok(())
}
