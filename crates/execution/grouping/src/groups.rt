//! Groups and distinct rows of a relation.

ghost use Rattle.std.specs.Prelude.{◌≡◌, ◌++◌, ◌<◌, ℕ, [], ◌∷◌, length, map, IfOk};
ghost use Rattle.algebra.specs.Bags as bags;
ghost use Rattle.algebra.specs.Columns.{has, rising};
ghost use Rattle.algebra.specs.Expressions as expressions;
ghost use Rattle.physical.specs.declared.plan.GroupMethod.TheVariants as by;
ghost use Rattle.physical.specs.Origins.{AreReadable};
ghost use Rattle.relations.specs.MadeColumns.{made_values};
ghost use Rattle.relations.specs.Relations.{IsOutput, env_of, numbered_env, rows_of};
ghost use Rattle.relations.specs.RowColumns.{column_value};
ghost use Rattle.grouping.specs.Groups.{AreTogether, group_envs};
ghost use Rattle.grouping.specs.Grouped.{groups_in};

use crate::aggregates::aggregate_column;
use crate::row_groups::Groups;
use crate::totals::Totals;
use algebra::{Aggregation, Columns};
use physical::GroupMethod;
use query::ColumnId;
use relations::{Env, MadeColumn, Part, Relation, RowColumn, row_column};
use std::alloc::{AllocError, Global};

/// One of each row, as first seen. By the method sorted, those that are the same stand together.
pub fn distinct<'t>(
    alloc: Global,
    method: GroupMethod,
    input: Relation<'t>,
) -> Result<Relation<'t>, AllocError>
    requires { method ≡ by.Sorted → AreTogether input.heading.columns input }
    ensures { (e : bags.Env) → IfOk result (IsOutput input.entry.heading.columns (bags.distinct input.entry.heading.columns (rows_of input.entry) e) e) }
{
    let firsts = distinct_numbers(alloc, method, &input)?;
    input.chosen(alloc, firsts.as_slice())
}

/// The numbers of the rows that were seen first of those that are the same.
fn distinct_numbers(
    alloc: Global,
    method: GroupMethod,
    input: &Relation<'_>,
) -> Result<Vec<usize>, AllocError>
    requires { method ≡ by.Sorted → AreTogether input.now.heading.columns input.now }
    ensures { (e : bags.Env) → IfOk result (λ firsts. map (numbered_env input.now e) firsts.items ≡ bags.distinct_on input.now.heading.columns (rows_of input.now e)) }
{
    let heading = &input.heading;
    let places = heading.places_of(alloc, heading.columns.as_slice())?;
    let groups = Groups::new(alloc, method, input, places)?;
    groups.into_firsts(alloc)
}

/// How rows are grouped: by which columns, and with which aggregates.
#[derive(Clone, Copy)]
pub struct Grouping<'a> {
    pub keys: &'a Columns,
    pub added: &'a [Aggregation],
}

/// A column of the groups: an aggregate, or else as the first row of each has it.
fn group_column<'t>(
    alloc: Global,
    grouping: Grouping<'_>,
    groups: &Groups<'_, 't>,
    env: &Env<'_, 't>,
    column: ColumnId,
) -> Result<MadeColumn<'t>, AllocError>
    requires { AreReadable grouping.added.now (rows_of groups.now.input.now (env_of env.now)) }
    ensures { IfOk result (λ made. made_values made ≡ map (λ f. f column) (group_envs grouping.entry groups.now.input.now (env_of env.now) (groups_in groups.now))) }
{
    for added in grouping.added {
        if added.column == column {
            return aggregate_column(alloc, groups, env, added.aggregate);
        }
    }
    first_column(alloc, grouping, groups, env, column)
}

/// A column as the first row of each group has it.
fn first_column<'t>(
    alloc: Global,
    grouping: Grouping<'_>,
    groups: &Groups<'_, 't>,
    env: &Env<'_, 't>,
    column: ColumnId,
) -> Result<MadeColumn<'t>, AllocError>
    ensures { IfOk result (λ made. made_values made ≡ map (λ group. bags.lay (has grouping.entry.keys.now) (numbered_env groups.now.input.now (env_of env.now) group.first) (env_of env.now) column) (groups_in groups.now)) }
{
    let mut made = MadeColumn::with_capacity(alloc, groups.firsts.len())?;
    let values = key_column(grouping, groups.input, env, column);
    for group in 0..groups.firsts.len() {
        made.push(alloc, values.cell(groups.firsts.number(group)))?;
    }
    Ok(made)
}

/// A column as the rows have it, if it is a key, and else as the environment has it.
fn key_column<'p, 't>(
    grouping: Grouping<'_>,
    input: &'p Relation<'t>,
    env: &Env<'_, 't>,
    column: ColumnId,
) -> RowColumn<'p, 't>
    ensures { (n : ℕ) → column_value result n ≡ bags.lay (has grouping.entry.keys.now) (numbered_env input.now (env_of env.now) n) (env_of env.now) column }
{
    if grouping.keys.contains(column) {
        row_column(input, env, column)
    } else {
        RowColumn::Known(env.column(column))
    }
}

/// The columns of the groups.
fn group_parts<'t>(
    alloc: Global,
    grouping: Grouping<'_>,
    groups: &Groups<'_, 't>,
    env: &Env<'_, 't>,
    columns: &[ColumnId],
) -> Result<Vec<Part<'t>>, AllocError>
    requires { AreReadable grouping.added.now (rows_of groups.now.input.now (env_of env.now)) }
    ensures { IfOk result (λ parts. parts.items ≡ map (λ c. map (λ f. f c ∷ []) (group_envs grouping.entry groups.now.input.now (env_of env.now) (groups_in groups.now))) columns.now) }
{
    let mut parts = Vec::with_capacity(alloc, columns.len())?;
    for column in columns {
        let made = group_column(alloc, grouping, groups, env, *column)?;
        parts.push(Part::of_column(made))?;
    }
    Ok(parts)
}

/// The rows of the groups, as their keys were first seen.
fn rows_of_groups<'t>(
    alloc: Global,
    method: GroupMethod,
    grouping: Grouping<'_>,
    columns: Columns,
    input: &Relation<'t>,
    env: &Env<'_, 't>,
) -> Result<Relation<'t>, AllocError>
    requires read { AreReadable grouping.added.now (rows_of input.now (env_of env.now)) }
    requires keyed { 0 < length grouping.keys.now }
    requires together { method ≡ by.Sorted → AreTogether grouping.keys.now input.now }
    ensures { IfOk result (IsOutput columns (map (λ f. bags.lay (has columns) f (env_of env.now)) (bags.group grouping.entry.keys.now (expressions.with_aggregates grouping.entry.added.now) (rows_of input.now) (env_of env.now))) (env_of env.now)) }
{
    let places = input.heading.places_of(alloc, grouping.keys.as_slice())?;
    let groups = Groups::new(alloc, method, input, places)?;
    let parts = group_parts(alloc, grouping, &groups, env, columns.as_slice())?;
    Relation::made(alloc, columns, groups.firsts.len(), parts)
}

/// One row for each different key, as first seen, with its aggregates; without keys one row. By the method sorted, rows with the same
/// key stand together.
pub fn grouped<'g, 't>(
    alloc: Global,
    method: GroupMethod,
    keys: &'g Columns,
    added: &'g [Aggregation],
    input: &Relation<'t>,
    env: &Env<'_, 't>,
) -> Result<Relation<'t>, AllocError>
    requires read { AreReadable added.now (rows_of input.now (env_of env.now)) }
    requires together { method ≡ by.Sorted → AreTogether keys.now input.now }
    ensures { IfOk result (IsOutput (rising (keys.entry.now ++ expressions.aggregate_columns added.entry.now)) (bags.group keys.entry.now (expressions.with_aggregates added.entry.now) (rows_of input.now) (env_of env.now)) (env_of env.now)) }
{
    let grouping = Grouping { keys, added };
    let columns = Columns::of_groups(alloc, keys, added)?;
    if keys.as_slice().len() == 0 {
        let mut totals = Totals::new(alloc, added)?;
        totals.add(added, input, env);
        totals.row(alloc, added, columns, env)
    } else {
        rows_of_groups(alloc, method, grouping, columns, input, env)
    }
}
