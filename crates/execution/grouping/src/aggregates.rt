//! Aggregates of rows that come one by one.

ghost use Rattle.std.specs.Prelude.{◌≡◌, ◌+◌, ◌*◌, ◌^◌, ◌<◌, ◌≤◌, ℕ, List, [], ◌∷◌, length, map, IfOk, OnOk};
ghost use Rattle.std.specs.List.{AllByRecursion};
ghost use Rattle.values.specs.declared.value.Value.{Value};
ghost use Rattle.values.specs.Cells.{value_of};
ghost use Rattle.query.specs.Aggregates as spec;
ghost use Rattle.grouping.specs.Groups.{AreAfter, GroupOf, added_at, group_values, member_envs};
ghost use Rattle.grouping.specs.Grouped.{groups_in};
ghost use Rattle.query.specs.Running.{IsAfter};
ghost use Rattle.relations.specs.MadeColumns.{made_values};
ghost use Rattle.relations.specs.Relations.{env_of, rows_of};

use crate::row_groups::Groups;
use query::Aggregate;
use query::aggregates::{Running, column_of, one_more};
use relations::{Env, MadeColumn, row_column};
use std::alloc::{AllocError, Global};
use values::Cell;

/// An aggregate of one value.
fn running_of<'t>(of: Aggregate, cell: Cell<'t>) -> Running<'t>
    requires { spec.MayRead of (λ place. value_of cell) }
    ensures { IsAfter of (value_of cell.entry ∷ []) result }
{
    let mut running = Running::new(of);
    running.add(cell);
    running
}

/// Takes the value of one row more into the aggregate of the group with this number, which it founds where there is none.
pub fn add_to_group<'t>(
    running: &mut Vec<Running<'t>>,
    group: usize,
    of: Aggregate,
    cell: Cell<'t>,
) -> Result<(), AllocError>
    requires few { AllByRecursion (λ r. (r.of ≡ of) × (r.rows + 1 < 2 ^ 64)) running.old.items }
    requires read { spec.MayRead of (λ place. value_of cell) }
    ensures { (value : ℕ → Value) (groups : List (GroupOf ℕ)) (n : ℕ) → value_of cell.entry ≡ value n → AreAfter of value groups running.old.items → OnOk result (AreAfter of value (added_at group n groups) running.new.items) }
{
    if group < running.len() {
        running[group].add(cell);
        return Ok(());
    }
    running.push(running_of(of, cell))?;
    Ok(())
}

/// Takes the value of a row with so many rows before it into the aggregate of the group with this number, which it founds where there is none.
fn add_to_column<'t>(
    alloc: Global,
    so_far: &mut MadeColumn<'t>,
    group: usize,
    of: Aggregate,
    cell: Cell<'t>,
    rows: usize,
) -> Result<(), AllocError>
    requires few { rows + 1 < 2 ^ 64 }
    requires small { AllByRecursion (λ v. spec.size_of of v ≤ rows * 2 ^ 63) (made_values so_far.old) }
    requires read { spec.MayRead of (λ place. value_of cell) }
    ensures { (value : ℕ → Value) (groups : List (GroupOf ℕ)) (n : ℕ) → value_of cell.entry ≡ value n → made_values so_far.old ≡ group_values of value groups → OnOk result (made_values so_far.new ≡ group_values of value (added_at group n groups)) }
{
    if group < so_far.len() {
        let more = one_more(of, cell, so_far.cell(group), rows);
        so_far.set(alloc, group, more)
    } else {
        so_far.push(alloc, running_of(of, cell).value())
    }
}

/// An aggregate of each group. The rows come in their order.
pub fn aggregate_column<'t>(
    alloc: Global,
    groups: &Groups<'_, 't>,
    env: &Env<'_, 't>,
    of: Aggregate,
) -> Result<MadeColumn<'t>, AllocError>
    requires { AllByRecursion (spec.MayRead of) (rows_of groups.now.input.now (env_of env.now)) }
    ensures { IfOk result (λ column. made_values column ≡ map (λ group. spec.aggregate_of of (length (member_envs groups.now.input.now (env_of env.now) group)) (λ k. map (λ r. r k) (member_envs groups.now.input.now (env_of env.now) group))) (groups_in groups.now)) }
{
    let mut so_far = MadeColumn::with_capacity(alloc, groups.firsts.len())?;
    let column = row_column(groups.input, env, column_of(of));
    for row in 0..groups.input.rows.count {
        add_to_column(
            alloc,
            &mut so_far,
            groups.numbers.number(row),
            of,
            column.cell(row),
            row,
        )?;
    }
    Ok(so_far)
}

/// What the aggregates are.
pub fn values_of<'t>(alloc: Global, running: &[Running<'t>]) -> Result<Vec<Cell<'t>>, AllocError>
    ensures { IfOk result (λ cells. map value_of cells.items ≡ map (λ r. value_of r.so_far) running.now) }
{
    let mut cells = Vec::with_capacity(alloc, running.len())?;
    for group in running {
        cells.push(group.value())?;
    }
    Ok(cells)
}
