//! Rows that are selected from those of a relation. A filter adds tests to them and a projection gives them another heading, so that neither
//! makes rows.

ghost use Rattle.std.specs.Prelude.{◌≡◌, ◌-◌, ◌≤◌, filter, IfOk, OnOk};
ghost use Rattle.std.specs.List.{range_with_len};
ghost use Rattle.algebra.specs.Conditions as spec;
ghost use Rattle.physical.specs.Outputs.{no_classes};
ghost use Rattle.relations.specs.declared.environment.Env as lent;
ghost use Rattle.relations.specs.Relations.{env_of, rows_of};
ghost use Rattle.relations.specs.Resolved.{all_pass, inner_row};
ghost use Rattle.cursors.specs.Selected.{IsSelection, selected_envs};

use algebra::Condition;
use relations::passing::fill_passing;
use relations::resolved::{Test, resolve};
use relations::{Env, Relation};
use std::alloc::{AllocError, Global};

/// The rows of a relation that pass tests.
#[derive(Drop)]
pub struct SelectedRows<'p, 't> {
    pub relation: Relation<'t>,
    pub tests: Vec<Test<'p>>,
}

/// All rows of a relation.
pub fn all_rows<'p, 't>(alloc: Global, relation: Relation<'t>) -> SelectedRows<'p, 't>
    ensures { (e : lent.Env) → IsSelection relation.entry.heading.columns (rows_of relation.entry (env_of e)) e result }
{
    SelectedRows {
        relation,
        tests: Vec::new(alloc),
    }
}

/// Those at which all conditions are true.
pub fn filtered<'p, 't: 'p>(
    alloc: Global,
    conditions: &'p [Condition],
    selected: SelectedRows<'p, 't>,
    env: &Env<'_, 't>,
) -> Result<SelectedRows<'p, 't>, AllocError>
    ensures { IfOk result (IsSelection selected.entry.relation.heading.columns (filter (spec.holds no_classes conditions.now) (selected_envs env.now selected.entry)) env.now) }
{
    let SelectedRows {
        relation,
        mut tests,
    } = selected;
    let mut more = resolve(alloc, conditions, &relation, env)?;
    tests.append(&mut more)?;
    Ok(SelectedRows { relation, tests })
}

/// The numbers of those from one row of the relation on, below an end; in the place of what was there.
pub fn fill_selected<'p, 't: 'p>(
    numbers: &mut Vec<usize>,
    selected: &SelectedRows<'p, 't>,
    start: usize,
    end: usize,
    env: &Env<'_, 't>,
) -> Result<(), AllocError>
    requires { start ≤ end }
    ensures { OnOk result (numbers.new.items ≡ filter (all_pass selected.now.relation (inner_row env.now) selected.now.tests.items) (range_with_len start (end - start))) }
{
    let tests = selected.tests.as_slice();
    fill_passing(numbers, tests, &selected.relation, env, start, end)
}
